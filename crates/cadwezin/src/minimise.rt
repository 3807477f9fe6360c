// Striking out: the other call that goes to its caller's own count.

ghost use Rattle.model.specs.Demands.{TalliedMinimised};
ghost use Rattle.cadwezin.specs.Minimise.{exported_strikes};

use crate::Tallies;
use questions::refusal::Refusal;
use striking::{Minimised, minimise_call};

// Strike from the first pattern what it need not say, by verdicts within the limit. The shortened pattern's section, then a count and the
// struck numbers, go to the front of the answer buffer, and the caller's own count grows by all that was tried. A caller above 7 has none:
// no count is read or altered.
pub fn cadwezin_minimise(
    case: &[u8],
    limit: u64,
    caller: u64,
    tallies: &mut Tallies,
    answer: &mut [u8],
) -> Result<Minimised, Refusal>
    ensures { TalliedMinimised case.now limit caller tallies.old.counts answer.old
        (exported_strikes result answer.new tallies.new) }
{
    let account = tallies.account(caller);
    let minimised = minimise_call(case, limit, account, answer)?;
    tallies.charge(account, minimised.tried);
    Ok(minimised)
}
