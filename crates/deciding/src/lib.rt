// The verdict call over plain forms: a case's bytes, a limit, the caller with its tally by value, and a lent answer buffer.
#![tactic(auto)]

ghost use Rattle.std.specs.Prelude.{◌≤◌, length};
ghost use Rattle.model.specs.Limits.{max_limit, min_buffer};
ghost use Rattle.model.specs.Facts.{CaseFacts};
ghost use Rattle.model.specs.Demands.{VerdictAnswered};
ghost use Rattle.deciding.specs.Told.{Told};
ghost use Rattle.deciding.specs.Outcome.{outcome_of};

use canonical::show;
use containment::Containment;
use containment::verdict::verdict;
use format::case::Case;
use judging::rows::SummaryRows;
use questions::numbers::Account;
use questions::pattern::arity;
use questions::refusal::Refusal;
use refusals::ask_verdict;
use strong::outline::Outline;

// The verdict on an accepted case, whose summary's rows are gathered once, for judging and for what is shown. What "not included" shows
// goes to the front of the answer buffer.
fn accepted(case: &Case, limit: u64, answer: &mut [u8]) -> Containment
    requires { CaseFacts case.now × (min_buffer ≤ length answer.old) × (limit ≤ max_limit) }
    ensures { Told case.now limit answer.old answer.new result }
{
    let rows = SummaryRows::new(Outline::new(case.summary()));
    let first = case.first();
    let mut images = [0u16; 16];
    let r = verdict(&rows, &first, &case.set(), &mut images, limit);
    let Containment::NotContained(rank) = r else {
        return r;
    };
    show(rows.outline(), &first, &images, arity(&first), answer);
    Containment::NotContained(rank)
}

// Verdict: any bytes, any numbers and a buffer of any length may be given. A refusal alters nothing, and else "not included" writes what it
// shows to the front of the answer buffer. Whoever holds the caller's tally raises it by tried, which is 0 of a refusal.
pub fn verdict_call(
    case: &[u8],
    limit: u64,
    account: Account,
    answer: &mut [u8],
) -> Result<Containment, Refusal>
    ensures { VerdictAnswered case.now limit account.caller account.tally answer.old (outcome_of account.tally result answer.new) }
{
    ask_verdict(case, limit, account, answer.len())?;
    Ok(accepted(&Case::new(case), limit, answer))
}
