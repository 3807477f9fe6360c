// Striking out what a pattern need not say (document 02, #105): the call over plain forms. Any bytes may be passed: it refuses what its
// questions refuse.
#![tactic(auto)]

mod numbers;
mod present;
mod round;
mod shorten;
mod strike;

ghost use Rattle.std.specs.Prelude.{◌≡◌, ◌++◌, ◌≤◌, length};
ghost use Rattle.model.specs.Limits.{max_limit, min_buffer};
ghost use Rattle.model.specs.Bytes.{case_of, encode_pattern, encode_counted, written_at_front};
ghost use Rattle.model.specs.Facts.{AcceptedCase};
ghost use Rattle.model.specs.Demands.{MinimiseAnswered};
ghost use Rattle.striking.specs.Outcome.{outcome_of, Told};

use format::summary::Summary;
use format::write::write_counted;
use judging::rows::SummaryRows;
use present::Present;
use questions::numbers::Account;
use questions::refusal::Refusal;
use refusals::ask_minimise;
use strike::strike;
use strong::outline::Outline;

// What striking comes to: how many leaves were struck, and the sum of tried over all verdicts made.
#[derive(Clone, Copy)]
pub struct Minimised {
    pub struck: usize,
    pub tried: u64,
}

// The section of the present pattern, then the count of the struck numbers and these, to the front of the answer buffer.
fn write_order(present: &Present, struck: &[u16], answer: &mut [u8])
    requires { (length struck.now ≤ 16) × (min_buffer ≤ length answer.old) }
    ensures { answer.new
        ≡ written_at_front (encode_pattern present.now ++ encode_counted struck.now) answer.old }
{
    let end = present.write(answer);
    write_counted(struck, struck.len(), &mut answer[end..]);
}

// An accepted case, whose summary's rows are gathered once for all verdicts. Nothing is written before all is struck that may be.
fn accepted(case: &[u8], limit: u64, answer: &mut [u8]) -> Minimised
    requires { AcceptedCase case.now × (min_buffer ≤ length answer.old) × (limit ≤ max_limit) }
    ensures { Told (case_of case.now) limit answer.old answer.new result }
{
    let rows = SummaryRows::new(Outline::new(Summary::new(case)));
    let mut present = Present::first(case);
    let r = strike(&rows, &mut present, limit);
    let struck = r.struck.as_slice();
    write_order(&present, struck, answer);
    Minimised {
        struck: struck.len(),
        tried: r.tried,
    }
}

// Striking out: any bytes, any numbers and a buffer of any length may be given. A refusal alters nothing. Whoever holds the caller's tally
// raises it by tried, which is 0 of a refusal.
pub fn minimise_call(
    case: &[u8],
    limit: u64,
    account: Account,
    answer: &mut [u8],
) -> Result<Minimised, Refusal>
    ensures { MinimiseAnswered case.now limit account.caller account.tally answer.old (outcome_of account.tally result answer.new) }
{
    ask_minimise(case, limit, account, answer.len())?;
    Ok(accepted(case, limit, answer))
}
