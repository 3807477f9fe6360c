// New to old: case, answer buffer.

ghost use Rattle.model.specs.Demands.{DowngradeAnswered};
ghost use Rattle.moving.specs.Answers.{moved_of};

use crate::refusals::ask_downgrade;
use crate::write::write_old;
use questions::refusal::Refusal;

// The old case that a set of one goes back to, written to the front of the answer buffer; the answer is how many bytes it has. Questions
// 2 to 8 with 14 right after 4 and 17 right after 7, then 15.
pub fn downgrade_call(case: &[u8], answer: &mut [u8]) -> Result<usize, Refusal>
    ensures { DowngradeAnswered case.now answer.old (moved_of result answer.new) }
{
    ask_downgrade(case, answer.len())?;
    Ok(write_old(case, answer))
}
