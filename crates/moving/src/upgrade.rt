// Old to new: case, answer buffer.

ghost use Rattle.model.specs.Demands.{UpgradeAnswered};
ghost use Rattle.moving.specs.Answers.{moved_of};

use crate::refusals::ask_upgrade;
use crate::write::write_new;
use questions::refusal::Refusal;

// The case with a set of one that the old case is, written to the front of the answer buffer; the answer is how many bytes it has.
// Questions 2, and 3 to 8 of the old form.
// Its like `downgrade_call` calls other functions: one over both would take two closures for two lines.
pub fn upgrade_call(case: &[u8], answer: &mut [u8]) -> Result<usize, Refusal>
    ensures { UpgradeAnswered case.now answer.old (moved_of result answer.new) }
{
    ask_upgrade(case, answer.len())?;
    Ok(write_new(case, answer))
}
