// The questions that every call asks of its case before it does anything else, with the refusal that they lead to; and the questions on
// numbers alone.
#![tactic(auto)]

ghost use Rattle.std.specs.Prelude.{◌≡◌};
ghost use Rattle.model.specs.Questions.{refusal, case_questions};
ghost use Rattle.questions.specs.Refusal.{asked};

use case::{case_whole, counts_in_range, set_in_range};
use format::case::Case;
use members::{figures_kept, patterns_kept, positions_kept};
use refusal::{Refusal, hold};
use summary::{siblings_differ, summary_kept};

pub mod case;
pub mod members;
pub mod numbers;
pub mod pattern;
pub mod positions;
pub mod refusal;
pub mod rules;
pub mod summary;

// Questions 3 to 8, with 14 right after 4 and 17 right after 7, which every call asks of its case.
pub fn ask_case(b: &[u8]) -> Result<(), Refusal>
    ensures { asked result ≡ refusal (case_questions b.now) }
{
    hold(case_whole(b), Refusal::Bytes)?;
    let case = Case::new(b);
    let summary = case.summary();
    hold(counts_in_range(&case), Refusal::Counts)?;
    hold(set_in_range(&case), Refusal::SetCount)?;
    hold(summary_kept(&summary), Refusal::SummaryRecords)?;
    hold(siblings_differ(&summary), Refusal::Siblings)?;
    hold(patterns_kept(&case), Refusal::PatternRecords)?;
    hold(figures_kept(&case), Refusal::Figure)?;
    hold(positions_kept(&case), Refusal::Positions)
}
