// Paths of each node: case, number of the pattern (document 01: selection).

ghost use Rattle.model.specs.Demands.{PathsAnswered};
ghost use Rattle.calls.specs.Answers.{paths_of};

use format::case::Case;
use matching::outcomes::{path_counts, path_masks};
use questions::refusal::Refusal;
use refusals::ask_paths;
use refusals::numbered::numbered;

// The paths of sixteen pattern nodes, bit i for summary node i, and how many each has. Entries past the last node are 0.
#[derive(Clone, Copy)]
pub struct Paths {
    pub masks: [u64; 16],
    pub counts: [u64; 16],
}

// Which paths may each node of the pattern take, and how many?
pub fn paths_call(case: &[u8], number: u64) -> Result<Paths, Refusal>
    ensures { PathsAnswered case.now number (paths_of result) }
{
    ask_paths(case, number)?;
    let case = Case::new(case);
    let masks = path_masks(&case.summary(), &numbered(&case, number));
    let counts = path_counts(&masks);
    Ok(Paths { masks, counts })
}
