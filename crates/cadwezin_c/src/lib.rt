// The calls of `cadwezin` under C's names: a slice passes as a pointer and a length, a lent struct as a pointer. Each is the call of that
// name and promises what it promises.
#![tactic(auto)]

pub mod answers;

ghost use Rattle.model.specs.Demands.{TalliedAnswered, TalliedMinimised, FitsAnswered, ResultAnswered, NodesAnswered, PathsAnswered, LayoutAnswered, UpgradeAnswered, DowngradeAnswered, NormaliseAnswered};
ghost use Rattle.cadwezin.specs.Table.{records_in};
ghost use Rattle.cadwezin_c.specs.Answers.{test_in, paths_in, exported_outcome, exported_strikes, buffer_of, table_of};

use answers::{CountAnswer, MinimiseAnswer, PathsAnswer, TestAnswer, VerdictAnswer};
use cadwezin::Tallies;
use laying::laid::NodeRecord;

// Decide whether the first pattern is contained in the set. What "not included" shows goes to the front of the answer buffer, and
// the caller's own count grows by tried. A caller above 7 has none: no count is read or altered.
#[unsafe(no_mangle)]
pub extern "C" fn cadwezin_verdict(
    case: &[u8],
    limit: u64,
    caller: u64,
    tallies: &mut Tallies,
    answer: &mut [u8],
) -> VerdictAnswer
    ensures { TalliedAnswered case.now limit caller tallies.old.counts answer.old
        (exported_outcome result answer.new tallies.new) }
{
    cadwezin::cadwezin_verdict(case, limit, caller, tallies, answer).into()
}

// Fits: does the document conform to the case's summary?
#[unsafe(no_mangle)]
pub extern "C" fn cadwezin_fits(case: &[u8], document: &[u8]) -> TestAnswer
    ensures { FitsAnswered case.now document.now (test_in result) }
{
    cadwezin::cadwezin_fits(case, document).into()
}

// Is the list a result of the pattern that the number names, in the document?
#[unsafe(no_mangle)]
pub extern "C" fn cadwezin_result(
    case: &[u8],
    number: u64,
    document: &[u8],
    list: &[u8],
) -> TestAnswer
    ensures { ResultAnswered case.now number document.now list.now (test_in result) }
{
    cadwezin::cadwezin_result(case, number, document, list).into()
}

// The nodes at a position in any result, ascending after their count, go to the front of the answer buffer.
#[unsafe(no_mangle)]
pub extern "C" fn cadwezin_nodes(
    case: &[u8],
    number: u64,
    document: &[u8],
    position: u64,
    answer: &mut [u8],
) -> CountAnswer
    ensures { NodesAnswered case.now number document.now position answer.old (buffer_of result answer.new) }
{
    cadwezin::cadwezin_nodes(case, number, document, position, answer).into()
}

// The paths of each node of the pattern that the number names.
#[unsafe(no_mangle)]
pub extern "C" fn cadwezin_paths(case: &[u8], number: u64) -> PathsAnswer
    ensures { PathsAnswered case.now number (paths_in result) }
{
    cadwezin::cadwezin_paths(case, number).into()
}

// Lay out a canonical document: its nodes fill the front of the lent table, and the node count is the result.
#[unsafe(no_mangle)]
pub extern "C" fn cadwezin_layout(
    case: &[u8],
    number: u64,
    list: &[u8],
    table: &mut [NodeRecord],
) -> CountAnswer
    ensures { LayoutAnswered case.now number list.now (records_in table.old) (table_of result table.new) }
{
    cadwezin::cadwezin_layout(case, number, list, table).into()
}

// An old case, in document 01's form, becomes the same case with a set of one, at the front of the answer buffer.
#[unsafe(no_mangle)]
pub extern "C" fn cadwezin_upgrade(case: &[u8], answer: &mut [u8]) -> CountAnswer
    ensures { UpgradeAnswered case.now answer.old (buffer_of result answer.new) }
{
    cadwezin::cadwezin_upgrade(case, answer).into()
}

// A case with a set of one goes back to the old form, at the front of the answer buffer.
#[unsafe(no_mangle)]
pub extern "C" fn cadwezin_downgrade(case: &[u8], answer: &mut [u8]) -> CountAnswer
    ensures { DowngradeAnswered case.now answer.old (buffer_of result answer.new) }
{
    cadwezin::cadwezin_downgrade(case, answer).into()
}

// The case in its one way of writing, at the front of the answer buffer: two are written alike exactly when renumbering nodes turns one
// into the other.
#[unsafe(no_mangle)]
pub extern "C" fn cadwezin_normalise(case: &[u8], answer: &mut [u8]) -> CountAnswer
    ensures { NormaliseAnswered case.now answer.old (buffer_of result answer.new) }
{
    cadwezin::cadwezin_normalise(case, answer).into()
}

// Strike from the first pattern what it need not say, by verdicts within the limit. The shortened pattern's section, then a count and the
// struck numbers, go to the front of the answer buffer, and the caller's own count grows by all that was tried. A caller above 7 has none:
// no count is read or altered.
#[unsafe(no_mangle)]
pub extern "C" fn cadwezin_minimise(
    case: &[u8],
    limit: u64,
    caller: u64,
    tallies: &mut Tallies,
    answer: &mut [u8],
) -> MinimiseAnswer
    ensures { TalliedMinimised case.now limit caller tallies.old.counts answer.old
        (exported_strikes result answer.new tallies.new) }
{
    cadwezin::minimise::cadwezin_minimise(case, limit, caller, tallies, answer).into()
}
