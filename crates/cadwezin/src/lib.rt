// The calls of the public library, which `cadwezin_c` exports for C and Rust to link. Any bytes, any numbers and buffers and tables of any
// length may be given; where a call is refused nothing is altered.
#![tactic(auto)]

pub mod minimise;

ghost use Rattle.std.specs.Prelude.{◌≡◌, ◌+◌, ◌^◌, ◌<◌, slice_set};
ghost use Rattle.model.specs.Limits.{callers};
ghost use Rattle.model.specs.Calls.{tally_of};
ghost use Rattle.deciding.specs.Outcome.{verdict_values};
ghost use Rattle.model.specs.Demands.{TalliedAnswered, FitsAnswered, ResultAnswered, NodesAnswered, PathsAnswered, LayoutAnswered, UpgradeAnswered, DowngradeAnswered, NormaliseAnswered};
ghost use Rattle.calls.specs.Answers.{test_of, nodes_of, paths_of};
ghost use Rattle.moving.specs.Answers.{moved_of};
ghost use Rattle.cadwezin.specs.Table.{records_in, layout_of};
ghost use Rattle.cadwezin.specs.Verdict.{exported_outcome};

use calls::fits::fits_call;
use calls::nodes::nodes_call;
use calls::paths::{Paths, paths_call};
use calls::result::result_call;
use containment::Containment;
use deciding::verdict_call;
use laying::laid::{NodeRecord, laid_out};
use moving::downgrade::downgrade_call;
use moving::upgrade::upgrade_call;
use normalising::normalise_call;
use questions::numbers::Account;
use questions::refusal::Refusal;

// Counts trials, for each caller apart: a caller's own count grows by tried with each of its verdicts and of its orders to strike.
#[repr(C)]
#[derive(Clone, Copy)]
pub struct Tallies {
    pub counts: [u64; 8],
}

impl Tallies {
    // A caller with its own count. One above 7 has none, and 0 stands for it.
    pub fn account(&self, caller: u64) -> Account
        ensures { result ≡ record { caller = caller; tally = tally_of self.now.counts caller } }
    {
        let own = self.counts.get(caller as usize);
        Account {
            caller,
            tally: own.copied().unwrap_or(0),
        }
    }

    // What was tried for an account, in addition to what it has come to, is the caller's own count now.
    pub(crate) fn charge(&mut self, account: Account, tried: u64)
        requires known { account.caller < callers }
        requires fits { account.tally + tried < 2 ^ 64 }
        ensures { self.new.counts ≡ slice_set self.old.counts account.caller (account.tally + tried) }
    {
        self.counts[account.caller as usize] = account.tally + tried;
    }
}

// How many a verdict tried.
fn tried_of(verdict: Containment) -> u64
    ensures { result ≡ (verdict_values verdict).tried }
{
    match verdict {
        Containment::Contained(n) | Containment::NotContained(n) | Containment::Stopped(n) => n,
    }
}

// Decide whether the first pattern is contained in the set. What "not included" shows goes to the front of the answer buffer, and
// the caller's own count grows by tried. A caller above 7 has none: no count is read or altered.
pub fn cadwezin_verdict(
    case: &[u8],
    limit: u64,
    caller: u64,
    tallies: &mut Tallies,
    answer: &mut [u8],
) -> Result<Containment, Refusal>
    ensures { TalliedAnswered case.now limit caller tallies.old.counts answer.old
        (exported_outcome result answer.new tallies.new) }
{
    let account = tallies.account(caller);
    let verdict = verdict_call(case, limit, account, answer)?;
    tallies.charge(account, tried_of(verdict));
    Ok(verdict)
}

// Fits: does the document conform to the case's summary?
pub fn cadwezin_fits(case: &[u8], document: &[u8]) -> Result<bool, Refusal>
    ensures { FitsAnswered case.now document.now (test_of result) }
{
    fits_call(case, document)
}

// Is the list a result of the pattern that the number names, in the document?
pub fn cadwezin_result(
    case: &[u8],
    number: u64,
    document: &[u8],
    list: &[u8],
) -> Result<bool, Refusal>
    ensures { ResultAnswered case.now number document.now list.now (test_of result) }
{
    result_call(case, number, document, list)
}

// The nodes at a position in any result, ascending after their count, go to the front of the answer buffer.
pub fn cadwezin_nodes(
    case: &[u8],
    number: u64,
    document: &[u8],
    position: u64,
    answer: &mut [u8],
) -> Result<usize, Refusal>
    ensures { NodesAnswered case.now number document.now position answer.old (nodes_of result answer.new) }
{
    nodes_call(case, number, document, position, answer)
}

// The paths of each node of the pattern that the number names.
pub fn cadwezin_paths(case: &[u8], number: u64) -> Result<Paths, Refusal>
    ensures { PathsAnswered case.now number (paths_of result) }
{
    paths_call(case, number)
}

// Lay out a canonical document: its nodes fill the front of the lent table, and the node count is the result.
pub fn cadwezin_layout(
    case: &[u8],
    number: u64,
    list: &[u8],
    table: &mut [NodeRecord],
) -> Result<usize, Refusal>
    ensures { LayoutAnswered case.now number list.now (records_in table.old) (layout_of result table.new) }
{
    let laid = laid_out(case, number, list, table.len())?;
    let records = laid.records();
    let count = records.len();
    table[..count].copy_from_slice(records);
    Ok(count)
}

// An old case, in document 01's form, becomes the same case with a set of one, at the front of the answer buffer.
pub fn cadwezin_upgrade(case: &[u8], answer: &mut [u8]) -> Result<usize, Refusal>
    ensures { UpgradeAnswered case.now answer.old (moved_of result answer.new) }
{
    upgrade_call(case, answer)
}

// A case with a set of one goes back to the old form, at the front of the answer buffer.
pub fn cadwezin_downgrade(case: &[u8], answer: &mut [u8]) -> Result<usize, Refusal>
    ensures { DowngradeAnswered case.now answer.old (moved_of result answer.new) }
{
    downgrade_call(case, answer)
}

// The case in its one way of writing, at the front of the answer buffer: two are written alike exactly when renumbering nodes turns one
// into the other.
pub fn cadwezin_normalise(case: &[u8], answer: &mut [u8]) -> Result<usize, Refusal>
    ensures { NormaliseAnswered case.now answer.old (moved_of result answer.new) }
{
    normalise_call(case, answer)
}
