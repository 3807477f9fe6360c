// One way of writing a case (document 02, #106): every tree in preorder, siblings in one order. Any bytes may be passed: the call refuses
// what its questions refuse.
#![tactic(auto)]

mod entry;
mod gather;
mod row;
mod tree;
mod write;

ghost use Rattle.std.specs.Prelude.{◌≡◌, ◌+◌, ◌*◌, ◌≤◌, map, length};
ghost use Rattle.std.proofs.lemmas.List.Edits.{sets};
ghost use Rattle.model.specs.Bytes.{bytes_of, set_fields, encode_case, written_at_front};
ghost use Rattle.model.specs.Normal.{normal_pattern, normal_case, normalise_refusal};
ghost use Rattle.model.specs.Demands.{NormaliseAnswered};
ghost use Rattle.moving.specs.Answers.{moved_of};
ghost use Rattle.normalising.specs.Trees.{CaseGiven, SetGiven};
ghost use Rattle.questions.specs.Refusal.{asked};

use format::case::Case;
use format::set::PatternSet;
use format::write::put_field;
use questions::ask_case;
use questions::numbers::buffer_large_enough;
use questions::refusal::{Refusal, hold};
use row::{ROW, Row};
use std::array::from_fn;
use write::write_tree;

// A set, from field `at` of out on: its members keep their order. The result is the field after it.
fn write_set(set: &PatternSet, rows: &mut [Row], out: &mut [u8], at: usize) -> usize
    requires given { SetGiven set.now × (64 ≤ length rows.old) }
    requires room { 2 * (at + length (set_fields (map normal_pattern set.now))) ≤ length out.old }
    ensures end { result ≡ at + length (set_fields (map normal_pattern set.now)) }
    ensures buffer { out.new ≡ sets out.old (2 * at) (bytes_of (set_fields (map normal_pattern set.now))) }
{
    put_field(out, at, set.count() as u16);
    let mut to = at + 1;
    for member in set.members() {
        to = write_tree(&member, rows, out, to);
    }
    to
}

// A case, to the front of out. The result is the byte after it. The rows are lent to one tree after another.
fn write_case(case: &Case, out: &mut [u8]) -> usize
    requires { CaseGiven case.now × (length (encode_case (normal_case case.now)) ≤ length out.old) }
    ensures end { result ≡ length (encode_case (normal_case case.now)) }
    ensures buffer { out.new ≡ written_at_front (encode_case (normal_case case.now)) out.old }
{
    let mut rows: [Row; ROW] = from_fn(|_| Row::new());
    let first = write_tree(&case.summary(), &mut rows, out, 0);
    let set = write_tree(&case.first(), &mut rows, out, first);
    2 * write_set(&case.set(), &mut rows, out, set)
}

// What the call asks: 2, then 3 to 8 with 14 right after 4 and 17 right after 7.
fn ask_normalise(case: &[u8], buffer: usize) -> Result<(), Refusal>
    ensures { asked result ≡ normalise_refusal case.now buffer }
{
    hold(buffer_large_enough(buffer), Refusal::Room)?;
    ask_case(case)
}

// One way of writing: the case as it is written, to the front of the answer buffer; the answer is how many bytes it has, which is as many
// as the case. A refusal alters nothing.
pub fn normalise_call(case: &[u8], answer: &mut [u8]) -> Result<usize, Refusal>
    ensures { NormaliseAnswered case.now answer.old (moved_of result answer.new) }
{
    ask_normalise(case, answer.len())?;
    Ok(write_case(&Case::new(case), answer))
}
