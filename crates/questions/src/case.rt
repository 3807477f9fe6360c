// The questions on the bytes and counts of a case: 3, 4 and 14.

ghost use Rattle.std.specs.Prelude.{◌≡◌, ◌+◌, ◌*◌, ◌/◌, ◌≤◌, eqb, length};
ghost use Rattle.model.specs.Limits.{pattern_width};
ghost use Rattle.model.specs.Bytes.{set_end};
ghost use Rattle.model.specs.Questions.{case_whole, counts_in_range, set_in_range};
ghost use Rattle.questions.specs.Front.{front_end};

use crate::pattern::count_in_range;
use crate::rules::between;
use format::case::Case;
use format::limits::{MAX_CASE_BYTES, MAX_MEMBERS, MAX_SUMMARY, PATTERN_WIDTH};
use format::sections::{first_at, pattern_end, section_end};
use format::set::set_count;

// The set whose count is field `on` ends where the bytes do. It may announce any number of sections, but each has a field at least, so
// no more of them are passed than there are fields. Not by `PatternSet::members`: no section is known to be whole yet.
fn set_ends(b: &[u8], on: usize) -> bool
    requires { 2 * (on + 1) ≤ length b.now }
    ensures { result ≡ eqb (length b.now / 2) (set_end b.now on) }
{
    let fields = b.len() / 2;
    let n = set_count(b, on);
    let mut at = on + 1;
    for _ in 0..n {
        if fields <= at {
            return false;
        }
        at = pattern_end(b, at);
    }
    fields == at
}

// The field after the first pattern, whose records have that width: there another pattern's count stands, or the set's. None where there
// are too many bytes, or they are odd in number or end before that field. A count is read only where it is whole.
pub fn front_end(b: &[u8], width: usize) -> Option<usize>
    requires { width ≤ pattern_width }
    ensures { result ≡ front_end width b.now }
{
    let bytes = b.len();
    if MAX_CASE_BYTES < bytes {
        return None;
    }
    if bytes % 2 != 0 {
        return None;
    }
    let fields = bytes / 2;
    if fields == 0 {
        return None;
    }
    let first = first_at(b);
    if fields <= first {
        return None;
    }
    let end = section_end(b, first, width);
    (end < fields).then_some(end)
}

// 3. Has the case at most 65,536 bytes, every count and announced record whole, and nothing after?
pub fn case_whole(b: &[u8]) -> bool
    ensures { result ≡ case_whole b.now }
{
    front_end(b, PATTERN_WIDTH).is_some_and(|set| set_ends(b, set))
}

// 4. Are the counts 1 to 64, 1 to 16 and, of each member, 1 to 16?
pub fn counts_in_range(case: &Case) -> bool
    ensures { result ≡ counts_in_range case.now }
{
    between(1, MAX_SUMMARY, case.summary().count() as u64)
        && count_in_range(&case.first())
        && case.set().members().all(|p| count_in_range(&p))
}

// 14. Is the set's count 1 to 8?
pub fn set_in_range(case: &Case) -> bool
    ensures { result ≡ set_in_range case.now }
{
    between(1, MAX_MEMBERS, case.set().count() as u64)
}
