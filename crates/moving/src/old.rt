// The old form of a case: one second pattern in place of a set, and pattern records of four fields, whatever today's have. Where its
// sections stand, and the questions on its bytes and counts.

ghost use Rattle.std.specs.Prelude.{◌≡◌, true};
ghost use Rattle.model.specs.OldForm.{second_at, old_case_of, old_whole, old_counts_in_range};

use format::field::field;
use format::limits::{MAX_PATTERN, MAX_SUMMARY, OLD_WIDTH};
use format::sections::{first_at, section_end};
use questions::case::front_end;
use questions::rules::between;

// The field that holds the second pattern's count.
pub fn second_at(b: &[u8]) -> usize
    requires { old_whole b.now ≡ true }
    ensures { result ≡ second_at b.now }
{
    section_end(b, first_at(b), OLD_WIDTH)
}

// 3, of the old form. Has the case at most 65,536 bytes, every count and announced record whole, and nothing after?
pub fn old_whole(b: &[u8]) -> bool
    ensures { result ≡ old_whole b.now }
{
    front_end(b, OLD_WIDTH).is_some_and(|second| b.len() / 2 == section_end(b, second, OLD_WIDTH))
}

// 4, of the old form. Are the counts 1 to 64, 1 to 16 and 1 to 16?
pub fn old_counts_in_range(b: &[u8]) -> bool
    requires { old_whole b.now ≡ true }
    ensures { result ≡ old_counts_in_range (old_case_of b.now) }
{
    between(1, MAX_SUMMARY, field(b, 0) as u64)
        && between(1, MAX_PATTERN, field(b, first_at(b)) as u64)
        && between(1, MAX_PATTERN, field(b, second_at(b)) as u64)
}
