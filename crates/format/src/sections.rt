// Where the sections of a case stand: each is known by the field that holds its count.

ghost use Rattle.std.specs.Prelude.{◌≡◌, true, ◌+◌, ◌*◌, ◌<◌, ◌≤◌, length};
ghost use Rattle.model.specs.Limits.{pattern_width};
ghost use Rattle.model.specs.Bytes.{first_at, set_at, section_end, is_whole_case};

use crate::field::field;
use crate::limits::{PATTERN_WIDTH, SUMMARY_WIDTH};

// The first pattern's, after the summary.
pub fn first_at(b: &[u8]) -> usize
    requires { 1 < length b.now }
    ensures { result ≡ first_at b.now }
{
    1 + SUMMARY_WIDTH * field(b, 0)
}

// The field after the section whose count is field `at`, with records of that width.
pub fn section_end(b: &[u8], at: usize, width: usize) -> usize
    requires { (2 * at + 1 < length b.now) × (width ≤ pattern_width) }
    ensures { result ≡ section_end width b.now at }
{
    at + 1 + width * field(b, at)
}

// The field after the pattern whose count is field `at`.
pub fn pattern_end(b: &[u8], at: usize) -> usize
    requires { 2 * at + 1 < length b.now }
    ensures { result ≡ section_end pattern_width b.now at }
{
    section_end(b, at, PATTERN_WIDTH)
}

// The set's, after the first pattern.
pub fn set_at(b: &[u8]) -> usize
    requires { is_whole_case b.now ≡ true }
    ensures { result ≡ set_at b.now }
{
    pattern_end(b, first_at(b))
}
