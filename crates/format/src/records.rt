// Records of a section: `width` fields each, the first of them after the section's count.

ghost use Rattle.std.specs.Prelude.{◌≡◌, ◌+◌, ◌*◌, ◌<◌, ◌≤◌};
ghost use Rattle.model.specs.Limits.{pattern_width};
ghost use Rattle.model.specs.Bytes.{field as field_of, WholeSection};

use crate::field::field;

// Field j of record i of the section whose count is field `at`.
pub fn record_field(b: &[u8], at: usize, width: usize, i: usize, j: usize) -> usize
    requires whole_section { WholeSection width b.now at }
    requires i_bound { (i < field_of b.now at) × (j < width) × (width ≤ pattern_width) }
    ensures { (result ≡ field_of b.now (at + 1 + width * i + j)) × (result < 65536) }
{
    field(b, at + 1 + width * i + j)
}
