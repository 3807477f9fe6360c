// The two forms written one from the other: the summary as it stands; each pattern record by record, with figure 0 or without its figure;
// and the set's count, which stands before the second pattern's section.

ghost use Rattle.std.specs.Prelude.{◌≡◌, true, ◌+◌, ◌*◌, ◌≤◌, length};
ghost use Rattle.std.proofs.lemmas.List.Edits.{sets};
ghost use Rattle.model.specs.Limits.{pattern_width};
ghost use Rattle.model.specs.Bytes.{bytes_of, case_of, is_whole_case, WholeSection, written_at_front};
ghost use Rattle.model.specs.OldForm.{old_width, old_record_at, old_whole};
ghost use Rattle.model.specs.Moving.{goes_back, upgraded, downgraded};
ghost use Rattle.moving.specs.Forms.{fields_in, rewritten};

use crate::old::second_at;
use format::field::field;
use format::limits::{OLD_WIDTH, PATTERN_WIDTH};
use format::sections::{first_at, set_at};
use format::write::{copy_fields, put_field};

// The record of b that begins at field `from` becomes one of WIDTH fields, from field `to` of out on: its figure is 0, or left out.
fn put_record<const WIDTH: usize>(b: &[u8], from: usize, out: &mut [u8], to: usize)
    requires width { (old_width ≤ WIDTH) × (WIDTH ≤ pattern_width) }
    requires room { (2 * (from + old_width) ≤ length b.now) × (2 * (to + WIDTH) ≤ length out.old) }
    ensures { out.new ≡ sets out.old (2 * to) (bytes_of (fields_in WIDTH (old_record_at b.now from))) }
{
    copy_fields(b, from, OLD_WIDTH, out, to);
    if OLD_WIDTH < WIDTH {
        put_field(out, to + OLD_WIDTH, 0);
    }
}

// The pattern whose count is field `at`, in records of FROM fields, becomes one in records of TO fields, from field `to` of out on. The
// result is the field after it.
// Bytes and a field, not a `Pattern`: raw fields are copied, and the old form has no type.
fn write_pattern<const FROM: usize, const TO: usize>(
    b: &[u8],
    at: usize,
    out: &mut [u8],
    to: usize,
) -> usize
    requires widths { (old_width ≤ FROM) × (FROM ≤ pattern_width) × (old_width ≤ TO) × (TO ≤ pattern_width) }
    requires room { WholeSection FROM b.now at × (2 * (to + length (rewritten FROM TO b.now at)) ≤ length out.old) }
    ensures end { result ≡ to + length (rewritten FROM TO b.now at) }
    ensures buffer { out.new ≡ sets out.old (2 * to) (bytes_of (rewritten FROM TO b.now at)) }
{
    let n = field(b, at);
    put_field(out, to, n as u16);
    for i in 0..n {
        put_record::<TO>(b, at + 1 + FROM * i, out, to + 1 + TO * i);
    }
    to + 1 + TO * n
}

// The set of one that an old case is, to the front of out. The result is the byte after it.
pub fn write_new(b: &[u8], out: &mut [u8]) -> usize
    requires b_value { old_whole b.now ≡ true }
    requires b_in_bounds { length (upgraded b.now) ≤ length out.old }
    ensures end { result ≡ length (upgraded b.now) }
    ensures buffer { out.new ≡ written_at_front (upgraded b.now) out.old }
{
    let first = first_at(b);
    let second = second_at(b);
    copy_fields(b, 0, first, out, 0);
    let set = write_pattern::<OLD_WIDTH, PATTERN_WIDTH>(b, first, out, first);
    put_field(out, set, 1);
    let end = write_pattern::<OLD_WIDTH, PATTERN_WIDTH>(b, second, out, set + 1);
    2 * end
}

// The old case that a set of one goes back to, to the front of out. The result is the byte after it.
pub fn write_old(b: &[u8], out: &mut [u8]) -> usize
    requires b_value { is_whole_case b.now ≡ true }
    requires b_value_2 { goes_back (case_of b.now) ≡ true }
    requires b_in_bounds { length (downgraded b.now) ≤ length out.old }
    ensures end { result ≡ length (downgraded b.now) }
    ensures buffer { out.new ≡ written_at_front (downgraded b.now) out.old }
{
    let first = first_at(b);
    let set = set_at(b);
    copy_fields(b, 0, first, out, 0);
    let second = write_pattern::<PATTERN_WIDTH, OLD_WIDTH>(b, first, out, first);
    let old_end = write_pattern::<PATTERN_WIDTH, OLD_WIDTH>(b, set + 1, out, second);
    2 * old_end
}
