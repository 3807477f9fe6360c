// The writers: each writes at the front of a lent slice of bytes, or from a field on, and the bytes that it does not write keep their
// contents.

ghost use Rattle.std.specs.Prelude.{◌≡◌, ◌+◌, ◌*◌, ◌≤◌, ◌<◌, length, take};
ghost use Rattle.std.proofs.lemmas.List.Edits.{sets};
ghost use Rattle.model.specs.Bytes.{field_bytes, bytes_of, fields_at, encode_counted, written_at_front};

use crate::field::field;

// Field i becomes value, low byte first.
pub fn put_field(out: &mut [u8], i: usize, value: u16)
    requires { 2 * i + 1 < length out.old }
    ensures { out.new ≡ sets out.old (2 * i) (field_bytes value) }
{
    let [low, high] = value.to_le_bytes();
    out[2 * i] = low;
    out[2 * i + 1] = high;
}

// A count k and the first k node numbers. The result is the byte after them.
pub fn write_counted(nodes: &[u16], k: usize, part: &mut [u8]) -> usize
    requires { (k ≤ length nodes.now) × (k < 65536) × (2 + 2 * k ≤ length part.old) }
    ensures end { result ≡ length (encode_counted (take k nodes.now)) }
    ensures buffer { part.new ≡ written_at_front (encode_counted (take k nodes.now)) part.old }
{
    put_field(part, 0, k as u16);
    for i in 0..k {
        put_field(part, i + 1, nodes[i]);
    }
    2 + 2 * k
}

// n fields of b, from field `from` on, become those of out from field `to` on.
pub fn copy_fields(b: &[u8], from: usize, n: usize, out: &mut [u8], to: usize)
    requires { (2 * (from + n) ≤ length b.now) × (2 * (to + n) ≤ length out.old) }
    ensures { out.new ≡ sets out.old (2 * to) (bytes_of (fields_at b.now from n)) }
{
    // Field by field, not by `copy_from_slice`, which would have the archive for C need memmove from outside.
    for i in 0..n {
        put_field(out, to + i, field(b, from + i) as u16);
    }
}
