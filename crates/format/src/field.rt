// 16-bit fields of a lent slice, low byte first.

ghost use Rattle.std.specs.Prelude.{◌≡◌, ◌+◌, ◌*◌, ◌<◌, length};
ghost use Rattle.model.specs.Bytes.{field as field_of};

// Field i, which the slice holds whole.
pub fn field(s: &[u8], i: usize) -> usize
    requires { 2 * i + 1 < length s.now }
    ensures { (result ≡ field_of s.now i) × (result < 65536) }
{
    usize::from(u16::from_le_bytes([s[2 * i], s[2 * i + 1]]))
}
