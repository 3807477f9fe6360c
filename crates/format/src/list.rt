// Lists: bare fields with no count.

ghost use Rattle.std.specs.Prelude.{◌≡◌, ◌/◌, ◌≤◌, length};
ghost use Rattle.model.specs.Bytes.{list_of, written_at_front};

use crate::field::field;

// A list goes to the front of out. The result is how many fields it has.
pub fn read_list(b: &[u8], out: &mut [u16]) -> usize
    requires { length b.now / 2 ≤ length out.old }
    ensures count { result ≡ length b.now / 2 }
    ensures table { out.new ≡ written_at_front (list_of b.now) out.old }
{
    let n = b.len() / 2;
    for i in 0..n {
        out[i] = field(b, i) as u16;
    }
    n
}
