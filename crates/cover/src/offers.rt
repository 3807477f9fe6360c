// A set over all members' nodes: by member, a mask of its nodes.

ghost use Rattle.std.specs.Prelude.{◌≡◌, ℕ, ◌<◌, get_or};
ghost use Rattle.std.specs.Int.Bits.{bit_and, bit_or};
ghost use Rattle.cover.specs.Cover.{inside_by, each_by, shared_below};

use bits::{Mask, count64};

pub type Offer = [u16; 8];

// Every set of a is inside b's.
pub fn inside(a: &Offer, b: &Offer) -> bool
    ensures { result ≡ inside_by a.now b.now }
{
    a.iter().zip(b).all(|(x, y)| x.is_subset(*y))
}

// What an operation makes of the masks of a and b, member by member.
fn each<F: Fn(u16, u16) -> u16>(a: &Offer, b: &Offer, op: F) -> Offer
    requires { F.IsAlwaysCallable op }
    ensures { (i : ℕ) → i < 8 → F.post op (get_or a.now i 0) (get_or b.now i 0) (get_or result i 0) }
{
    let mut r = [0u16; 8];
    for i in 0..8 {
        r[i] = op(a[i], b[i]);
    }
    r
}

// What is in either.
pub fn either(a: &Offer, b: &Offer) -> Offer
    ensures { result ≡ each_by bit_or a.now b.now }
{
    each(a, b, |x, y| x | y)
}

// What is in both.
pub fn common(a: &Offer, b: &Offer) -> Offer
    ensures { result ≡ each_by bit_and a.now b.now }
{
    each(a, b, |x, y| x & y)
}

// How many nodes a and b share.
pub fn shared(a: &Offer, b: &Offer) -> usize
    ensures { result ≡ shared_below a.now b.now 8 }
{
    let mut n = 0;
    for (x, y) in a.iter().zip(b) {
        n += count64(u64::from(*x & *y));
    }
    n
}
