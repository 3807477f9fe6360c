// Sets of small numbers as masks: bit i of a mask says whether i is in the set. 16 bits hold a set of pattern nodes, 64 bits
// one of summary nodes. A union is `a | b`, an intersection `a & b`.
#![tactic(auto)]

ghost use Rattle.std.specs.Prelude.{◌≡◌, ◌≢◌, ◌∷◌, ℕ, Bool, ◌-◌, ◌^◌, ◌≤◌, ◌<◌, eqb};
ghost use Rattle.std.specs.Int.Bits.{bit_and, bit_or};
ghost use Rattle.std.specs.Int.Count.{ones, count_trailing_zeros};
ghost use Rattle.model.specs.Lists.{has, mask_below, members};
ghost use Rattle.bits.specs.Sets.{insert_if};
ghost use Rattle.std.specs.Iterator.{YieldsFirst, item_count};
ghost use Rattle.bits.specs.Members.{members_left};

// A mask of some width, as a number.
pub trait Mask: Copy {
    // The numbers below it are those that there is room for.
    ghost width: { ℕ };

    // The mask as a number.
    ghost number: { Self → ℕ };

    // The empty set.
    fn none() -> Self
        ensures { number result ≡ 0 };

    // i is in the set.
    fn has(self, i: usize) -> bool
        requires { i < width }
        ensures { result ≡ has (number self) i };

    // The set with i put in.
    fn insert(self, i: usize) -> Self
        requires { i < width }
        ensures { number result ≡ bit_or (number self) (2 ^ i) };

    // The set with i put in where t says so: a loop over i that inserts what passes a test has no branch of its own.
    fn insert_if(self, i: usize, t: bool) -> Self
        requires { i < width }
        ensures { number result ≡ insert_if t (number self) i }
    {
        if t { self.insert(i) } else { self }
    }

    // Every member of the set is one of the other.
    fn is_subset(self, of: Self) -> bool
        ensures { result ≡ eqb (bit_and (number self) (number of)) (number self) };
}

impl Mask for u16 {
    ghost width = { 16 };

    ghost number = { λ m. m };

    fn none() -> u16 {
        0
    }

    fn has(self, i: usize) -> bool {
        (self >> i) % 2u16 == 1
    }

    fn insert(self, i: usize) -> u16 {
        self | (1u16 << i)
    }

    fn is_subset(self, of: u16) -> bool {
        self & of == self
    }
}

impl Mask for u64 {
    ghost width = { 64 };

    ghost number = { λ m. m };

    fn none() -> u64 {
        0
    }

    fn has(self, i: usize) -> bool {
        (self >> i) % 2u64 == 1
    }

    fn insert(self, i: usize) -> u64 {
        self | (1u64 << i)
    }

    fn is_subset(self, of: u64) -> bool {
        (self & of) == self
    }
}

// The set of those below n that pass the test. Each is asked, whatever the others say: the loop has no branch, and takes several at a time.
pub fn select<M: Mask, F: Fn(usize) -> bool>(n: usize, passes: F) -> M
    requires room { n ≤ M.width }
    requires callable { (i : ℕ) → i < n → F.pre passes i }
    ensures { (test : ℕ → Bool) → ((i : ℕ) (r : Bool) → i < n → F.post passes i r → r ≡ test i)
        → M.number result ≡ mask_below test n }
{
    let mut m = M::none();
    for i in 0..n {
        m = m.insert_if(i, passes(i));
    }
    m
}

// A count as an index.
fn index(n: u32) -> usize
    ensures { result ≡ n }
{
    n as usize
}

// How many members the set has.
pub fn count64(m: u64) -> usize
    ensures { result ≡ ones m }
{
    index(u64::count_ones(m))
}

// The least member, or 64 where there is none.
pub fn first64(m: u64) -> usize
    ensures { result ≡ count_trailing_zeros 64 m }
{
    index(u64::trailing_zeros(m))
}

// The set without i, which is in it.
pub fn without64(m: u64, i: usize) -> u64
    requires { (i < 64) × (2 ^ i ≤ m) }
    ensures { result ≡ m - 2 ^ i }
{
    m - (1u64 << i)
}

// The least member of a set that has one, and the set without it.
fn split_first(m: u64) -> (usize, u64)
    requires { m ≢ 0 }
    ensures { members m ≡ result.0 ∷ members result.1 }
{
    let i = first64(m);
    (i, without64(m, i))
}

// The members of a set that are still to come, ascending.
#[derive(Clone, Copy)]
pub struct Members(pub u64);

impl Iterator for Members {
    type Item = usize;

    ghost next_gives = { YieldsFirst members_left };

    ghost remaining = { item_count members_left };

    fn next(&mut self) -> Option<usize> {
        if self.0 == 0 {
            return None;
        }
        let (i, rest) = split_first(self.0);
        self.0 = rest;
        Some(i)
    }
}
