// A set of patterns (document 02: several selections that count as one): a count, and the members' sections after it.

ghost use Rattle.std.specs.Prelude.{◌≡◌, [], ◌+◌, ◌*◌, ◌≤◌, ◌<◌, length, get_or};
ghost use Rattle.model.specs.Bytes.{member_at, set_of, WholeSet};

use crate::field::field;
use crate::members::Members;
use crate::pattern::Pattern;
use crate::sections::pattern_end;
use std::marker::Model;

// A set where it stands: field `on` of the bytes holds its count, and its members follow, all of them whole.
#[derive(Drop)]
pub struct PatternSet<'a> {
    bytes: &'a [u8],
    on: usize,
}

impl<'a> Model for PatternSet<'a> {
    ghost use Rattle.std.specs.Prelude.{List};
    ghost use Rattle.model.specs.Pattern.{Pattern};
    ghost use Rattle.model.specs.Bytes.{set_of, WholeSet};

    ghost Value = { List Pattern };

    ghost view = { λ s. set_of s.bytes.now s.on };

    ghost invariant = { λ s. WholeSet s.bytes.now s.on };
}

impl<'a> PatternSet<'a> {
    // The set that stands there.
    pub fn new(bytes: &'a [u8], on: usize) -> PatternSet<'a>
        requires { WholeSet bytes.now on }
        ensures { result ≡ set_of bytes.now on }
    {
        PatternSet { bytes, on }
    }

    // How many members it has.
    pub fn count(&self) -> usize
        ensures { (result ≡ length self.now) × (result < 65536) }
    {
        field(self.bytes, self.on)
    }

    // Member i, from 0 on.
    pub fn member(&self, i: usize) -> Pattern<'a>
        requires { i < length self.now }
        ensures { result ≡ get_or self.now i [] }
    {
        Pattern::new(self.bytes, member_at(self.bytes, self.on, i))
    }

    // All of them, in their order.
    pub fn members(&self) -> Members<'a>
        ensures { result ≡ self.now }
    {
        Members::new(self.bytes, self.on)
    }
}

// The field that holds the count of member i, from 0 on.
pub fn member_at(b: &[u8], on: usize, i: usize) -> usize
    requires { WholeSet b.now on × (i < length (set_of b.now on)) }
    ensures { result ≡ member_at b.now on i }
{
    let mut at = on + 1;
    for _ in 0..i {
        at = pattern_end(b, at);
    }
    at
}

// The count of a set of which no member need be whole.
pub fn set_count(b: &[u8], on: usize) -> usize
    requires { 2 * (on + 1) ≤ length b.now }
    ensures { (result ≡ length (set_of b.now on)) × (result < 65536) }
{
    field(b, on)
}
