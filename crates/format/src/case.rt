// A case (document 01: an outline and its selections): a summary, a pattern and a set of patterns.

ghost use Rattle.std.specs.Prelude.{◌≡◌, true};
ghost use Rattle.model.specs.Bytes.{case_of, is_whole_case};

use crate::pattern::Pattern;
use crate::sections::{first_at, set_at};
use crate::set::PatternSet;
use crate::summary::Summary;
use std::marker::Model;

// A case's bytes, every count and record whole and nothing after.
#[derive(Drop)]
pub struct Case<'a> {
    bytes: &'a [u8],
}

impl<'a> Model for Case<'a> {
    ghost use Rattle.std.specs.Prelude.{◌≡◌, true};
    ghost use Rattle.model.specs.Bytes.{Case, case_of, is_whole_case};

    ghost Value = { Case };

    ghost view = { λ c. case_of c.bytes.now };

    ghost invariant = { λ c. is_whole_case c.bytes.now ≡ true };
}

impl<'a> Case<'a> {
    // The case that they are.
    pub fn new(bytes: &'a [u8]) -> Case<'a>
        requires { is_whole_case bytes.now ≡ true }
        ensures { result ≡ case_of bytes.now }
    {
        Case { bytes }
    }

    // Its summary.
    pub fn summary(&self) -> Summary<'a>
        ensures { result ≡ self.now.summary }
    {
        Summary::new(self.bytes)
    }

    // Its first pattern.
    pub fn first(&self) -> Pattern<'a>
        ensures { result ≡ self.now.first }
    {
        Pattern::new(self.bytes, first_at(self.bytes))
    }

    // The set that the first pattern is held against.
    pub fn set(&self) -> PatternSet<'a>
        ensures { result ≡ self.now.members }
    {
        PatternSet::new(self.bytes, set_at(self.bytes))
    }
}
