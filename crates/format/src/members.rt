// The members of a set of patterns, one after another: each stands after the one before it.

ghost use Rattle.std.specs.Prelude.{◌≡◌};
ghost use Rattle.std.specs.Iterator.{YieldsFirst, item_count};
ghost use Rattle.model.specs.Bytes.{set_of, WholeSet};

use crate::field::field;
use crate::pattern::Pattern;
use crate::sections::pattern_end;
use std::marker::Model;

// Those that are still to come: `passed` of the set whose count is field `on` have, and field `at` holds the next one's count.
#[derive(Drop)]
pub struct Members<'a> {
    bytes: &'a [u8],
    on: usize,
    at: usize,
    passed: usize,
}

impl<'a> Model for Members<'a> {
    ghost use Rattle.std.specs.Prelude.{List, drop};
    ghost use Rattle.model.specs.Pattern.{Pattern};
    ghost use Rattle.model.specs.Bytes.{set_of};
    ghost use Rattle.format.specs.Members.{Passed};

    ghost Value = { List Pattern };

    ghost view = { λ m. drop m.passed (set_of m.bytes.now m.on) };

    ghost invariant = { λ m. Passed m.bytes.now m.on m.at m.passed };
}

impl<'a> Members<'a> {
    // All of them.
    pub fn new(bytes: &'a [u8], on: usize) -> Members<'a>
        requires { WholeSet bytes.now on }
        ensures { result ≡ set_of bytes.now on }
    {
        Members {
            bytes,
            on,
            at: on + 1,
            passed: 0,
        }
    }
}

impl<'a> Iterator for Members<'a> {
    type Item = Pattern<'a>;

    ghost next_gives = { YieldsFirst (λ m. m) };

    ghost remaining = { item_count (λ m. m) };

    fn next(&mut self) -> Option<Pattern<'a>> {
        if self.passed == field(self.bytes, self.on) {
            return None;
        }
        let member = Pattern::new(self.bytes, self.at);
        self.at = pattern_end(self.bytes, self.at);
        self.passed += 1;
        Some(member)
    }
}
