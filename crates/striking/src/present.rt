// The present pattern: it stands alone, in bytes of its own, while its leaves are struck.

ghost use Rattle.std.specs.Prelude.{◌≡◌, true, ◌≤◌, ◌<◌, [], ◌∷◌, length};
ghost use Rattle.model.specs.Bytes.{case_of, encode_pattern, set_of, written_at_front, WholeSet};
ghost use Rattle.model.specs.Facts.{AcceptedCase};
ghost use Rattle.model.specs.Striking.{may_go, without};
ghost use Rattle.format.specs.Given.{PatternKept};

use crate::shorten::{Section, shortened};
use format::limits::PATTERN_WIDTH;
use format::pattern::Pattern;
use format::sections::first_at;
use format::write::{copy_fields, put_field};
use std::marker::Model;

#[derive(Drop)]
pub struct Present {
    section: Section,
}

impl Model for Present {
    ghost use Rattle.model.specs.Pattern.{Pattern};
    ghost use Rattle.format.specs.Given.{pattern_at};
    ghost use Rattle.striking.specs.Present.{StandsAlone};

    ghost Value = { Pattern };

    ghost view = { λ p. pattern_at p.section 0 };

    ghost invariant = { λ p. StandsAlone p.section };
}

impl Present {
    // The first pattern of an accepted case.
    pub fn first(case: &[u8]) -> Present
        requires { AcceptedCase case.now }
        ensures { result ≡ (case_of case.now).first }
    {
        let first = first_at(case);
        let n = 1 + PATTERN_WIDTH * Pattern::new(case, first).count();
        let mut section = [0u8; 162];
        copy_fields(case, first, n, &mut section, 0);
        Present { section }
    }

    // It, where it stands.
    pub fn pattern(&self) -> Pattern<'_>
        ensures { (result ≡ self.now) × PatternKept self.now }
    {
        Pattern::new(&self.section, 0)
    }

    // It without one of the leaves that may go.
    pub fn without(&self, q: usize) -> Present
        requires { (q < length self.now) × (may_go self.now q ≡ true) }
        ensures { result ≡ without self.now q }
    {
        let section = shortened(&self.section, q);
        Present { section }
    }

    // As a set of one: a count of 1 and the section.
    pub fn set_of_one(&self) -> [u8; 164]
        ensures { WholeSet result 0 × (set_of result 0 ≡ self.now ∷ []) }
    {
        let mut set = [0u8; 164];
        put_field(&mut set, 0, 1);
        let n = 1 + PATTERN_WIDTH * self.pattern().count();
        copy_fields(&self.section, 0, n, &mut set, 1);
        set
    }

    // Its section, to the front of out. The result is the byte after it.
    pub fn write(&self, out: &mut [u8]) -> usize
        requires { 162 ≤ length out.old }
        ensures end { (result ≡ length (encode_pattern self.now)) × (result ≤ 162) }
        ensures front { out.new ≡ written_at_front (encode_pattern self.now) out.old }
    {
        let n = 1 + PATTERN_WIDTH * self.pattern().count();
        copy_fields(&self.section, 0, n, out, 0);
        2 * n
    }
}
