// Those who judge: the members of a set, over a summary and a first pattern.

ghost use Rattle.format.specs.Given.{PatternKept};
ghost use Rattle.judging.specs.Room.{MembersGiven};

use format::pattern::Pattern;
use judging::masks::Masks;
use judging::member::Member;

// What judging takes, lent as one: what is known of each member, of the summary and the first pattern, and that pattern.
#[derive(Clone, Copy)]
pub struct Judges<'a> {
    pub members: &'a [Member],
    pub masks: &'a Masks,
    pub pattern: &'a Pattern<'a>,
    // How many summary nodes there are.
    pub nodes: usize,
    ghost given: { MembersGiven members.now pattern.now },
    ghost kept: { PatternKept pattern.now },
}
