// A partial embedding of the first pattern.

ghost use Rattle.std.specs.Prelude.{◌≤◌, ◌<◌, length};
ghost use Rattle.judging.specs.Room.{Placed};

use crate::judges::Judges;
use format::nodes::PatternNode;

// The images of the nodes before `next`, with room for all, and those who judge.
#[derive(Clone, Copy)]
pub struct Partial<'a> {
    pub by: &'a Judges<'a>,
    pub images: &'a [u16],
    pub next: PatternNode,
    ghost placed: { Placed by.now.pattern.now images.now },
    ghost some: { 0 < next.0 },
    ghost inside: { next.0 ≤ length by.now.pattern.now },
}
