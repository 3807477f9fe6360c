// What is asked of one pattern's positions: its part of 8.

ghost use Rattle.std.specs.Prelude.{◌≡◌, ◌&&◌, ◌<◌, eqb};
ghost use Rattle.model.specs.Pattern.{arity as arity_of};
ghost use Rattle.model.specs.Questions.{positions_once};
ghost use Rattle.questions.specs.Positions.{holders_of, held_once};
ghost use Rattle.questions.specs.Seen.{Sees};

use bits::Mask;
use format::nodes::PatternNode;
use format::pattern::Pattern;
use std::marker::Model;

// The number of nodes that hold the given position.
pub fn holders(p: &Pattern, position: usize) -> usize
    ensures { result ≡ holders_of p.now position }
{
    (0..p.count())
        .filter(|q| p.position(PatternNode(*q)) == position)
        .count()
}

// The positions below 64 that are held, and those that are held more than once, as masks; and how many nodes hold one at all.
#[derive(Clone, Copy)]
pub struct Seen {
    pub once: u64,
    pub twice: u64,
    pub count: usize,
}

impl Seen {
    // One more node, with that position or, by 0, none.
    fn with(self, position: usize) -> Seen
        requires { self.count < 65536 }
        ensures { Sees self position result }
    {
        let count = self.count + usize::from(0 < position);
        if 63 < position {
            return Seen { count, ..self };
        }
        Seen {
            once: self.once.insert(position),
            twice: self.twice.insert_if(position, self.once.has(position)),
            count,
        }
    }
}

// A pattern with what its nodes hold.
#[derive(Drop)]
pub struct Held<'a> {
    pattern: &'a Pattern<'a>,
    seen: Seen,
}

impl<'a> Model for Held<'a> {
    ghost use Rattle.std.specs.Prelude.{◌<◌};
    ghost use Rattle.model.specs.Pattern.{Pattern};
    ghost use Rattle.questions.specs.Seen.{SeenIn};

    ghost Value = { Pattern };

    ghost view = { λ h. h.pattern.now };

    ghost invariant = { λ h. SeenIn h.pattern.now h.seen × (h.seen.count < 65536) };
}

impl<'a> Held<'a> {
    // What the nodes hold, by one pass over them. A `for`, not a fold: that the count has room is known of the nodes before q alone.
    pub fn by(pattern: &'a Pattern<'a>) -> Held<'a>
        ensures { result ≡ pattern.now }
    {
        let mut seen = Seen {
            once: 0,
            twice: 0,
            count: 0,
        };
        for q in 0..pattern.count() {
            seen = seen.with(pattern.position(PatternNode(q)));
        }
        Held { pattern, seen }
    }

    // k, the number of nodes that hold a position.
    pub fn count(&self) -> usize
        ensures { (result ≡ arity_of self.now) × (result < 65536) }
    {
        self.seen.count
    }

    // That position is held by one node. Question 7 lets no position pass that the masks have no room for; such a one is counted.
    fn is_once(&self, position: usize) -> bool
        ensures { result ≡ held_once self.now position }
    {
        if 63 < position {
            return holders(self.pattern, position) == 1;
        }
        self.seen.once.has(position) && !self.seen.twice.has(position)
    }

    // The pattern has the positions 1 to its own k once each, k at least 1.
    pub fn each_once(&self) -> bool
        ensures { result ≡ positions_once self.now }
    {
        let k = self.seen.count;
        1 <= k && (1..k + 1).all(|position| self.is_once(position))
    }
}

// The pattern has the positions 1 to k once each, k at least 1.
pub fn positions_to(p: &Pattern, k: usize) -> bool
    ensures { result ≡ (positions_once p.now && eqb k (arity_of p.now)) }
{
    let held = Held::by(p);
    held.count() == k && held.each_once()
}
