// The table of alternatives, made once a case: of each node of the first pattern and each summary node above its places, sets over all
// members' nodes of which at least one is offered, wherever the node and all below it are placed.

ghost use Rattle.std.specs.Prelude.{◌≡◌, true, [], ℕ, ◌<◌, length, get_or};
ghost use Rattle.cover.specs.Cover.{Within};
ghost use Rattle.alternatives.specs.Filled.{Filled};

use cover::offers::{Offer, common};
use format::nodes::{PatternNode, SummaryNode};
use judging::masks::cell;

// What is known of one node and summary node: so many sets, from that one on; none where nothing is.
#[derive(Clone, Copy)]
struct Cell {
    start: u16,
    many: u16,
}

// How many sets there is room for.
const ROOM: usize = 2048;

// So many places are left for cells of which only what all their sets have in common is kept: there are 945 cells at most, so that each is
// known at least by that.
const SPARE: usize = 1024;

#[derive(Drop)]
pub struct Table {
    cells: [Cell; 1024],
    sets: [Offer; 2048],
    used: usize,
    ghost filled: { Filled cells used },
}

impl Table {
    ghost use Rattle.std.specs.Prelude.{◌≡◌, true, List, [], ℕ, ◌+◌, ◌-◌, ◌≤◌, ◌<◌, length, get_or, take, drop};
    ghost use Rattle.model.specs.Pattern.{Pattern};
    ghost use Rattle.cover.specs.Cover.{Within};
    ghost use Rattle.judging.specs.declared.member.Member.{Member};
    ghost use Rattle.judging.specs.declared.masks.Masks.{Masks};
    ghost use Rattle.alternatives.specs.Entries.{entry_in, Stored, IsBare};
    ghost use Rattle.alternatives.specs.Alternatives.{Alternatives, IsRight};

    // Nothing is known of any cell.
    pub fn new() -> Table
        ensures { IsBare result }
    {
        Table {
            cells: [Cell { start: 0, many: 0 }; 1024],
            sets: [[0; 8]; 2048],
            used: 0,
        }
    }

    // What is known of node c, where a node above it stands on x: none, or sets one of which is offered.
    pub(crate) fn entry(&self, c: PatternNode, x: SummaryNode) -> &[Offer]
        requires { (c.0 < 16) × (x.0 < 64) }
        ensures { result.now ≡ entry_in self.now c.0 x.0 }
    {
        let known = self.cells[cell(c, x)];
        let start = usize::from(known.start);
        let end = start + usize::from(known.many);
        &self.sets[start..end]
    }

    // The cell of node c and x stands for that many sets in use, from that one on.
    fn point(&mut self, c: PatternNode, x: SummaryNode, start: usize, many: usize)
        requires { (c.0 < 16) × (x.0 < 64) × (start + many ≤ self.old.used) }
        ensures { Stored c.0 x.0 (take many (drop start self.old.sets)) self.old self.new }
    {
        self.cells[cell(c, x)] = Cell {
            start: start as u16,
            many: many as u16,
        };
    }

    // The cell of node c and x stands for these sets, put behind those in use.
    fn append(&mut self, c: PatternNode, x: SummaryNode, sets: &[Offer])
        requires { (c.0 < 16) × (x.0 < 64) × (self.old.used + length sets.now ≤ 2048) }
        ensures { Stored c.0 x.0 sets.now self.old self.new }
    {
        let start = self.used;
        let end = start + sets.len();
        self.sets[start..end].copy_from_slice(sets);
        self.used = end;
        self.point(c, x, start, sets.len());
    }

    // The sets in use end with these.
    fn ends_with(&self, sets: &[Offer]) -> bool
        ensures { result ≡ true → (length sets.now ≤ self.now.used)
            × (take (length sets.now) (drop (self.now.used - length sets.now) self.now.sets) ≡ sets.now) }
    {
        let n = sets.len();
        n <= self.used && same_sets(&self.sets[self.used - n..self.used], sets)
    }

    // The sets are kept as the alternatives of node c and x: those last put in, where they are the same; else behind them, or, where there is
    // too little room, what all of them have in common. Where there are none the cell stays.
    pub(crate) fn store(&mut self, c: PatternNode, x: SummaryNode, sets: &[Offer])
        requires { (c.0 < 16) × (x.0 < 64) }
        ensures { (ts : List Member) (m : Masks) (P : Pattern) → IsRight ts m P self.old
            → Alternatives ts m P c.0 x.0 sets.now → IsRight ts m P self.new }
    {
        if sets.is_empty() {
            return;
        }
        let n = sets.len();
        if self.ends_with(sets) {
            self.point(c, x, self.used - n, n);
        } else if self.used + n + SPARE <= ROOM {
            self.append(c, x, sets);
        } else if self.used < ROOM {
            self.append(c, x, &[common_all(sets)]);
        }
    }
}

// Two lists are the same. Set by set, not by `==` of the slices, which may have the archive for C need bcmp from outside.
fn same_sets(a: &[Offer], b: &[Offer]) -> bool
    requires { length a.now ≡ length b.now }
    ensures { result ≡ true → a.now ≡ b.now }
{
    a.iter().zip(b).all(|(x, y)| x == y)
}

// What all the sets have in common.
fn common_all(sets: &[Offer]) -> Offer
    requires { 0 < length sets.now }
    ensures { (k : ℕ) → k < length sets.now → Within result (get_or sets.now k []) }
{
    let mut r = sets[0];
    for a in sets {
        r = common(&r, a);
    }
    r
}
