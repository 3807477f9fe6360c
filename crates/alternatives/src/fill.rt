// Filling the table of alternatives, cell by cell.

ghost use Rattle.std.specs.Prelude.{◌≡◌, ◌⊎◌, Bool, false, ℕ, ◌≤◌, ◌<◌, length};
ghost use Rattle.model.specs.Pattern.{pattern_parent};
ghost use Rattle.cover.specs.Cover.{Covers};
ghost use Rattle.judging.specs.Blocks.{candidates_in};
ghost use Rattle.judging.specs.Judging.{nobody};
ghost use Rattle.alternatives.specs.Alternatives.{node_of, Raises, Met, Grown, At, FarBelow, Toward, matters_by};
ghost use Rattle.alternatives.specs.Entries.{Entry, IsBare};
ghost use Rattle.alternatives.specs.Judged.{MadeFor, RightFor, AlternativesFor, CoveredFor, FillableFor};

use crate::judges::Judges;
use crate::table::Table;
use bits::{Mask, Members};
use cover::lists::Offers;
use format::nodes::{PatternNode, SummaryNode};
use judging::member::NOBODY;

// What is known so far, with those who judge.
#[derive(Clone, Copy)]
pub struct Lookup<'a> {
    pub by: &'a Judges<'a>,
    pub table: &'a Table,
}

impl<'a> Lookup<'a> {
    // Joins what is known of node d, whose parent stands at y, into the list; where nothing is known the list stays. At the root, `top`,
    // sets by which the root of some member meets are left out.
    pub(crate) fn join_entry(&self, top: bool, d: PatternNode, y: SummaryNode, list: &mut Offers)
        requires { (d.0 < 16) × (y.0 < 64) }
        ensures { (f : ℕ → ℕ → Bool) → Covers (length self.now.by.now.members.now) list.old f
            → Entry (length self.now.by.now.members.now) self.now.table.now d.0 y.0 f
            → Covers (length self.now.by.now.members.now) list.new f ⊎ Met self.now.by.now.members.now top f }
    {
        let known = self.table.entry(d, y);
        if !known.is_empty() {
            self.by.join(top, list, known);
        }
    }

    // Joins in what child d of node c offers, where c stands at y; the list stays where d is no child of c.
    fn own_turn(&self, c: PatternNode, d: PatternNode, y: SummaryNode, list: &mut Offers)
        requires { (d.0 < length self.now.by.now.pattern.now) × (y.0 < 64) }
        ensures { (f : ℕ → ℕ → Bool) → Covers (length self.now.by.now.members.now) list.old f
            → (pattern_parent self.now.by.now.pattern.now d.0 ≡ c.0 → Entry (length self.now.by.now.members.now) self.now.table.now d.0 y.0 f)
            → Covers (length self.now.by.now.members.now) list.new f }
    {
        if self.by.pattern.parent(d).0 == c.0 {
            self.join_entry(false, d, y, list);
        }
    }

    // The list of what hangs from node c, where it stands at y.
    fn own_list(&self, c: PatternNode, y: SummaryNode, list: &mut Offers)
        requires { (c.0 < length self.now.by.now.pattern.now) × (y.0 < 64) }
        ensures { (f : ℕ → ℕ → Bool) → ((d : ℕ) → c.0 < d → d < length self.now.by.now.pattern.now
            → pattern_parent self.now.by.now.pattern.now d ≡ c.0 → Entry (length self.now.by.now.members.now) self.now.table.now d y.0 f)
            → Covers (length self.now.by.now.members.now) list.new f }
    {
        list.clear();
        list.add([0; 8]);
        for d in c.0 + 1..self.by.pattern.count() {
            self.own_turn(c, PatternNode(d), y, list);
        }
    }

    // The list with what node c offers to the node above y, where it stands at y itself.
    fn add_own(&self, c: PatternNode, y: SummaryNode, list: &mut Offers)
        requires { (c.0 < length self.now.by.now.pattern.now) × (y.0 < 64) }
        ensures grown { Grown (length self.now.by.now.members.now) list.old list.new }
        ensures raised { (g f : ℕ → ℕ → Bool)
            → Raises (length self.now.by.now.members.now) (node_of self.now.by.now.members.now y.0 c.0) g f
            → ((d : ℕ) → c.0 < d → d < length self.now.by.now.pattern.now → pattern_parent self.now.by.now.pattern.now d ≡ c.0
            → Entry (length self.now.by.now.members.now) self.now.table.now d y.0 g)
            → Covers (length self.now.by.now.members.now) list.new f }
    {
        let mut own = Offers::new();
        self.own_list(c, y, &mut own);
        self.by.add_raised(y, c.0, own.as_slice(), list);
    }

    // The list with what node c offers to the node above y, where it stands below y, by what is known of it there.
    fn add_below(&self, c: PatternNode, y: SummaryNode, list: &mut Offers)
        requires { (c.0 < 16) × (y.0 < 64) }
        ensures grown { Grown (length self.now.by.now.members.now) list.old list.new }
        ensures raised { (g f : ℕ → ℕ → Bool)
            → Raises (length self.now.by.now.members.now) (node_of self.now.by.now.members.now y.0 nobody) g f
            → Entry (length self.now.by.now.members.now) self.now.table.now c.0 y.0 g
            → Covers (length self.now.by.now.members.now) list.new f }
    {
        let known = self.table.entry(c, y);
        if known.is_empty() {
            self.by.add_bare(y, NOBODY, list);
        } else {
            self.by.add_raised(y, NOBODY, known, list);
        }
    }

    // With what node c offers to the node above y where it stands at y, if y is one of its paths. From a leaf nothing hangs.
    fn own_part(&self, c: PatternNode, y: SummaryNode, list: &mut Offers)
        requires { FillableFor self.now.by.now self.now.table.now c.0 y.0 }
        ensures grown { Grown (length self.now.by.now.members.now) list.old list.new }
        ensures covered { CoveredFor self.now.by.now c.0 y.0 (At y.0) list.new }
    {
        let masks = self.by.masks;
        if masks.part(c).has(y.0) {
            if masks.last(c).0 == c.0 {
                self.by.add_bare(y, c.0, list);
            } else {
                self.add_own(c, y, list);
            }
        }
    }

    // With what it offers there where it stands below y, if its edge reaches so far and it has a path there.
    fn below_part(&self, c: PatternNode, y: SummaryNode, list: &mut Offers)
        requires { FillableFor self.now.by.now self.now.table.now c.0 y.0 }
        ensures grown { Grown (length self.now.by.now.members.now) list.old list.new }
        ensures covered { CoveredFor self.now.by.now c.0 y.0 (FarBelow self.now.by.now.masks.now self.now.by.now.pattern.now c.0 y.0) list.new }
    {
        let masks = self.by.masks;
        if self.by.pattern.edge(c) == 1 {
            if masks.descendants(y) & masks.part(c) != 0 {
                self.add_below(c, y, list);
            }
        }
    }

    // With both.
    fn child_part(&self, c: PatternNode, y: SummaryNode, list: &mut Offers)
        requires { FillableFor self.now.by.now self.now.table.now c.0 y.0 }
        ensures grown { Grown (length self.now.by.now.members.now) list.old list.new }
        ensures covered { CoveredFor self.now.by.now c.0 y.0 (Toward self.now.by.now.masks.now self.now.by.now.pattern.now c.0 y.0) list.new }
    {
        self.own_part(c, y, list);
        self.below_part(c, y, list);
    }

    // The alternatives of node c, where a node above it stands on x.
    fn gather(&self, c: PatternNode, x: SummaryNode, list: &mut Offers)
        requires { FillableFor self.now.by.now self.now.table.now c.0 x.0 }
        ensures { (R : MadeFor self.now.by.now) → x.0 < length R.summary
            → AlternativesFor self.now.by.now c.0 x.0 list.new }
    {
        list.clear();
        for y in Members(self.by.masks.children(x)) {
            self.child_part(c, SummaryNode(y), list);
        }
    }
}

impl<'a> Judges<'a> {
    // Something is to be known of node c where a node above it stands on x: by a descendant edge where it has paths below x, by a child
    // edge where its parent has the path x. Of other cells nothing is asked, so that nothing need be known of them.
    fn matters(&self, c: PatternNode, x: SummaryNode) -> bool
        requires { (0 < c.0) × (c.0 < length self.now.pattern.now) × (x.0 < 64) }
        ensures { result ≡ matters_by self.now.pattern.now (candidates_in self.now.masks.now) c.0 x.0 }
    {
        if self.pattern.edge(c) == 1 {
            return self.masks.descendants(x) & self.masks.part(c) != 0;
        }
        self.masks.part(self.pattern.parent(c)).has(x.0)
    }
}

impl Table {
    // The cell of node c and x is filled, by those of its children and by those of c below x. The list is room, lent so that it is not
    // cleared for every cell.
    fn fill_cell(&mut self, by: &Judges, c: PatternNode, x: SummaryNode, list: &mut Offers)
        requires right { RightFor by.now self.old }
        requires node { (0 < c.0) × (c.0 < length by.now.pattern.now) }
        requires place { ((R : MadeFor by.now) × (x.0 < length R.summary)) × (x.0 < 64) }
        ensures { RightFor by.now self.new }
    {
        if !by.matters(c, x) {
            return;
        }
        let lookup = Lookup { by, table: self };
        lookup.gather(c, x, list);
        self.store(c, x, list.as_slice());
    }

    // The cells of node c, from the last summary node on.
    fn fill_row(&mut self, by: &Judges, c: PatternNode)
        requires right { RightFor by.now self.old }
        requires node { (0 < c.0) × (c.0 < length by.now.pattern.now) }
        requires nodes { (R : MadeFor by.now) × (by.now.nodes ≤ length R.summary) }
        ensures { RightFor by.now self.new }
    {
        let mut list = Offers::new();
        for x in (0..by.nodes).rev() {
            self.fill_cell(by, c, SummaryNode(x), &mut list);
        }
    }

    // The table, from the last node of the first pattern on, so that a cell's children are known before it. It begins with nothing known.
    pub fn fill(&mut self, by: &Judges)
        requires bare { IsBare self.old }
        requires nodes { (R : MadeFor by.now) × (by.now.nodes ≤ length R.summary) }
        ensures { RightFor by.now self.new }
    {
        for c in (1..by.pattern.count()).rev() {
            self.fill_row(by, PatternNode(c));
        }
    }
}
