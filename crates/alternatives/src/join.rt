// Lists of sets over all members' nodes, joined, and raised along the way up.

ghost use Rattle.std.specs.Prelude.{Bool, ◌⊎◌, ℕ, ◌≤◌, ◌<◌, length};
ghost use Rattle.cover.specs.Cover.{Inside, Covers};
ghost use Rattle.judging.specs.Judging.{nobody};
ghost use Rattle.alternatives.specs.Alternatives.{RowBy, node_of, Raises, Met, Grown};

use crate::judges::Judges;
use cover::lists::Offers;
use cover::offers::{Offer, either};
use format::nodes::SummaryNode;

impl<'a> Judges<'a> {
    // What a node on x that k holds makes of each member's set.
    // Its like `pass_row` asks something of its member's tree that this does not.
    fn node_row(&self, x: SummaryNode, k: usize, a: &Offer) -> Offer
        requires { (x.0 < 64) × (k ≤ nobody) }
        ensures { RowBy (length self.now.members.now) (node_of self.now.members.now x.0 k) a.now result }
    {
        let mut r = [0; 8];
        for (i, t) in self.members.iter().enumerate() {
            r[i] = t.node(x, k, a[i]);
        }
        r
    }

    // The list with what a node on x that k holds makes of each of the sets.
    pub(crate) fn add_raised(&self, x: SummaryNode, k: usize, sets: &[Offer], list: &mut Offers)
        requires { (x.0 < 64) × (k ≤ nobody) }
        ensures grown { Grown (length self.now.members.now) list.old list.new }
        ensures raised { (g f : ℕ → ℕ → Bool) → Raises (length self.now.members.now) (node_of self.now.members.now x.0 k) g f
            → Covers (length self.now.members.now) sets.now g → Covers (length self.now.members.now) list.new f }
    {
        for a in sets {
            list.add(self.node_row(x, k, a));
        }
    }

    // The list with what a node on x that k holds offers at least: nothing is always offered to it.
    pub(crate) fn add_bare(&self, x: SummaryNode, k: usize, list: &mut Offers)
        requires { (x.0 < 64) × (k ≤ nobody) }
        ensures grown { Grown (length self.now.members.now) list.old list.new }
        ensures raised { (g f : ℕ → ℕ → Bool) → Raises (length self.now.members.now) (node_of self.now.members.now x.0 k) g f
            → Covers (length self.now.members.now) list.new f }
    {
        list.add(self.node_row(x, k, &[0; 8]));
    }

    // The list with a. At the root, `top`, a need not be kept where the root of some member meets by it.
    fn keep(&self, top: bool, list: &mut Offers, a: Offer)
        ensures grown { Grown (length self.now.members.now) list.old list.new }
        ensures kept { (f : ℕ → ℕ → Bool) → Inside (length self.now.members.now) a f
            → Covers (length self.now.members.now) list.new f ⊎ Met self.now.members.now top f }
    {
        if top && self.met_by_some(&a) {
            return;
        }
        list.add(a);
    }

    // The list with the unions of a and each of the sets.
    fn join_one(&self, top: bool, list: &mut Offers, sets: &[Offer], a: &Offer)
        ensures grown { Grown (length self.now.members.now) list.old list.new }
        ensures joined { (f : ℕ → ℕ → Bool) → Inside (length self.now.members.now) a.now f
            → Covers (length self.now.members.now) sets.now f
            → Covers (length self.now.members.now) list.new f ⊎ Met self.now.members.now top f }
    {
        for b in sets {
            self.keep(top, list, either(b, a));
        }
    }

    // The unions of each set of the list and each of the others, in the list's place.
    pub(crate) fn join(&self, top: bool, list: &mut Offers, others: &[Offer])
        ensures { (f : ℕ → ℕ → Bool) → Covers (length self.now.members.now) list.old f
            → Covers (length self.now.members.now) others.now f
            → Covers (length self.now.members.now) list.new f ⊎ Met self.now.members.now top f }
    {
        let mut room = [[0; 8]; 64];
        let sets = list.as_slice();
        let n = sets.len();
        room[..n].copy_from_slice(sets);
        list.clear();
        for a in others {
            self.join_one(top, list, &room[..n], a);
        }
    }
}
