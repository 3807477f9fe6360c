// Whether every completion of a partial embedding passes, by what is left open: each node of the first pattern has a list of sets over all
// members' nodes, one of which hangs from it in each completion. They begin with what is settled; nodes have their turn from the last on,
// and each whose part is not settled passes on to its parent's list, by its chain where it is placed, by the table where it is not.

ghost use Rattle.std.specs.Prelude.{◌≡◌, true, [], ℕ, ◌≤◌, ◌<◌, length, get_or};
ghost use Rattle.judging.specs.Blocks.{candidates_in};
ghost use Rattle.judging.specs.Skipping.{PlacedBy};
ghost use Rattle.alternatives.specs.Alternatives.{RowBy, pass_of, LeftOpen, AllCovered};
ghost use Rattle.alternatives.specs.Entries.{Entry};
ghost use Rattle.alternatives.specs.Members.{RowsSettled};
ghost use Rattle.alternatives.specs.Open.{Begun, ListBy, RaisedOf, Turned};
ghost use Rattle.alternatives.specs.Judged.{MadeFor, RightFor};

use crate::fill::Lookup;
use crate::partial::Partial;
use crate::table::Table;
use cover::lists::Offers;
use cover::offers::Offer;
use format::nodes::{PatternNode, SummaryNode, image_of};
use judging::judge::Rows;
use std::array;

impl<'a> Partial<'a> {
    // Each node's list begins with what is settled.
    // A `for` over the number: node j has its list and its column.
    fn begin(&self, rows: &Rows, lists: &mut [Offers])
        requires { length lists.old ≡ 16 }
        ensures { Begun (length self.now.by.now.members.now) (length self.now.by.now.pattern.now) rows.now lists.new }
    {
        for j in 0..self.by.pattern.count() {
            let list = &mut lists[j];
            list.start(self.by.column(rows, PatternNode(j)));
        }
    }

    // What node c passes on of each member's set.
    fn pass_row(&self, c: PatternNode, a: &Offer) -> Offer
        requires { (0 < c.0) × (c.0 < length self.now.by.now.pattern.now) }
        ensures { RowBy (length self.now.by.now.members.now)
            (pass_of self.now.by.now.members.now self.now.by.now.pattern.now self.now.images.now c.0) a.now result }
    {
        let mut r = [0; 8];
        for (i, t) in self.by.members.iter().enumerate() {
            r[i] = t.pass(self.by.pattern, self.images, c, a[i]);
        }
        r
    }

    // What node c passes on of each set of its list.
    fn pass_list(&self, c: PatternNode, sets: &[Offer], made: &mut [Offer])
        requires { (0 < c.0) × (c.0 < length self.now.by.now.pattern.now) × (length sets.now ≤ length made.old) }
        ensures { ListBy (length self.now.by.now.members.now)
            (pass_of self.now.by.now.members.now self.now.by.now.pattern.now self.now.images.now c.0) sets.now made.new }
    {
        for (i, a) in sets.iter().enumerate() {
            made[i] = self.pass_row(c, a);
        }
    }

    // The turn of node c, which is placed: each set of its list, passed on, is joined into the list of its parent j.
    fn join_placed(&self, c: PatternNode, j: PatternNode, lists: &mut [Offers])
        requires { (0 < c.0) × (c.0 < length self.now.by.now.pattern.now) × (j.0 < c.0) × (length lists.old ≡ 16) }
        ensures { Turned self.now.by.now.members.now j.0
            (RaisedOf (length self.now.by.now.members.now)
            (pass_of self.now.by.now.members.now self.now.by.now.pattern.now self.now.images.now c.0)
            (get_or lists.old c.0 [])) lists.old lists.new }
    {
        let mut made = [[0; 8]; 64];
        let sets = lists[c.0].as_slice();
        let n = sets.len();
        self.pass_list(c, sets, &mut made);
        self.by.join(j.0 == 0, &mut lists[j.0], &made[..n]);
    }

    // The turn of node c. Nothing is joined where its part is settled, since the lists begin with that, or where its parent is not placed,
    // since the table's sets of the first node above it whose parent is placed have what it offers.
    fn turn(&self, table: &Table, c: PatternNode, lists: &mut [Offers])
        requires made { MadeFor self.now.by.now }
        requires right { RightFor self.now.by.now table.now }
        requires node { (0 < c.0) × (c.0 < length self.now.by.now.pattern.now) × (length lists.old ≡ 16) }
        requires before { LeftOpen self.now.by.now.members.now self.now.by.now.masks.now self.now.by.now.pattern.now self.now.next.0
            self.now.images.now lists.old }
        ensures { LeftOpen self.now.by.now.members.now self.now.by.now.masks.now self.now.by.now.pattern.now self.now.next.0
            self.now.images.now lists.new }
    {
        if self.by.masks.last(c).0 < self.next.0 {
            return;
        }
        let j = self.by.pattern.parent(c);
        if c.0 < self.next.0 {
            self.join_placed(c, j, lists);
            return;
        }
        if self.next.0 <= j.0 {
            return;
        }
        let lookup = Lookup { by: self.by, table };
        lookup.join_entry(j.0 == 0, c, image_of(self.images, j), &mut lists[j.0]);
    }

    // Every completion passes. A `false` says nothing.
    pub fn passes(&self, table: &Table, rows: &Rows) -> bool
        requires made { MadeFor self.now.by.now }
        requires right { RightFor self.now.by.now table.now }
        requires placed_by { PlacedBy self.now.by.now.pattern.now (candidates_in self.now.by.now.masks.now) self.now.next.0 self.now.images.now }
        requires rows_settled { RowsSettled self.now.by.now.members.now self.now.by.now.masks.now self.now.by.now.pattern.now
            self.now.next.0 self.now.images.now rows.now }
        ensures { result ≡ true → AllCovered self.now.by.now.members.now self.now.by.now.masks.now self.now.by.now.pattern.now
            self.now.next.0 self.now.images.now }
    {
        let mut lists: [Offers; 16] = array::from_fn(|_| Offers::new());
        self.begin(rows, &mut lists);
        for c in (1..self.by.pattern.count()).rev() {
            self.turn(table, PatternNode(c), &mut lists);
            if lists[0].as_slice().is_empty() {
                return true;
            }
        }
        false
    }
}
