// The quick test of an embedding by masks, of one member of the set. Sets of the member's nodes are 16-bit masks.

ghost use Rattle.std.specs.Prelude.{◌≡◌, ◌≤◌, ◌<◌, length};
ghost use Rattle.model.specs.Tree.{Rooted};
ghost use Rattle.judging.specs.Blocks.{up_in, last_in, sets_in};
ghost use Rattle.judging.specs.Judging.{nobody, full_by, meets_by, offers_by, node_by, hang_by, pass_by, root_by};
ghost use Rattle.judging.specs.Room.{Judgeable};
ghost use Rattle.judging.specs.Settling.{folded_row};

use crate::masks::Masks;
use crate::member::{Member, NOBODY};
use bits::Mask;
use format::nodes::{PatternNode, SummaryNode, image_of};
use format::pattern::Pattern;

// By node of the first pattern, what the complete parts that hang from it offer.
pub type Row = [u16; 16];

// By member of the set, its row.
pub type Rows = [Row; 8];

impl Member {
    // The pattern nodes all of whose children are in acc.
    fn full(&self, acc: u16) -> u16
        ensures { result ≡ full_by (sets_in self.now) acc }
    {
        self.low(acc % 256) & self.high(acc / 256)
    }

    // The pattern nodes that meet at summary node x, where n holds and acc is offered.
    fn met(&self, x: SummaryNode, n: usize, acc: u16) -> u16
        requires { (x.0 < 64) × (n ≤ nobody) }
        ensures { result ≡ meets_by (sets_in self.now) x.0 n acc }
    {
        self.fitting(x) & self.allowed(n) & self.full(acc)
    }

    // What is offered to the node above x.
    pub fn offered(&self, x: SummaryNode, n: usize, acc: u16) -> u16
        requires { (x.0 < 64) × (n ≤ nobody) }
        ensures { result ≡ offers_by (sets_in self.now) x.0 n acc }
    {
        self.met(x, n, acc) | (self.deep() & acc)
    }

    // What a node on x that n holds, its filled-up children and what hangs from it, g, offer.
    pub fn node(&self, x: SummaryNode, n: usize, g: u16) -> u16
        requires { (x.0 < 64) × (n ≤ nobody) }
        ensures { result ≡ node_by (sets_in self.now) x.0 n g }
    {
        self.offered(x, n, self.closed(x) | g)
    }

    // What the chain from below a down to b offers, where n holds b, nobody the nodes above it, and g hangs from b.
    fn hang(&self, a: SummaryNode, b: SummaryNode, n: usize, g: u16) -> u16
        requires { (Rooted 64 (up_in self.now)) × (b.0 < 64) × (n ≤ nobody) }
        ensures { result ≡ hang_by (sets_in self.now) a.0 b.0 n g }
    {
        let mut h = self.node(b, n, g);
        let mut x = self.up(b);
        // A climb from parent to parent: no index is counted.
        while a.0 < x.0 {
            h = self.node(x, NOBODY, h);
            x = self.up(x);
        }
        h
    }

    // What node c of the first pattern passes on to its parent, where e hangs from it.
    pub fn pass(&self, p: &Pattern, images: &[u16], c: PatternNode, e: u16) -> u16
        requires judgeable { Judgeable self.now p.now images.now }
        requires c_nonzero { (0 < c.0) × (c.0 < length p.now) }
        ensures { result ≡ pass_by (sets_in self.now) p.now images.now c.0 e }
    {
        let a = image_of(images, p.parent(c));
        self.hang(a, image_of(images, c), c.0, e)
    }

    // The row with what the parts that end with node q offer, which is placed.
    pub fn settle(&self, m: &Masks, p: &Pattern, images: &[u16], q: PatternNode, row: Row) -> Row
        requires { Judgeable self.now p.now images.now }
        ensures { result ≡ folded_row (sets_in self.now) p.now (last_in m.now) q.0 images.now row }
    {
        let mut hangs = row;
        for c in (1..p.count()).rev() {
            let node = PatternNode(c);
            if m.last(node).0 == q.0 {
                let set = self.pass(p, images, node, hangs[c]);
                hangs[p.parent(node).0] |= set;
            }
        }
        hangs
    }

    // The member's root meets at the root, which the first pattern's root holds, where g hangs from it.
    pub fn root(&self, g: u16) -> bool
        ensures { result ≡ root_by (sets_in self.now) g }
    {
        let top = SummaryNode(0);
        self.met(top, 0, self.closed(top) | g).has(0)
    }
}
