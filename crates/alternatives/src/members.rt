// The members of a set together: what is settled of each at one node, and whether the root of some of them meets.

ghost use Rattle.std.specs.Prelude.{◌≡◌, [], ℕ, ◌≤◌, ◌<◌, length, get_or};
ghost use Rattle.alternatives.specs.Alternatives.{met_by_some};

use crate::judges::Judges;
use cover::offers::Offer;
use format::nodes::PatternNode;
use judging::judge::Rows;
use judging::member::Member;

// What is settled at node j, of the first n members.
pub fn column(n: usize, rows: &Rows, j: PatternNode) -> Offer
    requires { (n ≤ 8) × (j.0 < 16) }
    ensures { (i : ℕ) → i < n → get_or result i 0 ≡ get_or (get_or rows.now i []) j.0 0 }
{
    let mut r = [0; 8];
    // A `for` over the number: a column across rows is no slice.
    for i in 0..n {
        r[i] = rows[i][j.0];
    }
    r
}

// The root of some member meets at the root by these sets.
pub fn met_by_some(t: &[Member], a: &Offer) -> bool
    requires { length t.now ≤ 8 }
    ensures { result ≡ met_by_some t.now a.now }
{
    t.iter().zip(a).any(|(t, g)| t.root(*g))
}

impl<'a> Judges<'a> {
    // What is settled at node j, of each member.
    pub fn column(&self, rows: &Rows, j: PatternNode) -> Offer
        requires { j.0 < 16 }
        ensures { (i : ℕ) → i < length self.now.members.now
            → get_or result i 0 ≡ get_or (get_or rows.now i []) j.0 0 }
    {
        column(self.members.len(), rows, j)
    }

    // The root of some member meets at the root by these sets.
    pub fn met_by_some(&self, a: &Offer) -> bool
        ensures { result ≡ met_by_some self.now.members.now a.now }
    {
        met_by_some(self.members, a)
    }
}
