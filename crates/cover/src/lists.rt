// Lists of at most 64 sets.

ghost use Rattle.std.specs.Prelude.{◌≡◌, Bool, true, ◌⊎◌, ℕ, ◌≤◌, ◌<◌, [], ◌∷◌, ◌++◌, length};
ghost use Rattle.cover.specs.Cover.{Inside, Covers, without_set};

use crate::offers::{Offer, common, inside, shared};
use std::marker::Model;

// How many sets a list may have.
const ROOM: usize = 64;

// As many sets.
pub type List = [Offer; 64];

// The first `count` are its sets; what stands after them says nothing, so that a list is emptied at no cost.
#[derive(Drop)]
pub struct Offers {
    sets: List,
    count: usize,
}

// Clauses see the sets.
impl Model for Offers {
    ghost use Rattle.std.specs.Prelude.{ℕ, List, ◌≤◌, take};

    ghost Value = { List (List ℕ) };

    ghost view = { λ l. take l.count l.sets };

    ghost invariant = { λ l. l.count ≤ 64 };
}

impl Offers {
    // No sets.
    pub fn new() -> Self
        ensures { result ≡ [] }
    {
        Offers {
            sets: [[0; 8]; 64],
            count: 0,
        }
    }

    pub fn as_slice(&self) -> &[Offer]
        ensures value { result.now ≡ self.now }
        ensures few { length self.now ≤ 64 }
    {
        &self.sets[..self.count]
    }

    pub fn clear(&mut self)
        ensures { self.new ≡ [] }
    {
        self.count = 0;
    }

    // One set alone.
    pub fn start(&mut self, a: Offer)
        ensures { self.new ≡ a ∷ [] }
    {
        self.sets[0] = a;
        self.count = 1;
    }

    // With a at the end.
    fn push(&mut self, a: Offer)
        requires { length self.old < 64 }
        ensures { self.new ≡ self.old ++ a ∷ [] }
    {
        self.sets[self.count] = a;
        self.count += 1;
    }

    // Without set k, in whose place the last set goes.
    fn swap_remove(&mut self, k: usize)
        requires { k < length self.old }
        ensures { self.new ≡ without_set self.old k }
    {
        self.count -= 1;
        self.sets[k] = self.sets[self.count];
    }

    // Some set of the list is inside a.
    fn some_inside(&self, a: &Offer) -> bool
        ensures { result ≡ true → (n : ℕ) (f : ℕ → ℕ → Bool) → Inside n a.now f → Covers n self.now f }
    {
        self.as_slice().iter().any(|b| inside(b, a))
    }

    // The sets that a is inside of are left out.
    fn drop_over(&mut self, a: &Offer)
        ensures few { length self.new ≤ length self.old }
        ensures kept { (n : ℕ) (f : ℕ → ℕ → Bool) → Covers n self.old f → Covers n self.new f ⊎ Inside n a.now f }
    {
        // An index, not an iterator: where a set is left out, another takes its place and has its turn there.
        let mut k = 0;
        while k < self.count {
            if inside(a, &self.sets[k]) {
                self.swap_remove(k);
            } else {
                k += 1;
            }
        }
    }

    // The set that has most in common with a.
    fn nearest(&self, a: &Offer) -> usize
        requires { 0 < length self.now }
        ensures { result < length self.now }
    {
        let mut best = 0;
        let mut most = 0;
        for (k, b) in self.as_slice().iter().enumerate() {
            let n = shared(b, a);
            if most < n {
                most = n;
                best = k;
            }
        }
        best
    }

    // With what a has in common with the set nearest to it in that set's place, without the sets that this is inside of.
    fn merge(&mut self, a: &Offer)
        requires { 0 < length self.old }
        ensures { (n : ℕ) (f : ℕ → ℕ → Bool) → Covers n self.old f ⊎ Inside n a.now f → Covers n self.new f }
    {
        let k = self.nearest(a);
        let b = common(&self.sets[k], a);
        self.swap_remove(k);
        self.drop_over(&b);
        self.push(b);
    }

    // With a, or with something inside a.
    pub fn add(&mut self, a: Offer)
        ensures { (n : ℕ) (f : ℕ → ℕ → Bool) → Covers n self.old f ⊎ Inside n a f → Covers n self.new f }
    {
        if self.some_inside(&a) {
            return;
        }
        self.drop_over(&a);
        if self.count < ROOM {
            self.push(a);
        } else {
            self.merge(&a);
        }
    }
}
