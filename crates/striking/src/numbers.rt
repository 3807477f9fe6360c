// Numbers of nodes, at most 16, in some order: a list in fixed memory.

ghost use Rattle.std.specs.Prelude.{◌≡◌, ◌<◌, ◌≤◌, [], ◌∷◌, ◌++◌, map, length, get_or, slice_index, replicate};
ghost use Rattle.model.specs.Lists.{up_from};
ghost use Rattle.model.specs.Bytes.{written_at_front};
ghost use Rattle.model.specs.Striking.{raised as raised_of, removed};

use crate::shorten::raised;
use std::marker::Model;

#[derive(Drop)]
pub struct Numbers {
    items: [u16; 16],
    count: usize,
}

impl Model for Numbers {
    ghost use Rattle.std.specs.Prelude.{ℕ, ◌≤◌, List, take};

    ghost Value = { List ℕ };

    ghost view = { λ s. take s.count s.items };

    ghost invariant = { λ s. s.count ≤ 16 };
}

// The items when the one at place q is gone; past the last there is 0. A new array, not `copy_within`, which may have the archive for C
// need memmove from outside.
fn without(items: &[u16; 16], q: usize) -> [u16; 16]
    ensures { result ≡ written_at_front (map (λ i. get_or items.now (raised_of q i) 0) (up_from 0 15)) (replicate 16 0) }
{
    let mut left = [0u16; 16];
    for i in 0..15 {
        left[i] = items[raised(q, i)];
    }
    left
}

impl Numbers {
    // None.
    pub fn none() -> Numbers
        ensures { result ≡ [] }
    {
        Numbers {
            items: [0; 16],
            count: 0,
        }
    }

    // 0 to n - 1.
    pub fn first(n: usize) -> Numbers
        requires { n ≤ 16 }
        ensures { result ≡ up_from 0 n }
    {
        Numbers {
            items: [0, 1, 2, 3, 4, 5, 6, 7, 8, 9, 10, 11, 12, 13, 14, 15],
            count: n,
        }
    }

    pub fn as_slice(&self) -> &[u16]
        ensures slice { result.now ≡ self.now }
        ensures few { length self.now ≤ 16 }
    {
        &self.items[..self.count]
    }

    // One more, at the end.
    pub fn push(&mut self, number: u16)
        requires { length self.old < 16 }
        ensures { self.new ≡ self.old ++ number ∷ [] }
    {
        self.items[self.count] = number;
        self.count += 1;
    }

    // Number q goes, and those after it move up.
    pub fn remove(&mut self, q: usize) -> u16
        requires { q < length self.old }
        ensures number { result ≡ slice_index self.old q }
        ensures left { self.new ≡ removed q self.old }
    {
        let end = self.count;
        let number = self.items[q];
        self.items = without(&self.items, q);
        self.count = end - 1;
        number
    }
}
