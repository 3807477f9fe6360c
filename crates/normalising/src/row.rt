// The list of a subtree's entries, at most as many as a tree may have nodes.

ghost use Rattle.std.specs.Prelude.{◌≡◌, ◌+◌, ◌-◌, ◌≤◌, ◌<◌, [], ◌∷◌, length, get_or};
ghost use Rattle.model.specs.Normal.{no_entry, by_subtree};
ghost use Rattle.model.specs.Gathering.{place_in, opens as opens_in, joined};
ghost use Rattle.normalising.specs.Trees.{put_at};

use crate::entry::Entry;
use std::marker::Model;

// As many entries.
pub const ROW: usize = 64;

#[derive(Drop)]
pub struct Row {
    entries: [Entry; ROW],
    len: usize,
}

impl Model for Row {
    ghost use Rattle.std.specs.Prelude.{List, take, ◌≤◌};
    ghost use Rattle.model.specs.Normal.{Entry};

    ghost Value = { List Entry };

    ghost view = { λ r. take r.len r.entries };

    ghost invariant = { λ r. r.len ≤ 64 };
}

// Row a does not come after row b: they are compared at the first difference, and a prefix comes first.
fn not_after(a: &[Entry], b: &[Entry]) -> bool
    ensures { result ≡ by_subtree a.now b.now }
{
    for i in 0..a.len() {
        if b.len() <= i {
            return false;
        }
        let x = a[i].key();
        let y = b[i].key();
        if x != y {
            return x < y;
        }
    }
    true
}

// The rest of a list goes on with a subtree as deep as the row's root, which the row does not come after.
fn opens(row: &[Entry], rest: &[Entry]) -> bool
    requires { (0 < length row.now) × (0 < length rest.now) }
    ensures { result ≡ opens_in row.now rest.now }
{
    let (next, root) = (rest[0], row[0]);
    next.depth() == root.depth() && not_after(row, rest)
}

// The first place of a list where a row can stand, or the end.
fn place(row: &[Entry], into: &[Entry]) -> usize
    requires { 0 < length row.now }
    ensures { (result ≡ place_in row.now into.now) × (result ≤ length into.now) }
{
    for m in 0..into.len() {
        if opens(row, &into[m..]) {
            return m;
        }
    }
    into.len()
}

// The entry that stands at place i, not before `at`, when the row goes in there.
fn entry_after(row: &[Entry], entries: &[Entry], at: usize, i: usize) -> Entry
    requires { (at ≤ i) × (i < length entries.now) }
    ensures own { i < at + length row.now → result ≡ get_or row.now (i - at) no_entry }
    ensures behind { at + length row.now ≤ i → result ≡ get_or entries.now (i - length row.now) no_entry }
{
    if i < at + row.len() {
        row[i - at]
    } else {
        entries[i - row.len()]
    }
}

// A row goes in at place `at` of a list of so many entries, the last entry first: what stood from there on goes up behind it. Entry by
// entry, not by `copy_from_slice` and `rotate_right`, which would have the archive for C need memmove from outside.
fn put_in(row: &[Entry], entries: &mut [Entry], at: usize, len: usize)
    requires { (at ≤ len) × (len + length row.now ≤ length entries.old) }
    ensures { entries.new ≡ put_at row.now entries.old at len }
{
    for i in (at..len + row.len()).rev() {
        entries[i] = entry_after(row, entries, at, i);
    }
}

impl Row {
    pub fn new() -> Row
        ensures { result ≡ [] }
    {
        let none = Entry::new(0, 0, 0, 0, 0);
        Row {
            entries: [none; ROW],
            len: 0,
        }
    }

    pub fn entries(&self) -> &[Entry]
        ensures { result.now ≡ self.now }
    {
        &self.entries[..self.len]
    }

    // It becomes an entry alone.
    pub fn start(&mut self, entry: Entry)
        ensures { self.new ≡ entry ∷ [] }
    {
        self.entries[0] = entry;
        self.len = 1;
    }

    // A complete subtree's row goes in at its place.
    pub fn insert(&mut self, row: &Row)
        requires { (0 < length row.now) × (length self.old + length row.now ≤ 64) }
        ensures { self.new ≡ joined row.now self.old }
    {
        let row = row.entries();
        let (len, end) = (self.len, self.len + row.len());
        let at = place(row, self.entries());
        let entries = &mut self.entries[..];
        put_in(row, entries, at, len);
        self.len = end;
    }
}
