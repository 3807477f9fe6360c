// A tree of a case, a summary or a pattern. Each is read as a pattern: a summary's edges are strong or plain, and its nodes have no
// position and no figure.

ghost use Rattle.std.specs.Prelude.{◌≡◌, ℕ, ◌+◌, ◌*◌, ◌≤◌, ◌<◌, List, length, get_or, refl};
ghost use Rattle.std.proofs.lemmas.List.Edits.{sets};
ghost use Rattle.model.specs.Limits.{summary_width, pattern_width};
ghost use Rattle.model.specs.Pattern.{PatternRecord, Pattern as Table, no_pattern_record, pattern_parent};
ghost use Rattle.model.specs.Bytes.{bytes_of, pattern_fields};
ghost use Rattle.model.specs.Normal.{as_pattern};
ghost use Rattle.normalising.specs.Trees.{outline_fields, entry_with, record_with};

use crate::entry::Entry;
use format::limits::{PATTERN_WIDTH, SUMMARY_WIDTH};
use format::nodes::{PatternNode, SummaryNode};
use format::pattern::Pattern;
use format::summary::Summary;
use format::write::put_field;

pub trait Tree {
    // The pattern that it is read as; the fields of a record as it is written, and how many.
    ghost table: { Self → Table };

    ghost fields: { PatternRecord → List ℕ };

    ghost width: { ℕ };

    // How many nodes it has.
    fn count(&self) -> usize
        ensures { (result ≡ length (table self.now)) × (result < 65536) };

    // The parent of node i.
    fn parent(&self, i: usize) -> usize
        requires { i < length (table self.now) }
        ensures { result ≡ pattern_parent (table self.now) i };

    // What is written of node i, at that depth.
    fn entry(&self, i: usize, depth: u16) -> Entry
        requires { (i < length (table self.now)) × (depth < 256) × ((get_or (table self.now) i no_pattern_record).edge < 65536)
            × ((get_or (table self.now) i no_pattern_record).position < 256) }
        ensures { result ≡ entry_with depth (get_or (table self.now) i no_pattern_record) };

    // How many fields a record has.
    fn width(&self) -> usize
        ensures { (result ≡ width) × (result < 65536) };

    // A parent and what is written of a node become the record that begins at field `at` of out.
    fn put(&self, parent: u16, entry: Entry, out: &mut [u8], at: usize)
        requires { 2 * (at + width) ≤ length out.old }
        ensures { out.new ≡ sets out.old (2 * at) (bytes_of (fields (record_with parent entry))) };

    ghost even: { (r : PatternRecord) → length (fields r) ≡ width };
}

impl<'a> Tree for Summary<'a> {
    ghost table = { as_pattern };

    ghost fields = { outline_fields };

    ghost width = { summary_width };

    ghost even = { λ r. refl };

    fn count(&self) -> usize {
        self.count()
    }

    fn parent(&self, i: usize) -> usize {
        self.parent(SummaryNode(i)).0
    }

    fn entry(&self, i: usize, depth: u16) -> Entry {
        let s = SummaryNode(i);
        Entry::new(depth, self.label(s), self.strong(s) as u16, 0, 0)
    }

    fn width(&self) -> usize {
        SUMMARY_WIDTH
    }

    fn put(&self, parent: u16, entry: Entry, out: &mut [u8], at: usize) {
        put_field(out, at, parent);
        put_field(out, at + 1, entry.label());
        put_field(out, at + 2, entry.edge());
    }
}

impl<'a> Tree for Pattern<'a> {
    ghost table = { λ P. P };

    ghost fields = { pattern_fields };

    ghost width = { pattern_width };

    ghost even = { λ r. refl };

    fn count(&self) -> usize {
        self.count()
    }

    fn parent(&self, i: usize) -> usize {
        self.parent(PatternNode(i)).0
    }

    fn entry(&self, i: usize, depth: u16) -> Entry {
        let q = PatternNode(i);
        Entry::new(
            depth,
            self.label(q),
            self.edge(q) as u16,
            self.position(q) as u16,
            self.figure(q) as u16,
        )
    }

    fn width(&self) -> usize {
        PATTERN_WIDTH
    }

    fn put(&self, parent: u16, entry: Entry, out: &mut [u8], at: usize) {
        put_field(out, at, parent);
        put_field(out, at + 1, entry.label());
        put_field(out, at + 2, entry.edge());
        put_field(out, at + 3, entry.position());
        put_field(out, at + 4, entry.figure());
    }
}
