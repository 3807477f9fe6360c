// A pattern (document 01: selection), record by record. A parent is a node's number once question 7 has been asked.

ghost use Rattle.std.specs.Prelude.{◌≡◌, ◌<◌, ◌≤◌, length, get_or, MatchOption};
ghost use Rattle.model.specs.Limits.{pattern_width};
ghost use Rattle.model.specs.Pattern.{no_pattern_record, pattern_parent, pattern_label, position, pattern_figure, node_at};
ghost use Rattle.model.specs.Bytes.{WholeSection};
ghost use Rattle.format.specs.Given.{pattern_at};

use crate::field::field;
use crate::limits::PATTERN_WIDTH;
use crate::nodes::PatternNode;
use crate::records::record_field;
use std::marker::Model;

// A pattern where it stands: field `at` of the bytes holds its count, and its records follow, all of them whole.
#[derive(Drop)]
pub struct Pattern<'a> {
    bytes: &'a [u8],
    at: usize,
}

impl<'a> Model for Pattern<'a> {
    ghost use Rattle.model.specs.Limits.{pattern_width};
    ghost use Rattle.model.specs.Pattern.{Pattern};
    ghost use Rattle.model.specs.Bytes.{WholeSection};
    ghost use Rattle.format.specs.Given.{pattern_at};

    ghost Value = { Pattern };

    ghost view = { λ p. pattern_at p.bytes.now p.at };

    ghost invariant = { λ p. WholeSection pattern_width p.bytes.now p.at };
}

impl<'a> Pattern<'a> {
    // The pattern that stands there.
    pub fn new(bytes: &'a [u8], at: usize) -> Pattern<'a>
        requires { WholeSection pattern_width bytes.now at }
        ensures { result ≡ pattern_at bytes.now at }
    {
        Pattern { bytes, at }
    }

    // How many nodes it has.
    pub fn count(&self) -> usize
        ensures { (result ≡ length self.now) × (result < 65536) }
    {
        field(self.bytes, self.at)
    }

    // The parent of node q.
    pub fn parent(&self, q: PatternNode) -> PatternNode
        requires { q.0 < length self.now }
        ensures { result.0 ≡ pattern_parent self.now q.0 }
    {
        PatternNode(record_field(self.bytes, self.at, PATTERN_WIDTH, q.0, 0))
    }

    // Its label, or 0 for any.
    pub fn label(&self, q: PatternNode) -> u16
        requires { q.0 < length self.now }
        ensures { result ≡ pattern_label self.now q.0 }
    {
        record_field(self.bytes, self.at, PATTERN_WIDTH, q.0, 1) as u16
    }

    // Its edge: 0 child, 1 descendant.
    pub fn edge(&self, q: PatternNode) -> usize
        requires { q.0 < length self.now }
        ensures { result ≡ (get_or self.now q.0 no_pattern_record).edge }
    {
        record_field(self.bytes, self.at, PATTERN_WIDTH, q.0, 2)
    }

    // Its position, or 0.
    pub fn position(&self, q: PatternNode) -> usize
        requires { q.0 < length self.now }
        ensures { (result ≡ position self.now q.0) × (result < 65536) }
    {
        record_field(self.bytes, self.at, PATTERN_WIDTH, q.0, 3)
    }

    // The least figure that it accepts.
    pub fn figure(&self, q: PatternNode) -> usize
        requires { q.0 < length self.now }
        ensures { (result ≡ pattern_figure self.now q.0) × (result < 65536) }
    {
        record_field(self.bytes, self.at, PATTERN_WIDTH, q.0, 4)
    }

    // The node that holds a position.
    pub fn node_at(&self, position: usize) -> Option<PatternNode>
        ensures { MatchOption result (node_at self.now position ≡ length self.now)
            (λ q. (q.0 ≡ node_at self.now position) × (q.0 < length self.now)) }
    {
        for q in 0..self.count() {
            if self.position(PatternNode(q)) == position {
                return Some(PatternNode(q));
            }
        }
        None
    }
}
