// A document (document 01: volume), record by record. A parent is a node's number once question 10 has been asked.

ghost use Rattle.std.specs.Prelude.{◌≡◌, ◌<◌, length};
ghost use Rattle.model.specs.Limits.{document_width};
ghost use Rattle.model.specs.Tree.{parent_of, label_of, figure_of};
ghost use Rattle.model.specs.Bytes.{document_of, WholeSection};

use crate::field::field;
use crate::limits::DOCUMENT_WIDTH;
use crate::nodes::DocumentNode;
use crate::records::record_field;
use std::marker::Model;

// The document that stands at the front of the bytes, all its records whole.
#[derive(Drop)]
pub struct Document<'a> {
    bytes: &'a [u8],
}

impl<'a> Model for Document<'a> {
    ghost use Rattle.model.specs.Limits.{document_width};
    ghost use Rattle.model.specs.Tree.{Document};
    ghost use Rattle.model.specs.Bytes.{document_of, WholeSection};

    ghost Value = { Document };

    ghost view = { λ w. document_of w.bytes.now };

    ghost invariant = { λ w. WholeSection document_width w.bytes.now 0 };
}

impl<'a> Document<'a> {
    // The document that stands there.
    pub fn new(bytes: &'a [u8]) -> Document<'a>
        requires { WholeSection document_width bytes.now 0 }
        ensures { result ≡ document_of bytes.now }
    {
        Document { bytes }
    }

    // How many nodes it has.
    pub fn count(&self) -> usize
        ensures { (result ≡ length self.now) × (result < 65536) }
    {
        field(self.bytes, 0)
    }

    // The parent of node v.
    pub fn parent(&self, v: DocumentNode) -> DocumentNode
        requires { v.0 < length self.now }
        ensures { result.0 ≡ parent_of self.now v.0 }
    {
        DocumentNode(record_field(self.bytes, 0, DOCUMENT_WIDTH, v.0, 0))
    }

    // Its label.
    pub fn label(&self, v: DocumentNode) -> u16
        requires { v.0 < length self.now }
        ensures { result ≡ label_of self.now v.0 }
    {
        record_field(self.bytes, 0, DOCUMENT_WIDTH, v.0, 1) as u16
    }

    // Its figure.
    pub fn figure(&self, v: DocumentNode) -> u16
        requires { v.0 < length self.now }
        ensures { result ≡ figure_of self.now v.0 }
    {
        record_field(self.bytes, 0, DOCUMENT_WIDTH, v.0, 2) as u16
    }
}
