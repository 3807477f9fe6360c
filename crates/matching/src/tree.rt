// A tree whose nodes may be of either kind, so their numbers are plain: a document, or a summary read as one.

ghost use Rattle.std.specs.Prelude.{◌≡◌, ◌<◌, length};
ghost use Rattle.model.specs.Tree.{Document, parent_of, label_of, figure_of};
ghost use Rattle.model.specs.Summary.{as_document};

use format::document::Document;
use format::nodes::{DocumentNode, SummaryNode};
use format::summary::Summary;

pub trait Tree {
    // The tree as a document.
    ghost nodes: { Self → Document };

    // How many nodes it has.
    fn count(&self) -> usize
        ensures { (result ≡ length (nodes self.now)) × (result < 65536) };

    // The parent of node v.
    fn parent(&self, v: usize) -> usize
        requires { v < length (nodes self.now) }
        ensures { result ≡ parent_of (nodes self.now) v };

    // Its label.
    fn label(&self, v: usize) -> u16
        requires { v < length (nodes self.now) }
        ensures { result ≡ label_of (nodes self.now) v };

    // Its figure.
    fn figure(&self, v: usize) -> usize
        requires { v < length (nodes self.now) }
        ensures { result ≡ figure_of (nodes self.now) v };
}

impl<'a> Tree for Document<'a> {
    ghost nodes = { λ w. w };

    fn count(&self) -> usize {
        Document::count(self)
    }

    fn parent(&self, v: usize) -> usize {
        Document::parent(self, DocumentNode(v)).0
    }

    fn label(&self, v: usize) -> u16 {
        Document::label(self, DocumentNode(v))
    }

    fn figure(&self, v: usize) -> usize {
        usize::from(Document::figure(self, DocumentNode(v)))
    }
}

impl<'a> Tree for Summary<'a> {
    ghost nodes = { as_document };

    fn count(&self) -> usize {
        Summary::count(self)
    }

    fn parent(&self, v: usize) -> usize {
        Summary::parent(self, SummaryNode(v)).0
    }

    fn label(&self, v: usize) -> u16 {
        Summary::label(self, SummaryNode(v))
    }

    // A summary has none.
    fn figure(&self, _v: usize) -> usize {
        0
    }
}
