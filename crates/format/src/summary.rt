// The summary of a case (document 01: outline), record by record. A parent is a node's number once question 5 has been asked.

ghost use Rattle.std.specs.Prelude.{◌≡◌, ◌<◌, length, get_or};
ghost use Rattle.model.specs.Limits.{summary_width};
ghost use Rattle.model.specs.Summary.{no_summary_record, summary_parent, summary_label};
ghost use Rattle.model.specs.Bytes.{WholeSection};
ghost use Rattle.format.specs.Given.{summary_in};

use crate::field::field;
use crate::limits::SUMMARY_WIDTH;
use crate::nodes::SummaryNode;
use crate::records::record_field;
use std::marker::Model;

// The summary that stands at the front of a case's bytes, all its records whole.
#[derive(Drop)]
pub struct Summary<'a> {
    bytes: &'a [u8],
}

impl<'a> Model for Summary<'a> {
    ghost use Rattle.model.specs.Limits.{summary_width};
    ghost use Rattle.model.specs.Summary.{Summary};
    ghost use Rattle.model.specs.Bytes.{WholeSection};
    ghost use Rattle.format.specs.Given.{summary_in};

    ghost Value = { Summary };

    ghost view = { λ s. summary_in s.bytes.now };

    ghost invariant = { λ s. WholeSection summary_width s.bytes.now 0 };
}

impl<'a> Summary<'a> {
    // The summary that stands there.
    pub fn new(bytes: &'a [u8]) -> Summary<'a>
        requires { WholeSection summary_width bytes.now 0 }
        ensures { result ≡ summary_in bytes.now }
    {
        Summary { bytes }
    }

    // How many nodes it has.
    pub fn count(&self) -> usize
        ensures { (result ≡ length self.now) × (result < 65536) }
    {
        field(self.bytes, 0)
    }

    // The parent of node s.
    pub fn parent(&self, s: SummaryNode) -> SummaryNode
        requires { s.0 < length self.now }
        ensures { result.0 ≡ summary_parent self.now s.0 }
    {
        SummaryNode(record_field(self.bytes, 0, SUMMARY_WIDTH, s.0, 0))
    }

    // Its label.
    pub fn label(&self, s: SummaryNode) -> u16
        requires { s.0 < length self.now }
        ensures { result ≡ summary_label self.now s.0 }
    {
        record_field(self.bytes, 0, SUMMARY_WIDTH, s.0, 1) as u16
    }

    // Whether the edge to it is strong, 1, or plain, 0.
    pub fn strong(&self, s: SummaryNode) -> usize
        requires { s.0 < length self.now }
        ensures { result ≡ (get_or self.now s.0 no_summary_record).strong }
    {
        record_field(self.bytes, 0, SUMMARY_WIDTH, s.0, 2)
    }
}
