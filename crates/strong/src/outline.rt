// A summary and the strong children of its nodes, which were gathered from it.

ghost use Rattle.std.specs.Prelude.{◌≡◌, ◌<◌, get_or};
ghost use Rattle.model.specs.Strong.{strong_table};
ghost use Rattle.format.specs.Given.{SummaryKept};

use crate::{Strong, strong_of, strong_table};
use format::nodes::SummaryNode;
use format::summary::Summary;
use std::marker::Model;

#[derive(Drop)]
pub struct Outline<'a> {
    summary: Summary<'a>,
    strong: Strong,
}

impl<'a> Model for Outline<'a> {
    ghost use Rattle.std.specs.Prelude.{◌≡◌};
    ghost use Rattle.model.specs.Summary.{Summary};
    ghost use Rattle.model.specs.Strong.{strong_table};
    ghost use Rattle.format.specs.Given.{SummaryKept};

    ghost Value = { Summary };

    ghost view = { λ o. o.summary };

    ghost invariant = { λ o. SummaryKept o.summary × (o.strong ≡ strong_table o.summary) };
}

impl<'a> Outline<'a> {
    // The summary with its strong children, gathered here.
    pub fn new(summary: Summary<'a>) -> Outline<'a>
        requires { SummaryKept summary }
        ensures { result ≡ summary.entry }
    {
        let strong = strong_table(&summary);
        Outline { summary, strong }
    }

    // The summary alone.
    pub fn summary(&self) -> &Summary<'a>
        ensures { (result.now ≡ self.now) × SummaryKept self.now }
    {
        &self.summary
    }

    // The strong children of summary node s.
    pub fn strong_children(&self, s: SummaryNode) -> u64
        requires { s.0 < 64 }
        ensures { result ≡ get_or (strong_table self.now) s.0 0 }
    {
        strong_of(&self.strong, s)
    }
}
