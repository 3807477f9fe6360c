// The test of fitting: one pass gives each document node its summary node and stops where there is none, then the strong edges are tested
// with masks. Nodes × 64 steps.
#![tactic(auto)]

mod edges;
mod paths;

ghost use Rattle.std.specs.Prelude.{◌≡◌};
ghost use Rattle.model.specs.Fitting.{fits as fits_of};
ghost use Rattle.format.specs.Given.{DocumentKept};

use crate::edges::{all_kept, child_paths};
use crate::paths::paths;
use format::document::Document;
use strong::outline::Outline;

// Each document node's summary node.
type Paths = [u16; 1024];

// A row for each document node: the paths of its children.
type Kids = [u64; 1024];

// The document fits the summary.
pub fn fits(outline: &Outline, w: &Document) -> bool
    requires { DocumentKept w.now }
    ensures { result ≡ fits_of outline.now w.now }
{
    let Some(path) = paths(outline.summary(), w) else {
        return false;
    };
    let kids = child_paths(w, &path);
    all_kept(outline, w, &path, &kids)
}
