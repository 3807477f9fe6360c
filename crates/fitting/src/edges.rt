// The strong edges by masks: a row for each document node, with the paths of its children, and the table of strong children.

ghost use Rattle.std.specs.Prelude.{◌≡◌, ℕ, ◌<◌, length, get_or};
ghost use Rattle.model.specs.Limits.{max_summary, max_document};
ghost use Rattle.model.specs.Lists.{up_from, all_of};
ghost use Rattle.model.specs.Strong.{strong_table};
ghost use Rattle.format.specs.Given.{DocumentKept};
ghost use Rattle.fitting.specs.Steps.{Gathered, strong_kept_in};

use crate::{Kids, Paths};
use bits::Mask;
use format::document::Document;
use format::nodes::{DocumentNode, summary_of};
use strong::outline::Outline;

// Each node but the root puts its path into its parent's row.
pub fn child_paths(w: &Document, path: &Paths) -> Kids
    requires document_kept { DocumentKept w.now }
    requires by_index { (v : ℕ) → v < length w.now → get_or path.now v 0 < max_summary }
    ensures { Gathered w.now path.now result }
{
    let mut kids = [0u64; 1024];
    for v in 1..w.count() {
        let p = w.parent(DocumentNode(v)).0;
        kids[p] = kids[p].insert(summary_of(path, DocumentNode(v)).0);
    }
    kids
}

// Node v has a child on each strong edge from its path.
fn strong_kept(outline: &Outline, path: &Paths, kids: &Kids, v: DocumentNode) -> bool
    requires { (v.0 < max_document) × (get_or path.now v.0 0 < max_summary) }
    ensures { result ≡ strong_kept_in path.now kids.now (strong_table outline.now) v.0 }
{
    let needed = outline.strong_children(summary_of(path, v));
    needed.is_subset(kids[v.0])
}

// Every node has.
pub fn all_kept(outline: &Outline, w: &Document, path: &Paths, kids: &Kids) -> bool
    requires document_kept { DocumentKept w.now }
    requires by_index { (v : ℕ) → v < length w.now → get_or path.now v 0 < max_summary }
    ensures { result ≡ all_of (strong_kept_in path.now kids.now (strong_table outline.now)) (up_from 0 (length w.now)) }
{
    (0..w.count()).all(|v| strong_kept(outline, path, kids, DocumentNode(v)))
}
