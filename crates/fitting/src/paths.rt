// The summary node of each document node: the root's by its label, any other's the child of its parent's with its label.

ghost use Rattle.std.specs.Prelude.{◌≡◌, ◌<◌, length};
ghost use Rattle.model.specs.Fitting.{child_labelled, path_in};
ghost use Rattle.format.specs.Given.{SummaryKept, DocumentKept};
ghost use Rattle.fitting.specs.Steps.{labelled_at, IsNode, OnPaths, PathsFilled};

use crate::Paths;
use format::document::Document;
use format::nodes::{DocumentNode, SummaryNode, summary_of};
use format::summary::Summary;

// Summary node t has parent s and label l.
fn is_labelled(summary: &Summary, t: SummaryNode, s: SummaryNode, l: u16) -> bool
    requires { t.0 < length summary.now }
    ensures { result ≡ labelled_at summary.now s.0 l t.0 }
{
    summary.parent(t).0 == s.0 && summary.label(t) == l
}

// The child of s with label l. A child stands after its parent.
fn child_labelled(summary: &Summary, s: SummaryNode, l: u16) -> Option<SummaryNode>
    requires { SummaryKept summary.now × (s.0 < length summary.now) }
    ensures { IsNode summary.now (child_labelled summary.now s.0 l) result }
{
    for t in s.0 + 1..summary.count() {
        if is_labelled(summary, SummaryNode(t), s, l) {
            return Some(SummaryNode(t));
        }
    }
    None
}

// The summary node of the document's root: the summary's root where the labels are equal.
fn root_path(summary: &Summary, w: &Document) -> Option<SummaryNode>
    requires { SummaryKept summary.now × DocumentKept w.now }
    ensures { IsNode summary.now (path_in summary.now w.now 0) result }
{
    let own = w.label(DocumentNode(0));
    let label = summary.label(SummaryNode(0));
    if own == label {
        return Some(SummaryNode(0));
    }
    None
}

// The summary node of v, after those of the nodes before it.
fn path_of(summary: &Summary, w: &Document, path: &Paths, v: DocumentNode) -> Option<SummaryNode>
    requires kept { SummaryKept summary.now × DocumentKept w.now }
    requires v_in_bounds { v.0 < length w.now }
    requires on_paths { OnPaths summary.now w.now path.now v.0 }
    ensures { IsNode summary.now (path_in summary.now w.now v.0) result }
{
    if v.0 == 0 {
        return root_path(summary, w);
    }
    let s = summary_of(path, w.parent(v));
    child_labelled(summary, s, w.label(v))
}

// The path map, or none where some node has no summary node.
pub fn paths(summary: &Summary, w: &Document) -> Option<Paths>
    requires { SummaryKept summary.now × DocumentKept w.now }
    ensures { PathsFilled summary.now w.now result }
{
    let mut path = [0u16; 1024];
    for v in 0..w.count() {
        path[v] = path_of(summary, w, &path, DocumentNode(v))?.0 as u16;
    }
    Some(path)
}
