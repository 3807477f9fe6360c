// Filling up: document nodes are visited in number order, appended ones too, and each gets the children that strong edges ask for.
// Which those are is read in the lent table alone.

ghost use Rattle.std.specs.Prelude.{List, ℕ, ◌<◌, length};
ghost use Rattle.model.specs.Canonical.{Spot, add_missing, fill_node, fill_from};
ghost use Rattle.format.specs.Given.{SummaryKept};
ghost use Rattle.canonical.specs.Draft.{Tables, Drafted, tables, SameTables};
ghost use Rattle.canonical.specs.Given.{Missing, Visitable, Fillable};

use crate::draft::Draft;
use bits::Members;
use format::nodes::{DocumentNode, SummaryNode};
use format::summary::Summary;
use strong::outline::Outline;

// One child of v on t is appended, if v has none.
fn add_missing(summary: &Summary, v: DocumentNode, t: SummaryNode, draft: &mut Draft)
    requires summary_kept { SummaryKept summary.now × (t.0 < length summary.now) }
    requires missing { (spots : List Spot) × (base : Tables) × Missing summary.now spots base (tables draft.old) v.0 t.0 draft.old.count }
    ensures same_tables { SameTables draft.old draft.new }
    ensures added { (spots : List Spot) (base : Tables)
        → Drafted summary.now spots base (tables draft.old) draft.old.count
        → Drafted summary.now (add_missing spots v.0 t.0) base (tables draft.new) draft.new.count }
{
    if !draft.has_child(v, t) {
        draft.append(summary, v, t);
    }
}

// The visit of v: for each strong child of its summary node, in order, one child is appended if v has none.
fn fill_node(outline: &Outline, v: DocumentNode, draft: &mut Draft)
    requires { (spots : List Spot) × (base : Tables) × Visitable outline.now spots base (tables draft.old) v.0 draft.old.count }
    ensures same_tables { SameTables draft.old draft.new }
    ensures visited { (spots : List Spot) (base : Tables)
        → Drafted outline.now spots base (tables draft.old) draft.old.count
        → Drafted outline.now (fill_node outline.now spots v.0) base (tables draft.new) draft.new.count }
{
    let summary = outline.summary();
    for t in Members(outline.strong_children(draft.summary_of(v))) {
        add_missing(summary, v, SummaryNode(t), draft);
    }
}

// Every node is visited, until there is no further.
pub fn fill(outline: &Outline, draft: &mut Draft)
    requires { (spots : List Spot) × (base : Tables) × (k : ℕ)
        × Fillable outline.now spots base (tables draft.old) draft.old.count k }
    ensures same_tables { SameTables draft.old draft.new }
    ensures filled { (spots : List Spot) (base : Tables) (k : ℕ)
        → Fillable outline.now spots base (tables draft.old) draft.old.count k
        → Drafted outline.now (fill_from k outline.now spots 0) base (tables draft.new) draft.new.count }
{
    // An index, not a range: each visit may append nodes, which are visited too.
    let mut v = 0;
    while v < draft.count() {
        fill_node(outline, DocumentNode(v), draft);
        v += 1;
    }
}
