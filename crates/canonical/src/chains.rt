// The chains: for each further pattern node in table order, new document nodes from its parent's own node down to its image.

ghost use Rattle.std.specs.Prelude.{◌≡◌, [], ◌∷◌, replicate};
ghost use Rattle.model.specs.Lists.{members};
ghost use Rattle.model.specs.Tree.{AtOrBelow};
ghost use Rattle.model.specs.Summary.{as_document};
ghost use Rattle.model.specs.Bytes.{written_at_front};
ghost use Rattle.model.specs.Canonical.{root_spot, chain, chains as chains_of};
ghost use Rattle.format.specs.Given.{SummaryKept};
ghost use Rattle.canonical.specs.Draft.{Tables, Roomy, Drafted, tables, SameTables};
ghost use Rattle.canonical.specs.Given.{embedding_in, Embedded, Hanging, Hung};

use crate::draft::Draft;
use bits::{Mask, Members};
use format::nodes::{DocumentNode, PatternNode, SummaryNode, image_of, own_of};
use format::pattern::Pattern;
use format::summary::Summary;

// What a chain hangs from: a document node and the summary node that it is on.
#[derive(Clone, Copy)]
struct Hook {
    node: DocumentNode,
    on: SummaryNode,
}

// The summary nodes from below a down to b, as a mask: a parent has a smaller number than its child, so in ascending order they are
// top first.
fn climb(summary: &Summary, a: SummaryNode, b: SummaryNode) -> u64
    requires { SummaryKept summary.now × AtOrBelow (as_document summary.now) a.0 b.0 }
    ensures { members result ≡ chain summary.now a.0 b.0 }
{
    // No range: it climbs from parent to parent.
    let mut x = b;
    let mut nodes = 0u64;
    while x.0 != a.0 {
        nodes = nodes.insert(x.0);
        x = summary.parent(x);
    }
    nodes
}

// The summary nodes from below the hook's down to b, top first, each as a new node: the first hangs from the hook's node, each next
// from the one before.
fn append_chain(summary: &Summary, from: Hook, b: SummaryNode, draft: &mut Draft)
    requires summary_kept { SummaryKept summary.now × Roomy (tables draft.old) }
    requires hanging { Hanging summary.now from.on.0 b.0 from.node.0 draft.old.count }
    ensures same_tables { SameTables draft.old draft.new }
    ensures hung { Hung summary.now from.on.0 b.0 from.node.0 draft.old.count (tables draft.old) (tables draft.new) draft.new.count }
{
    let mut v = from.node;
    for x in Members(climb(summary, from.on, b)) {
        let next = DocumentNode(draft.count());
        draft.append(summary, v, SummaryNode(x));
        v = next;
    }
}

// To the root, the chain of each further pattern node: own nodes by pattern node.
pub fn chains(summary: &Summary, pattern: &Pattern, images: &[u16], draft: &mut Draft) -> [u16; 16]
    requires embedded { Embedded summary.now pattern.now images.now }
    requires by_index { (base : Tables) × Drafted summary.now (root_spot ∷ []) base (tables draft.old) draft.old.count }
    ensures same_tables { SameTables draft.old draft.new }
    ensures nodes { (base : Tables) → Drafted summary.now (root_spot ∷ []) base (tables draft.old) draft.old.count
        → Drafted summary.now (chains_of summary.now pattern.now (embedding_in pattern.now images.now)).spots base
        (tables draft.new) draft.new.count }
    ensures own { result ≡ written_at_front (chains_of summary.now pattern.now (embedding_in pattern.now images.now)).own
        (replicate 16 0) }
{
    let mut own = [0u16; 16];
    for q in 1..pattern.count() {
        let p = pattern.parent(PatternNode(q));
        let from = Hook {
            node: own_of(&own, p),
            on: image_of(images, p),
        };
        append_chain(summary, from, image_of(images, PatternNode(q)), draft);
        own[q] = (draft.count() - 1) as u16;
    }
    own
}
