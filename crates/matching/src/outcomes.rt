// What is read off the matching tables: whether a list is a result, the nodes at a position in any result, and the paths of each
// pattern node. A document has up to 1,024 nodes, a summary up to 64.

ghost use Rattle.std.specs.Prelude.{◌≡◌, map, ◌≤◌, ◌<◌, length, get_or};
ghost use Rattle.std.specs.Int.Count.{ones};
ghost use Rattle.model.specs.Lists.{up_from, keep, mask_below};
ghost use Rattle.model.specs.Pattern.{arity};
ghost use Rattle.model.specs.Embeddings.{is_result, nodes_at, path_mask};
ghost use Rattle.model.specs.Facts.{PatternFacts, ListFacts};
ghost use Rattle.model.specs.Bytes.{list_of};
ghost use Rattle.format.specs.Given.{SummaryKept, PatternKept, DocumentKept};
ghost use Rattle.matching.specs.Outcomes.{in_mask, Written};

use crate::tables::{parts, stands};
use crate::wanted::Wanted;
use bits::{Mask, count64, select};
use format::document::Document;
use format::nodes::PatternNode;
use format::pattern::Pattern;
use format::summary::Summary;

// Pattern node q is in the mask of tree node v.
fn in_mask(table: &[u16], v: usize, q: PatternNode) -> bool
    requires { (v < length table.now) × (q.0 < 16) }
    ensures { result ≡ in_mask table.now q.0 v }
{
    table[v].has(q.0)
}

// The tree nodes, of n, whose mask has q, ascending, go to the front of out. The result is their number.
fn nodes_with(table: &[u16], n: usize, q: PatternNode, out: &mut [u16]) -> usize
    requires { (n ≤ length table.now) × (n ≤ length out.old) × (n ≤ 65536) × (q.0 < 16) }
    ensures { Written (keep (in_mask table.now q.0) (up_from 0 n)) out.old out.new result }
{
    let mut count: usize = 0;
    for v in 0..n {
        if in_mask(table, v, q) {
            out[count] = v as u16;
            count += 1;
        }
    }
    count
}

// The tree nodes, of n, whose mask has q, as a mask.
fn stand_mask(table: &[u16], n: usize, q: PatternNode) -> u64
    requires { (n ≤ 64) × (n ≤ length table.now) × (q.0 < 16) }
    ensures { result ≡ mask_below (in_mask table.now q.0) n }
{
    select(n, |v| in_mask(table, v, q))
}

// A list of k node numbers is a result of the pattern in the document.
pub fn is_result(pattern: &Pattern, w: &Document, list: &[u8]) -> bool
    requires pattern_kept { PatternKept pattern.now × PatternFacts pattern.now × DocumentKept w.now }
    requires list_facts { ListFacts (arity pattern.now) (length w.now) list.now }
    ensures { result ≡ is_result pattern.now w.now (list_of list.now) }
{
    let mut wanted = Wanted::new(pattern);
    wanted.pin(pattern, list);
    wanted.ask_figures(pattern);
    let mut table = [0u16; 1024];
    parts(w, &wanted, &mut table);
    table[0].has(0)
}

// The nodes at a position in any result, ascending, go to the front of out. The result is their number.
pub fn nodes_at(pattern: &Pattern, w: &Document, position: usize, out: &mut [u16]) -> usize
    requires pattern_kept { PatternKept pattern.now × PatternFacts pattern.now × DocumentKept w.now }
    requires le_position { (1 ≤ position) × (position ≤ arity pattern.now) × (length w.now ≤ length out.old) }
    ensures { Written (nodes_at pattern.now w.now position) out.old out.new result }
{
    let mut wanted = Wanted::new(pattern);
    wanted.ask_figures(pattern);
    let mut table = [0u16; 1024];
    let mut left = [0u16; 1024];
    stands(w, &wanted, &mut table, &mut left);
    // Each position up to the arity has its node.
    let Some(q) = pattern.node_at(position) else {
        return 0;
    };
    nodes_with(&table, w.count(), q, out)
}

// The paths of each node of the pattern in the summary, as masks. No figure is asked.
pub fn path_masks(summary: &Summary, pattern: &Pattern) -> [u64; 16]
    requires { SummaryKept summary.now × PatternKept pattern.now }
    ensures { result ≡ map (path_mask summary.now pattern.now) (up_from 0 16) }
{
    let wanted = Wanted::new(pattern);
    let mut table = [0u16; 64];
    let mut left = [0u16; 64];
    stands(summary, &wanted, &mut table, &mut left);
    let n = summary.count();
    let m = pattern.count();
    let mut r = [0u64; 16];
    for q in 0..m {
        r[q] = stand_mask(&table, n, PatternNode(q));
    }
    r
}

// How many paths each of sixteen masks holds.
pub fn path_counts(masks: &[u64; 16]) -> [u64; 16]
    ensures { result ≡ map (λ q. ones (get_or masks.now q 0)) (up_from 0 16) }
{
    masks.map(|m| count64(m) as u64)
}
