// The matching tables, a mask of pattern nodes for each tree node, filled in two passes: from the last node to the first, where the
// part of the pattern from a node down embeds; and from the root down, where a node stands in a whole embedding.

ghost use Rattle.std.specs.Prelude.{◌≡◌, ◌≤◌, ◌<◌, length, get_or, set};
ghost use Rattle.std.specs.Int.Bits.{bit_and};
ghost use Rattle.model.specs.Tree.{IsTree, parent_of};
ghost use Rattle.matching.specs.Tables.{AllZero, HoldsParts, HoldsStands, offer_up, settle_at, left_at, leave_at};

use crate::tree::Tree;
use crate::wanted::Wanted;

// What node v offers goes to its parent.
fn offer_up<T: Tree>(t: &T, v: usize, offer: u16, table: &mut [u16])
    requires { IsTree (T.nodes t.now) × (v < length (T.nodes t.now)) × (v < length table.old) }
    ensures { table.new ≡ offer_up (parent_of (T.nodes t.now) v) v offer table.old }
{
    if v == 0 {
        return;
    }
    let u = t.parent(v);
    table[u] |= offer;
}

// Node v takes the place of what its children, all of them settled, offered it, and offers in turn.
fn settle<T: Tree>(t: &T, v: usize, wanted: &Wanted, table: &mut [u16])
    requires { IsTree (T.nodes t.now) × (v < length (T.nodes t.now)) × (v < length table.old) }
    ensures { table.new
        ≡ settle_at (T.nodes t.now) wanted.now v table.old }
{
    let acc = table[v];
    let fit = wanted.fitting(t.label(v), t.figure(v), v + 1, acc);
    table[v] = fit;
    offer_up(t, v, fit | (wanted.deep & acc), table);
}

// Where the part of the pattern from a node down embeds, each node where its mark and its least figure let it. The table is lent
// cleared.
pub fn parts<T: Tree>(t: &T, wanted: &Wanted, table: &mut [u16])
    requires tree_lent { IsTree (T.nodes t.now) }
    requires t_in_bounds { (length (T.nodes t.now) ≤ length table.old) × AllZero table.old }
    ensures { HoldsParts (T.nodes t.now) wanted.now table.old table.new }
{
    let n = t.count();
    for v in (0..n).rev() {
        settle(t, v, wanted, table);
    }
}

// What is left to node v by the nodes above.
fn left_at<T: Tree>(t: &T, v: usize, left: &[u16]) -> u16
    requires { IsTree (T.nodes t.now) × (v < length (T.nodes t.now)) × (v < length left.now) }
    ensures { result ≡ left_at (parent_of (T.nodes t.now) v) v left.now }
{
    if v == 0 {
        return 1;
    }
    left[t.parent(v)]
}

// Node v keeps what is left to it, may, and leaves to its children what hangs from that, and what hangs deep and was left to it.
fn descend(v: usize, may: u16, wanted: &Wanted, table: &mut [u16], left: &mut [u16])
    requires { (v < length table.old) × (v < length left.old) }
    ensures table_after { table.new ≡ set table.old v (bit_and may (get_or table.old v 0)) }
    ensures left_after { left.new ≡ set left.old v (leave_at wanted.now may (bit_and may (get_or table.old v 0))) }
{
    let here = may & table[v];
    table[v] = here;
    left[v] = wanted.hanging(here) | (wanted.deep & may);
}

// Where a node stands in a whole embedding, each node where its mark and its least figure let it. The table is lent cleared; left takes
// what each node leaves to its children.
pub fn stands<T: Tree>(t: &T, wanted: &Wanted, table: &mut [u16], left: &mut [u16])
    requires tree_lent { IsTree (T.nodes t.now) × AllZero table.old }
    requires t_in_bounds { (length (T.nodes t.now) ≤ length table.old) × (length (T.nodes t.now) ≤ length left.old) }
    ensures { HoldsStands (T.nodes t.now) wanted.now table.old table.new }
{
    parts(t, wanted, table);
    let n = t.count();
    for v in 0..n {
        descend(v, left_at(t, v, left), wanted, table, left);
    }
}
