// A tree's list from its nodes' rows: each goes into its parent's, from the last node to the first, so that all below a node stands in
// its row when its turn comes.

ghost use Rattle.std.specs.Prelude.{◌≡◌, [], ◌≤◌, length, get_or};
ghost use Rattle.model.specs.Normal.{by_subtree, listed};
ghost use Rattle.normalising.specs.Trees.{TreeGiven, Loaded};

use crate::row::Row;
use crate::tree::Tree;

// Each node's row becomes its entry alone: a depth is one more than the parent's, whose row stands already.
pub fn load<T: Tree>(tree: &T, rows: &mut [Row])
    requires { TreeGiven (T.table tree.now) × (length (T.table tree.now) ≤ length rows.old) }
    ensures { Loaded (T.table tree.now) rows.new (length (T.table tree.now)) }
{
    rows[0].start(tree.entry(0, 0));
    for i in 1..tree.count() {
        let above = rows[tree.parent(i)].entries()[0];
        rows[i].start(tree.entry(i, above.depth() + 1));
    }
}

// Row 0 becomes the whole tree's.
pub fn gather<T: Tree>(tree: &T, rows: &mut [Row])
    requires { TreeGiven (T.table tree.now) × Loaded (T.table tree.now) rows.old (length (T.table tree.now)) }
    ensures { get_or rows.new 0 [] ≡ listed by_subtree (T.table tree.now) }
{
    for k in (1..tree.count()).rev() {
        let (front, back) = rows.split_at_mut(k);
        front[tree.parent(k)].insert(&back[0]);
    }
}
