// What the passes over a tree want of a pattern, worked out once (`making`). A column for each thing, not a record for each node, and 0 for
// none, not an Option: a loop over the nodes then tests several at a time, with no branch.

ghost use Rattle.std.specs.Prelude.{ℕ, ◌≤◌, ◌<◌, get_or};

#[derive(Clone, Copy)]
pub struct Wanted {
    // The nodes that hang by a descendant edge.
    pub deep: u16,
    // How many nodes there are.
    pub count: usize,
    // The label of each node, or 0 for any.
    pub labels: [u16; 16],
    // Its mark: 0 for none, else one more than the number of the tree node that it is pinned to.
    pub marks: [u16; 16],
    // Its children.
    pub kids: [u16; 16],
    // Its parent.
    pub parents: [u16; 16],
    // Its least figure, or 0 where none is asked.
    pub least: [u16; 16],
    // There are few enough nodes for the columns, and each has one of few enough for its parent.
    ghost few: { count ≤ 16 },
    ghost low: { (q : ℕ) → q < count → get_or parents q 0 < 16 },
}
