// A tree as it is written.

ghost use Rattle.std.specs.Prelude.{◌≡◌, ◌+◌, ◌*◌, ◌≤◌, length};
ghost use mathlib.Core.List.{flat_map};
ghost use Rattle.std.proofs.lemmas.List.Edits.{sets};
ghost use Rattle.model.specs.Bytes.{bytes_of};
ghost use Rattle.model.specs.Normal.{table_of};
ghost use Rattle.normalising.specs.Trees.{TreeGiven, Shallow, normal_fields};

use crate::entry::Entry;
use crate::gather::{gather, load};
use crate::row::{ROW, Row};
use crate::tree::Tree;
use format::write::put_field;

// The records of the tree that a list in preorder stands for, from field `at` on: by depth, the last entry before is kept.
fn write_records<T: Tree>(tree: &T, list: &[Entry], out: &mut [u8], at: usize)
    requires { Shallow list.now × (2 * (at + T.width * length list.now) ≤ length out.old) }
    ensures { out.new ≡ sets out.old (2 * at) (bytes_of (flat_map T.fields (table_of list.now))) }
{
    let mut last = [0u16; ROW];
    for k in 0..list.len() {
        let entry = list[k];
        let depth = usize::from(entry.depth());
        let above = depth.saturating_sub(1);
        tree.put(last[above], entry, out, at + tree.width() * k);
        last[depth] = k as u16;
    }
}

// Its section, from field `at` of out on. The result is the field after it. The rows are lent: what stood in them does not matter.
pub fn write_tree<T: Tree>(tree: &T, rows: &mut [Row], out: &mut [u8], at: usize) -> usize
    requires given { TreeGiven (T.table tree.now) × (length (T.table tree.now) ≤ length rows.old) }
    requires room { 2 * (at + length (normal_fields T.fields (T.table tree.now))) ≤ length out.old }
    ensures end { result ≡ at + length (normal_fields T.fields (T.table tree.now)) }
    ensures buffer { out.new ≡ sets out.old (2 * at) (bytes_of (normal_fields T.fields (T.table tree.now))) }
{
    load(tree, rows);
    gather(tree, rows);
    let list = rows[0].entries();
    put_field(out, at, list.len() as u16);
    write_records(tree, list, out, at + 1);
    at + 1 + tree.width() * list.len()
}
