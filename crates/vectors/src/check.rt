// The test of a laid-out document by two other calls: it fits the summary, and the pattern's own nodes at positions 1 to k are a
// result in it. The layout call does not return own nodes; they are read off its table.

ghost use Rattle.std.specs.Prelude.{◌+◌, ◌*◌, ◌<◌, ◌≤◌, length};

use crate::read::Vector;
use crate::table::Record;
use calls::fits::fits_call;
use calls::result::result_call;
use format::field::field;
use format::write::{put_field, write_counted};

// Field i, or 0 where the bytes end before it.
fn field_or_0(b: &[u8], i: usize) -> usize
    ensures { result < 65536 }
{
    if i < b.len() / 2 { field(b, i) } else { 0 }
}

// The field that holds the count of the section after the one whose count is field `at`.
fn passed(case: &[u8], at: usize) -> usize
    requires { at < 4000000 }
    ensures { result ≤ at + 327676 }
{
    at + 1 + 5 * field_or_0(case, at)
}

// The field that holds the count of the pattern that a number gives: the first, or one of eight members.
fn pattern_at(case: &[u8], number: u64) -> usize
    ensures { result < 4000000 }
{
    let first = 1 + 3 * field_or_0(case, 0);
    if number == 1 {
        return first;
    }
    let mut at = 1 + passed(case, first);
    for _ in 2..number.min(9) {
        at = passed(case, at);
    }
    at
}

// The first document node after v that is on summary node s; the table's length where there is none.
fn next_on(table: &[Record], v: usize, s: usize) -> usize {
    for (i, record) in table.iter().enumerate() {
        if v < i && usize::from(record.at) == s {
            return i;
        }
    }
    table.len()
}

// The pattern's own nodes at positions 1 to k, in the front of an array, and k.
#[derive(Clone, Copy)]
struct Own {
    nodes: [u16; 8],
    count: usize,
}

// Chains stand in table order, and of the nodes of a chain the last alone is on its pattern node's image.
fn own_nodes(v: &Vector, table: &[Record]) -> Own {
    let start = pattern_at(v.case, v.head.number);
    let mut own = Own {
        nodes: [0; 8],
        count: 0,
    };
    let mut node = 0;
    for q in 0..field_or_0(v.case, start) {
        if 0 < q {
            node = next_on(table, node, field_or_0(v.list, q));
        }
        let position = field_or_0(v.case, start + 5 * q + 4);
        if (1..=8).contains(&position) {
            own.nodes[position - 1] = (node % 65536) as u16;
        }
        own.count = own.count.max(position);
    }
    own
}

// The section of the nodes goes to the front of document.
fn write_nodes(nodes: &[Record], document: &mut [u8])
    requires { (length nodes.now ≤ 1024) × (2 + 6 * length nodes.now ≤ length document.old) }
{
    put_field(document, 0, nodes.len() as u16);
    for (i, node) in nodes.iter().enumerate() {
        put_field(document, 1 + 3 * i, node.parent);
        put_field(document, 2 + 3 * i, node.label);
        put_field(document, 3 + 3 * i, node.figure);
    }
}

// Both calls hold of a document and a list.
fn both_hold(v: &Vector, document: &[u8], list: &[u8]) -> bool {
    matches!(fits_call(v.case, document), Ok(true))
        && matches!(result_call(v.case, v.head.number, document, list), Ok(true))
}

// A layout call kept what it says: of the document in the first n records of the table, and of its own nodes, both calls hold.
pub fn layout_kept(v: &Vector, table: &[Record], n: usize) -> bool {
    let own = own_nodes(v, table);
    if 1024 < n || table.len() < n || 8 < own.count {
        return false;
    }
    let mut document = [0u8; 6146];
    write_nodes(&table[..n], &mut document);
    let mut list = [0u8; 18];
    write_counted(&own.nodes, own.count, &mut list);
    both_hold(v, &document[..2 + 6 * n], &list[2..2 + 2 * own.count])
}
