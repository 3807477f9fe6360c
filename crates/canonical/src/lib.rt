// The layout of a canonical document (document 01: trial volume), phase by phase, and what "not included" shows of it.
#![tactic(auto)]

ghost use Rattle.std.specs.Prelude.{◌≡◌, ℕ, ◌+◌, ◌≤◌, ◌<◌, length, replicate};
ghost use Rattle.model.specs.Limits.{max_position, min_buffer, min_table};
ghost use Rattle.model.specs.Pattern.{node_at};
ghost use Rattle.model.specs.Bytes.{written_at_front};
ghost use Rattle.canonical.specs.Given.{embedding_in, Embedded, WrittenOut};
ghost use Rattle.canonical.specs.Shown.{own_at, shown_document, Showable};

use chains::chains;
use draft::Draft;
use figures::figures;
use fill::fill;
use format::nodes::own_of;
use format::pattern::Pattern;
use format::write::{put_field, write_counted};
use strong::outline::Outline;

mod chains;
mod draft;
mod figures;
mod fill;

// How many nodes are laid out, and the own node of each pattern node, at the front.
#[derive(Clone, Copy)]
pub struct LaidOut {
    pub count: usize,
    pub own: [u16; 16],
}

// The canonical document of the embedding `images` of the pattern into the summary, as a document's section at the front of answer;
// each node's summary node at the front of on. No capacity is tested: there are at most 1,009 nodes.
pub fn lay_out(
    outline: &Outline,
    pattern: &Pattern,
    images: &[u16],
    answer: &mut [u8],
    on: &mut [u16],
) -> LaidOut
    requires embedded { Embedded outline.now pattern.now images.now }
    requires min_buffer_in_bounds { (min_buffer ≤ length answer.old) × (min_table ≤ length on.old) }
    ensures { WrittenOut outline.now pattern.now (embedding_in pattern.now images.now) answer.old answer.new on.old on.new result }
{
    let summary = outline.summary();
    let mut draft = Draft::root(summary, answer, on);
    let own = chains(summary, pattern, images, &mut draft);
    fill(outline, &mut draft);
    let count = draft.count();
    put_field(answer, 0, count as u16);
    figures(pattern, &own, answer);
    LaidOut { count, own }
}

// The own nodes at positions 1 to k, at the front.
fn own_result(pattern: &Pattern, own: &[u16], k: usize) -> [u16; 8]
    requires few { (k ≤ max_position) × (length pattern.now ≤ length own.now) }
    requires by_index { (i : ℕ) → i < k → node_at pattern.now (i + 1) < length pattern.now }
    ensures { result ≡ written_at_front (own_at pattern.now own.now k) (replicate 8 0) }
{
    let mut result = [0u16; 8];
    for i in 0..k {
        if let Some(q) = pattern.node_at(i + 1) {
            result[i] = own_of(own, q).0 as u16;
        }
    }
    result
}

// The canonical document's section and, from the byte after its last record, the result, to the front of the answer buffer. The
// buffer's part from that byte on is lent to the result's writer.
pub fn show(outline: &Outline, pattern: &Pattern, images: &[u16], k: usize, answer: &mut [u8])
    requires showable { Showable outline.now pattern.now images.now k }
    requires room { min_buffer ≤ length answer.old }
    ensures { answer.new ≡ written_at_front (shown_document outline.now pattern.now (embedding_in pattern.now images.now)) answer.old }
{
    let mut on = [0u16; 1024];
    let laid = lay_out(outline, pattern, images, answer, &mut on);
    let result = own_result(pattern, &laid.own, k);
    let end = 2 + 6 * laid.count;
    write_counted(&result, k, &mut answer[end..]);
}
