// The layout of the call "lay out a trial" by value: the nodes' records, for a table of records that a caller lends.

ghost use Rattle.std.specs.Prelude.{◌≡◌, ℕ, ◌<◌, ◌≤◌, length, map};
ghost use Rattle.model.specs.Limits.{min_table};
ghost use Rattle.model.specs.Summary.{summary_label};
ghost use Rattle.model.specs.Facts.{FewFigures};
ghost use Rattle.model.specs.Bytes.{case_of, list_of};
ghost use Rattle.model.specs.Questions.{layout_refusal, selected};
ghost use Rattle.model.specs.Calls.{laid_records};
ghost use Rattle.canonical.specs.Given.{embedding_in, Embedded};
ghost use Rattle.laying.specs.Records.{node_record, record_of, laid_at, laid_in, blank_nodes, at_front, LaidBy};

use canonical::lay_out;
use format::case::Case;
use format::document::Document;
use format::list::read_list;
use format::nodes::{DocumentNode, SummaryNode, summary_of};
use format::pattern::Pattern;
use questions::refusal::Refusal;
use refusals::ask_layout;
use refusals::numbered::numbered;
use std::marker::Model;
use strong::outline::Outline;

// A record of the lent table: its parent, its summary node (document 01: outline node), its label and its figure.
#[repr(C)]
#[derive(Clone, Copy)]
pub struct NodeRecord {
    pub parent: DocumentNode,
    pub at: SummaryNode,
    pub label: u16,
    pub figure: u16,
}

// What is laid out: the nodes' records, at the front of an array, since memory is fixed.
#[derive(Clone, Copy)]
pub struct Laid {
    count: usize,
    nodes: [NodeRecord; 1024],
}

impl Model for Laid {
    ghost use Rattle.std.specs.Prelude.{List};
    ghost use Rattle.model.specs.Calls.{LaidRecord};

    ghost Value = { List LaidRecord };

    ghost use Rattle.laying.specs.Array.{records_in, IsFilled};
    ghost use Rattle.laying.specs.Back.{inside_of, given_back};

    ghost view = { λ a. records_in a.count a.nodes };

    ghost inverse = { inside_of };

    ghost invariant = { λ a. IsFilled a.count a.nodes };

    ghost inverse_ok = { given_back };
}

impl Laid {
    // The nodes' records.
    pub fn records(&self) -> &[NodeRecord]
        ensures { map record_of result.now ≡ self.now }
    {
        &self.nodes[..self.count]
    }
}

// The record of node i of a document, whose nodes' summary nodes are in on.
fn record_at(w: &Document, on: &[u16], i: usize) -> NodeRecord
    requires { (i < length w.now) × (i < length on.now) }
    ensures { result ≡ node_record (laid_at w.now on.now i) }
{
    let parent = w.parent(DocumentNode(i));
    let at = summary_of(on, DocumentNode(i));
    let label = w.label(DocumentNode(i));
    let figure = w.figure(DocumentNode(i));
    NodeRecord {
        parent,
        at,
        label,
        figure,
    }
}

// Nothing laid out.
fn blank_nodes() -> [NodeRecord; 1024]
    ensures { result ≡ blank_nodes }
{
    let blank = NodeRecord {
        parent: DocumentNode(0),
        at: SummaryNode(0),
        label: 0,
        figure: 0,
    };
    [blank; 1024]
}

// The records of the first nodes, as many as count says.
fn records_of(w: &Document, on: &[u16], count: usize) -> [NodeRecord; 1024]
    requires { (count ≤ length w.now) × (count ≤ length on.now) × (count ≤ min_table) }
    ensures { result ≡ at_front (laid_in w.now on.now count) }
{
    let mut nodes = blank_nodes();
    for i in 0..count {
        nodes[i] = record_at(w, on, i);
    }
    nodes
}

// The layout of an embedding of the pattern into the summary.
fn layout_of(outline: &Outline, pattern: &Pattern, images: &[u16]) -> Laid
    requires embedded { Embedded outline.now pattern.now images.now }
    requires figures { FewFigures pattern.now }
    requires labels { (s : ℕ) → s < length outline.now → summary_label outline.now s < 65536 }
    ensures { result ≡ laid_records outline.now pattern.now (embedding_in pattern.now images.now) }
{
    let mut bytes = [0u8; 8192];
    let mut on = [0u16; 1024];
    let count = lay_out(outline, pattern, images, &mut bytes, &mut on).count;
    let nodes = records_of(&Document::new(&bytes), &on, count);
    Laid { count, nodes }
}

// The layout of an accepted call.
fn accepted_layout(case: &[u8], number: u64, list: &[u8]) -> Laid
    requires { layout_refusal case.now number list.now min_table ≡ 0 }
    ensures { result ≡ laid_records (case_of case.now).summary (selected (case_of case.now) number) (list_of list.now) }
{
    let given = Case::new(case);
    let mut images = [0u16; 16];
    read_list(list, &mut images);
    layout_of(
        &Outline::new(given.summary()),
        &numbered(&given, number),
        &images,
    )
}

// Lay out a canonical document for a lent table of that many records: any bytes and any numbers may be given.
pub fn laid_out(case: &[u8], number: u64, list: &[u8], records: usize) -> Result<Laid, Refusal>
    ensures { LaidBy case.now number list.now records result }
{
    ask_layout(case, number, list, records)?;
    Ok(accepted_layout(case, number, list))
}
