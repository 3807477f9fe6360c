// The draft of a canonical document: its section in wire form, with every figure 0, of each node the summary node that it is on, and
// the mask of the summary nodes that its children are on. The first row, and a row more.

ghost use Rattle.std.specs.Prelude.{◌≡◌, [], ◌∷◌, ◌+◌, ◌<◌, ◌≤◌, length, get_or, replicate};
ghost use Rattle.model.specs.Lists.{has};
ghost use Rattle.model.specs.Limits.{min_buffer, min_table, max_canonical};
ghost use Rattle.model.specs.Canonical.{root_spot};
ghost use Rattle.format.specs.Given.{SummaryKept};
ghost use Rattle.canonical.specs.Draft.{tables_of, tables, SameTables, Roomy, Drafted, appended};

use bits::Mask;
use format::limits::DOCUMENT_WIDTH;
use format::nodes::{DocumentNode, SummaryNode, summary_of};
use format::summary::Summary;
use format::write::put_field;

// Lent tables that are filled from the front, and how many nodes stand there.
#[derive(Drop)]
pub struct Draft<'a> {
    bytes: &'a mut [u8],
    on: &'a mut [u16],
    kids: [u64; 1024],
    count: usize,
}

impl<'a> Draft<'a> {
    // Node 0 is the root, on summary node 0. The section's count is not known yet: 0 stands for it.
    pub fn root(summary: &Summary, bytes: &'a mut [u8], on: &'a mut [u16]) -> Draft<'a>
        requires { SummaryKept summary.now × (min_buffer ≤ length bytes.old) × (min_table ≤ length on.old) }
        ensures same_tables { (result.bytes.ghost_name ≡ bytes.entry.ghost_name) × (result.on.ghost_name ≡ on.entry.ghost_name) }
        ensures drafted { Drafted summary.now (root_spot ∷ [])
            (tables_of bytes.old on.old (replicate min_table 0)) (tables result) result.count }
    {
        put_field(bytes, 0, 0);
        put_field(bytes, 1, 0);
        put_field(bytes, 2, summary.label(SummaryNode(0)));
        put_field(bytes, 3, 0);
        on[0] = 0;
        Draft {
            bytes,
            on,
            kids: [0; 1024],
            count: 1,
        }
    }

    // A node more hangs from v, on summary node s, whose label it has.
    pub fn append(&mut self, summary: &Summary, v: DocumentNode, s: SummaryNode)
        requires summary_kept { SummaryKept summary.now × Roomy (tables self.old) }
        requires v_lt_count { (v.0 < self.old.count) × (s.0 < length summary.now) × (self.old.count < max_canonical) }
        ensures same_tables { SameTables self.old self.new }
        ensures counted { self.new.count ≡ self.old.count + 1 }
        ensures row { tables self.new
            ≡ appended summary.now (tables self.old) self.old.count v.0 s.0 }
    {
        let count = self.count;
        put_field(self.bytes, 1 + DOCUMENT_WIDTH * count, v.0 as u16);
        put_field(self.bytes, 2 + DOCUMENT_WIDTH * count, summary.label(s));
        put_field(self.bytes, 3 + DOCUMENT_WIDTH * count, 0);
        self.on[count] = s.0 as u16;
        self.kids[v.0] = self.kids[v.0].insert(s.0);
        self.kids[count] = 0;
        self.count += 1;
    }

    // How many nodes there are.
    pub fn count(&self) -> usize
        ensures { result ≡ self.now.count }
    {
        self.count
    }

    // The summary node that v is on.
    pub fn summary_of(&self, v: DocumentNode) -> SummaryNode
        requires { v.0 < length (tables self.now).on }
        ensures { result.0 ≡ get_or (tables self.now).on v.0 0 }
    {
        summary_of(self.on, v)
    }

    // v has a child on summary node s.
    pub fn has_child(&self, v: DocumentNode, s: SummaryNode) -> bool
        requires { (v.0 < length (tables self.now).kids) × (s.0 < 64) }
        ensures { result ≡ has (get_or (tables self.now).kids v.0 0) s.0 }
    {
        self.kids[v.0].has(s.0)
    }
}
