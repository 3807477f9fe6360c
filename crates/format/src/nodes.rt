// Node numbers. The nodes of summaries, documents and patterns are numbered independently, and one is never passed off as
// another: each kind of number has a type of its own, and a column of numbers is read by what it maps to what.
// The kinds that a lent table holds have C's layout.

ghost use Rattle.std.specs.Prelude.{◌≡◌, ◌<◌, length, get_or};

// The number of a summary node (document 01: outline node).
#[repr(C)]
#[derive(Clone, Copy)]
pub struct SummaryNode(pub usize);

// The number of a document node (document 01: volume node).
#[repr(C)]
#[derive(Clone, Copy)]
pub struct DocumentNode(pub usize);

// The number of a pattern node (document 01: selection node).
#[derive(Clone, Copy)]
pub struct PatternNode(pub usize);

// Number i of a column.
pub fn number(column: &[u16], i: usize) -> usize
    requires { i < length column.now }
    ensures { result ≡ get_or column.now i 0 }
{
    column[i] as usize
}

// The summary node that a document node is on.
pub fn summary_of(at: &[u16], v: DocumentNode) -> SummaryNode
    requires { v.0 < length at.now }
    ensures { result.0 ≡ get_or at.now v.0 0 }
{
    SummaryNode(number(at, v.0))
}

// The summary node that an embedding takes a pattern node to.
pub fn image_of(images: &[u16], q: PatternNode) -> SummaryNode
    requires { q.0 < length images.now }
    ensures { result.0 ≡ get_or images.now q.0 0 }
{
    SummaryNode(number(images, q.0))
}

// The own node of a pattern node in a canonical document.
pub fn own_of(own: &[u16], q: PatternNode) -> DocumentNode
    requires { q.0 < length own.now }
    ensures { result.0 ≡ get_or own.now q.0 0 }
{
    DocumentNode(number(own, q.0))
}
