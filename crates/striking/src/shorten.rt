// The leaves that may go of a pattern, and the bytes of what is left of it without one of them.

ghost use Rattle.std.specs.Prelude.{◌≡◌, ◌+◌, ◌*◌, ◌≤◌, ◌<◌, length, get_or, replicate};
ghost use Rattle.std.proofs.lemmas.List.Edits.{sets};
ghost use Rattle.model.specs.Pattern.{no_pattern_record};
ghost use Rattle.model.specs.Bytes.{bytes_of, pattern_fields, encode_pattern};
ghost use Rattle.model.specs.Striking.{lowered as lowered_of, raised as raised_of, relinked, without, childless as childless_in, may_go};
ghost use Rattle.format.specs.Given.{pattern_at, PatternGiven};

use format::limits::PATTERN_WIDTH;
use format::nodes::PatternNode;
use format::pattern::Pattern;
use format::write::{copy_fields, put_field};

// The bytes of a pattern that stands alone: a count and up to 16 records.
pub type Section = [u8; 162];

// No node has node q as its parent.
fn childless(p: &Pattern, q: usize) -> bool
    ensures { result ≡ childless_in p.now q }
{
    (0..p.count()).all(|i| p.parent(PatternNode(i)).0 != q)
}

// Node q is a leaf without a position, and not the root.
pub fn may_go(p: &Pattern, q: usize) -> bool
    requires { q < length p.now }
    ensures { result ≡ may_go p.now q }
{
    0 < q && p.position(PatternNode(q)) == 0 && childless(p, q)
}

// The number that node i has when node q is gone.
fn lowered(q: usize, i: usize) -> usize
    ensures { result ≡ lowered_of q i }
{
    if q < i { i - 1 } else { i }
}

// The number that what is now node i had while node q was there.
pub fn raised(q: usize, i: usize) -> usize
    requires { i < 65536 }
    ensures { result ≡ raised_of q i }
{
    if i < q { i } else { i + 1 }
}

// Record j, its parent renumbered for want of node q, becomes the fields of out from field `at` on.
fn put_record(p: &[u8], j: usize, q: usize, out: &mut [u8], at: usize)
    requires { PatternGiven p.now 0 × (j < length (pattern_at p.now 0)) × (2 * (at + 5) ≤ length out.old) }
    ensures { out.new
        ≡ sets out.old (2 * at) (bytes_of (pattern_fields (relinked q (get_or (pattern_at p.now 0) j no_pattern_record)))) }
{
    let parent = lowered(q, Pattern::new(p, 0).parent(PatternNode(j)).0);
    put_field(out, at, parent as u16);
    copy_fields(p, 1 + PATTERN_WIDTH * j + 1, PATTERN_WIDTH - 1, out, at + 1);
}

// The section without node q, by itself.
pub fn shortened(p: &[u8], q: usize) -> Section
    requires { PatternGiven p.now 0 × (q < length (pattern_at p.now 0)) }
    ensures { result ≡ sets (replicate 162 0) 0 (encode_pattern (without (pattern_at p.now 0) q)) }
{
    let mut next = [0u8; 162];
    let left = Pattern::new(p, 0).count() - 1;
    put_field(&mut next, 0, left as u16);
    for i in 0..left {
        put_record(p, raised(q, i), q, &mut next, 1 + PATTERN_WIDTH * i);
    }
    next
}
