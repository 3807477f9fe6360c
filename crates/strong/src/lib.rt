// The strong children of every summary node, gathered once a case. Whatever asks for strong children is lent this table and reads
// them there alone.
#![tactic(auto)]

ghost use Rattle.std.specs.Prelude.{◌≡◌, ◌<◌, get_or};
ghost use Rattle.model.specs.Strong.{strong_table};
ghost use Rattle.format.specs.Given.{SummaryKept};

pub mod outline;

use bits::Mask;
use format::nodes::SummaryNode;
use format::summary::Summary;

// By summary node, the mask of its strong children: in ascending order they are in outline order.
pub type Strong = [u64; 64];

// Each summary node to which a strong edge leads puts itself into its parent's mask.
pub fn strong_table(summary: &Summary) -> Strong
    requires { SummaryKept summary.now }
    ensures { result ≡ strong_table summary.now }
{
    let mut strong = [0u64; 64];
    let n = summary.count();
    for t in 1..n {
        let s = summary.parent(SummaryNode(t)).0;
        let is = summary.strong(SummaryNode(t)) == 1;
        strong[s] = strong[s].insert_if(t, is);
    }
    strong
}

// The strong children of summary node s.
pub fn strong_of(strong: &Strong, s: SummaryNode) -> u64
    requires { s.0 < 64 }
    ensures { result ≡ get_or strong.now s.0 0 }
{
    let i = s.0;
    strong[i]
}
