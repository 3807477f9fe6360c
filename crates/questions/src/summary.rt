// The questions on the summary's records: 5 and 6. Before question 5 a parent may be any number; 6 is asked after it.

ghost use Rattle.std.specs.Prelude.{◌≡◌, true, not, ◌<◌, length};
ghost use Rattle.model.specs.Lists.{up_from, all_of};
ghost use Rattle.model.specs.Questions.{summary_record_kept, summary_kept, alike as are_alike, siblings_differ};

use crate::rules::{flag_rule, parent_rule};
use format::nodes::SummaryNode;
use format::summary::Summary;

// Record i keeps the rules for parent, label and strong.
pub fn summary_record_kept(s: &Summary, i: SummaryNode) -> bool
    requires { i.0 < length s.now }
    ensures { result ≡ summary_record_kept s.now i.0 }
{
    parent_rule(i.0, s.parent(i).0) && s.label(i) != 0 && flag_rule(i.0, s.strong(i))
}

// 5. Do all summary records keep the rules for parent, label and strong?
pub fn summary_kept(s: &Summary) -> bool
    ensures { result ≡ summary_kept s.now }
{
    (0..s.count()).all(|i| summary_record_kept(s, SummaryNode(i)))
}

// Siblings i and j, neither of them the root, have one label. Labels are compared first: few are equal, and many parents are.
pub fn alike(s: &Summary, i: SummaryNode, j: SummaryNode) -> bool
    requires i_in_bounds { (i.0 < length s.now) × (j.0 < length s.now) }
    ensures { result ≡ are_alike s.now i.0 j.0 }
{
    s.label(i) == s.label(j) && s.parent(i).0 == s.parent(j).0 && 0 < i.0
}

// No node before j is its sibling with its label. Siblings stand after their parent, so nodes before it need not be looked at.
pub fn differs_before(s: &Summary, j: SummaryNode) -> bool
    requires kept { summary_kept s.now ≡ true }
    requires j_in_bounds { j.0 < length s.now }
    ensures { result ≡ all_of (λ i. not (are_alike s.now i j.0)) (up_from 0 j.0) }
{
    (s.parent(j).0..j.0).all(|i| !alike(s, SummaryNode(i), j))
}

// 6. Do siblings in the summary have different labels?
pub fn siblings_differ(s: &Summary) -> bool
    requires { summary_kept s.now ≡ true }
    ensures { result ≡ siblings_differ s.now }
{
    (0..s.count()).all(|j| differs_before(s, SummaryNode(j)))
}
