// Question 13: a list of summary nodes is tested, node by node, against what an embedding is. An edge is tested by climbing the
// summary's parents, so a test takes as many steps as the pattern has nodes times the summary's depth.

ghost use Rattle.std.specs.Prelude.{◌≡◌, true, ◌<◌, eqb, length};
ghost use Rattle.model.specs.Lists.{up_from, all_of};
ghost use Rattle.model.specs.Summary.{as_document};
ghost use Rattle.model.specs.Embeddings.{child_test, below_test, edge_test, image_in};
ghost use Rattle.model.specs.Bytes.{list_of};
ghost use Rattle.model.specs.Facts.{CaseFacts};
ghost use Rattle.model.specs.Questions.{pattern_given, is_summary_embedding};
ghost use Rattle.format.specs.Given.{SummaryKept};
ghost use Rattle.refusals.specs.Images.{image_reached, image_kept, ImagesGiven};

use crate::numbered::numbered;
use format::case::Case;
use format::field::field;
use format::labels::label_fits;
use format::nodes::{PatternNode, SummaryNode};
use format::pattern::Pattern;
use format::summary::Summary;

// Summary node v is a child of a.
pub fn is_child(s: &Summary, a: SummaryNode, v: SummaryNode) -> bool
    requires { v.0 < length s.now }
    ensures { result ≡ child_test (as_document s.now) a.0 v.0 }
{
    v.0 != 0 && s.parent(v).0 == a.0
}

// Summary node v is a descendant of a. The summary is a tree, so each parent that is read is a node. The climb is no recursion: that would
// take stack for each step.
pub fn is_below(s: &Summary, a: SummaryNode, v: SummaryNode) -> bool
    requires summary_kept { SummaryKept s.now }
    requires v_in_bounds { v.0 < length s.now }
    ensures { result ≡ below_test (as_document s.now) a.0 v.0 }
{
    let mut x = v;
    while 0 < x.0 {
        x = s.parent(x);
        if x.0 == a.0 {
            return true;
        }
    }
    false
}

// The edge, 0 child or 1 descendant as the record has it, leads from a to v.
pub fn edge_kept(s: &Summary, edge: usize, a: SummaryNode, v: SummaryNode) -> bool
    requires summary_kept { SummaryKept s.now }
    requires v_in_bounds { v.0 < length s.now }
    ensures { result ≡ edge_test (eqb edge 1) (as_document s.now) a.0 v.0 }
{
    if edge == 1 {
        return is_below(s, a, v);
    }
    is_child(s, a, v)
}

// The image of pattern node q, as a list gives it: before it is tested it may be any number.
pub fn image_at(l: &[u8], q: PatternNode) -> SummaryNode
    requires { q.0 < length (list_of l.now) }
    ensures { result.0 ≡ image_in (list_of l.now) q.0 }
{
    SummaryNode(field(l, q.0))
}

// A list of images, one for each node of a pattern: before it is tested each may be any number.
#[derive(Drop)]
pub struct Images<'a> {
    pub summary: Summary<'a>,
    pub pattern: Pattern<'a>,
    pub list: &'a [u8],
    pub ghost given: { ImagesGiven summary pattern (list_of list.now) },
}

impl<'a> Images<'a> {
    // The image of pattern node q, as the list gives it.
    pub fn at(&self, q: PatternNode) -> SummaryNode
        requires { q.0 < length self.now.pattern }
        ensures { result.0 ≡ image_in (list_of self.now.list.now) q.0 }
    {
        image_at(self.list, q)
    }

    // The root's image is the root; any other node's is reached from its parent's image. The pattern is a tree, so the parent has an
    // image in the list.
    pub fn is_reached(&self, q: PatternNode) -> bool
        requires q_in_bounds { q.0 < length self.now.pattern }
        requires image_in_bounds { image_in (list_of self.now.list.now) q.0 < length self.now.summary }
        ensures { result ≡ image_reached self.now.summary self.now.pattern (list_of self.now.list.now) q.0 }
    {
        let v = self.at(q);
        if q.0 == 0 {
            return v.0 == 0;
        }
        let parent = self.pattern.parent(q);
        let edge = self.pattern.edge(q);
        edge_kept(&self.summary, edge, self.at(parent), v)
    }

    // Node q stands well at its image.
    pub fn is_kept(&self, q: PatternNode) -> bool
        requires { q.0 < length self.now.pattern }
        ensures { result ≡ image_kept self.now.summary self.now.pattern (list_of self.now.list.now) q.0 }
    {
        let v = self.at(q);
        v.0 < self.summary.count()
            && label_fits(self.pattern.label(q), self.summary.label(v))
            && self.is_reached(q)
    }

    // Every node does.
    pub fn are_kept(&self) -> bool
        ensures { result ≡ all_of (image_kept self.now.summary self.now.pattern (list_of self.now.list.now)) (up_from 0 (length self.now.pattern)) }
    {
        (0..self.pattern.count()).all(|q| self.is_kept(PatternNode(q)))
    }
}

// 13. Is the list an embedding of that pattern into the summary? The case is one that questions 3 to 8 accept, and 12 the number.
pub fn is_embedding_list(case: &Case, number: u64, l: &[u8]) -> bool
    requires case_facts { CaseFacts case.now }
    requires number_given { pattern_given case.now number ≡ true }
    ensures { result ≡ is_summary_embedding case.now number l.now }
{
    let summary = case.summary();
    let pattern = numbered(case, number);
    if l.len() % 2 != 0 {
        return false;
    }
    if l.len() / 2 != pattern.count() {
        return false;
    }
    let images = Images {
        summary,
        pattern,
        list: l,
    };
    images.are_kept()
}
