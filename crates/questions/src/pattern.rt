// What is asked of one pattern: its part of 4, 7 and 17; and its k. Before question 7 a parent may be any number.

ghost use Rattle.std.specs.Prelude.{◌≡◌, ◌<◌, length};
ghost use Rattle.model.specs.Pattern.{arity as arity_of};
ghost use Rattle.model.specs.Questions.{count_in_range, pattern_record_kept, pattern_kept, pattern_figures};

use crate::rules::{between, figure_in_range, flag_rule, parent_rule};
use format::limits::{MAX_PATTERN, MAX_POSITION};
use format::nodes::PatternNode;
use format::pattern::Pattern;

// The pattern has 1 to 16 nodes.
pub fn count_in_range(p: &Pattern) -> bool
    ensures { result ≡ count_in_range p.now }
{
    between(1, MAX_PATTERN, p.count() as u64)
}

// Record q keeps the rules for parent and edge, with a position of at most 8.
pub fn pattern_record_kept(p: &Pattern, q: PatternNode) -> bool
    requires { q.0 < length p.now }
    ensures { result ≡ pattern_record_kept p.now q.0 }
{
    parent_rule(q.0, p.parent(q).0) && flag_rule(q.0, p.edge(q)) && p.position(q) <= MAX_POSITION
}

// 7 of the pattern: every record does.
pub fn pattern_kept(p: &Pattern) -> bool
    ensures { result ≡ pattern_kept p.now }
{
    (0..p.count()).all(|q| pattern_record_kept(p, PatternNode(q)))
}

// 17 of the pattern: every figure is at most 2,000.
pub fn figures_in_range(p: &Pattern) -> bool
    ensures { result ≡ pattern_figures p.now }
{
    (0..p.count()).all(|q| figure_in_range(p.figure(PatternNode(q))))
}

// k, the number of nodes that hold a position.
pub fn arity(p: &Pattern) -> usize
    ensures { (result ≡ arity_of p.now) × (result < 65536) }
{
    (0..p.count())
        .filter(|q| 0 < p.position(PatternNode(*q)))
        .count()
}
