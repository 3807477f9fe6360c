// The question on a list of document nodes: 11.

ghost use Rattle.std.specs.Prelude.{◌≡◌, true, length};
ghost use Rattle.model.specs.Pattern.{arity as arity_of};
ghost use Rattle.model.specs.Questions.{list_in_range, pattern_given, selected};

use crate::numbered::numbered;
use format::case::Case;
use format::document::Document;
use format::field::field;
use questions::pattern::arity;

// 11. Is the list k fields, each below n, the document's count?
pub fn list_in_range(k: usize, n: usize, r: &[u8]) -> bool
    ensures { result ≡ list_in_range k n r.now }
{
    r.len() % 2 == 0 && r.len() / 2 == k && (0..k).all(|i| field(r, i) < n)
}

// 11, with k of the pattern that a number gives.
pub fn result_in_range(case: &Case, number: u64, w: &Document, r: &[u8]) -> bool
    requires { pattern_given case.now number ≡ true }
    ensures { result ≡ list_in_range (arity_of (selected case.now number)) (length w.now) r.now }
{
    list_in_range(arity(&numbered(case, number)), w.count(), r)
}
