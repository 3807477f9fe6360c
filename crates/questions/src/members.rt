// The questions on all patterns of a case, the first and the set's members in their order: 7, 17 and 8.

ghost use Rattle.std.specs.Prelude.{◌≡◌};
ghost use Rattle.model.specs.Questions.{patterns_kept, figures_kept, positions_kept};

use crate::pattern::{figures_in_range, pattern_kept};
use crate::positions::{Held, positions_to};
use format::case::Case;

// 7. Do all records of all patterns keep the rules for parent and edge, with positions at most 8?
pub fn patterns_kept(case: &Case) -> bool
    ensures { result ≡ patterns_kept case.now }
{
    pattern_kept(&case.first()) && case.set().members().all(|p| pattern_kept(&p))
}

// 17. Is every figure of all patterns at most 2,000?
pub fn figures_kept(case: &Case) -> bool
    ensures { result ≡ figures_kept case.now }
{
    figures_in_range(&case.first()) && case.set().members().all(|p| figures_in_range(&p))
}

// 8. Has each pattern the positions 1 to k once each, k at least 1, the same k in all?
pub fn positions_kept(case: &Case) -> bool
    ensures { result ≡ positions_kept case.now }
{
    let first = case.first();
    let held = Held::by(&first);
    let k = held.count();
    held.each_once() && case.set().members().all(|p| positions_to(&p, k))
}
