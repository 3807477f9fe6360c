// The question on the number that gives a pattern, and on a position of that pattern: 12; and the pattern itself.

ghost use Rattle.std.specs.Prelude.{◌≡◌, true};
ghost use Rattle.model.specs.Questions.{pattern_given, position_given, selected};

use format::case::Case;
use format::pattern::Pattern;
use questions::pattern::arity;
use questions::rules::between;

// 12. Is the pattern's number 1 to one more than the set's count?
pub fn pattern_given(case: &Case, number: u64) -> bool
    ensures { result ≡ pattern_given case.now number }
{
    between(1, (case.set().count() + 1) as u64, number)
}

// The pattern that a number gives: 1 the first, 2 and on the set's members.
pub fn numbered<'a>(case: &Case<'a>, number: u64) -> Pattern<'a>
    requires { pattern_given case.now number ≡ true }
    ensures { result ≡ selected case.now number }
{
    if number == 1 {
        return case.first();
    }
    case.set().member((number - 2) as usize)
}

// 12. Is the pattern's number 1 to one more than the set's count, and the position 1 to k?
pub fn position_given(case: &Case, number: u64, position: u64) -> bool
    ensures { result ≡ position_given case.now number position }
{
    pattern_given(case, number) && between(1, arity(&numbered(case, number)) as u64, position)
}
