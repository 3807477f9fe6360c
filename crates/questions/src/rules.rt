// Rules that several questions share.

ghost use Rattle.std.specs.Prelude.{◌≡◌};
ghost use Rattle.model.specs.Fitting.{parent_rule};
ghost use Rattle.model.specs.Questions.{between as is_between, figure_in_range};
ghost use Rattle.questions.specs.Rules.{flag_rule};

use format::limits::MAX_FIGURE;

// A number from low to high.
pub fn between(low: u64, high: u64, n: u64) -> bool
    ensures { result ≡ is_between low high n }
{
    (low..=high).contains(&n)
}

// The rule for parents: the root's is 0, any other is below its record's own number.
pub fn parent_rule(i: usize, parent: usize) -> bool
    ensures { result ≡ parent_rule i parent }
{
    if i == 0 { parent == 0 } else { parent < i }
}

// The rule for a record's flag, strong or edge: 0 or 1, and the root's is 0.
pub fn flag_rule(i: usize, flag: usize) -> bool
    ensures { result ≡ flag_rule i flag }
{
    flag <= 1 && (0 < i || flag == 0)
}

// The rule for figures, of patterns and of documents: at most 2,000.
pub fn figure_in_range(figure: usize) -> bool
    ensures { result ≡ figure_in_range figure }
{
    figure <= MAX_FIGURE
}
