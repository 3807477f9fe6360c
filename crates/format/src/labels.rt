// What fits what: a pattern's label, where 0 is any, and a label of a document or a summary; a pattern's least figure and a figure of
// a document.

ghost use Rattle.std.specs.Prelude.{◌≡◌};
ghost use Rattle.model.specs.Pattern.{label_fits, figure_fits};

// The labels fit.
pub fn label_fits(own: u16, label: u16) -> bool
    ensures { result ≡ label_fits own label }
{
    own == 0 || own == label
}

// The figures fit.
pub fn figure_fits(least: usize, figure: usize) -> bool
    ensures { result ≡ figure_fits least figure }
{
    least <= figure
}
