// The figures: each pattern node's own node gets its least figure. The nodes above it in its chain and those that were filled up keep 0.

ghost use Rattle.std.specs.Prelude.{List, ℕ};
ghost use Rattle.model.specs.Summary.{Summary};
ghost use Rattle.model.specs.Canonical.{Spot};
ghost use Rattle.canonical.specs.Given.{Figureless, Figured};

use format::limits::DOCUMENT_WIDTH;
use format::nodes::{PatternNode, own_of};
use format::pattern::Pattern;
use format::write::put_field;

// The figure is the last of a record's three fields.
pub fn figures(pattern: &Pattern, own: &[u16], answer: &mut [u8])
    requires { (S : Summary) × (spots : List Spot) × (base : List ℕ) × Figureless S spots pattern.now own.now base answer.old }
    ensures { (S : Summary) (spots : List Spot) (base : List ℕ)
        → Figureless S spots pattern.now own.now base answer.old
        → Figured S spots pattern.now own.now base answer.new }
{
    for q in 0..pattern.count() {
        let v = own_of(own, PatternNode(q));
        put_field(
            answer,
            3 + DOCUMENT_WIDTH * v.0,
            pattern.figure(PatternNode(q)) as u16,
        );
    }
}
