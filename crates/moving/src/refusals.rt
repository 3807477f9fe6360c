// What each of the two calls asks, in its own order: the first question whose answer is no refuses it. Any bytes and any numbers may be
// asked about.

ghost use Rattle.std.specs.Prelude.{◌≡◌};
ghost use Rattle.model.specs.Moving.{figureless as figureless_in, goes_back, upgrade_refusal, downgrade_refusal};
ghost use Rattle.questions.specs.Refusal.{asked};

use crate::old::{old_counts_in_range, old_whole};
use crate::write::write_new;
use format::case::Case;
use format::limits::MAX_MOVED;
use format::nodes::PatternNode;
use format::pattern::Pattern;
use questions::ask_case;
use questions::numbers::buffer_large_enough;
use questions::refusal::{Refusal, hold};

// Every figure of the pattern is 0.
fn figureless(p: &Pattern) -> bool
    ensures { result ≡ figureless_in p.now }
{
    (0..p.count()).all(|q| p.figure(PatternNode(q)) == 0)
}

// 15. Going back, has the set one pattern, and is every figure 0?
pub fn goes_back(case: &Case) -> bool
    ensures { result ≡ goes_back case.now }
{
    let set = case.set();
    set.count() == 1 && figureless(&case.first()) && set.members().all(|p| figureless(&p))
}

// Old to new: 2, then 3 to 8 of the old form. 5 to 8 are asked of the set of one that the old case is, of which 3, 4, 14 and 17 are answered
// yes; the counts are in range by then, so it has room in a small array.
pub fn ask_upgrade(b: &[u8], buffer: usize) -> Result<(), Refusal>
    ensures { asked result ≡ upgrade_refusal b.now buffer }
{
    hold(buffer_large_enough(buffer), Refusal::Room)?;
    hold(old_whole(b), Refusal::Bytes)?;
    hold(old_counts_in_range(b), Refusal::Counts)?;
    let mut moved = [0u8; MAX_MOVED];
    let end = write_new(b, &mut moved);
    ask_case(&moved[..end])
}

// New to old: 2, then 3 to 8 with 14 right after 4 and 17 right after 7, then 15.
pub fn ask_downgrade(b: &[u8], buffer: usize) -> Result<(), Refusal>
    ensures { asked result ≡ downgrade_refusal b.now buffer }
{
    hold(buffer_large_enough(buffer), Refusal::Room)?;
    ask_case(b)?;
    hold(goes_back(&Case::new(b)), Refusal::OldForm)
}
