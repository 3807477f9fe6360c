// One round: the leaves that may go, lowest number first, up to the first that is struck.

ghost use Rattle.std.specs.Prelude.{◌≡◌, ◌<◌, [], ◌∷◌, length, true};
ghost use Rattle.model.specs.Striking.{may_go, verdict_without};
ghost use Rattle.containment.specs.Answer.{answer_of};
ghost use Rattle.striking.specs.Present.{Strikable};
ghost use Rattle.striking.specs.Rounds.{round_of};

use crate::present::Present;
use crate::shorten::may_go;
use containment::Containment;
use containment::verdict::verdict;
use format::set::PatternSet;
use judging::rows::SummaryRows;

// What a round comes to: the leaf that it strikes, if any, and how many were tried in all.
#[derive(Clone, Copy)]
pub struct Rounded {
    pub leaf: Option<usize>,
    pub tried: u64,
}

// The verdict on the present pattern without leaf q, in the set of one that the present pattern is.
fn verdict_without(
    rows: &SummaryRows,
    present: &Present,
    q: usize,
    set: &PatternSet,
    limit: u64,
) -> Containment
    requires strikable { Strikable rows.now present.now limit × (set.now ≡ present.now ∷ []) }
    requires leaf { (q < length present.now) × (may_go present.now q ≡ true) }
    ensures { result ≡ answer_of (verdict_without rows.now limit present.now q) }
{
    let shorter = present.without(q);
    let mut images = [0u16; 16];
    verdict(rows, &shorter.pattern(), set, &mut images, limit)
}

// A round over the present pattern: each leaf that may go has its verdict. "Included" strikes it, the others keep it.
pub fn round(rows: &SummaryRows, present: &Present, limit: u64) -> Rounded
    requires { Strikable rows.now present.now limit }
    ensures { result ≡ round_of rows.now limit present.now }
{
    let bytes = present.set_of_one();
    let set = PatternSet::new(&bytes, 0);
    let pattern = present.pattern();
    let mut tried = 0;
    for q in 0..pattern.count() {
        if may_go(&pattern, q) {
            match verdict_without(rows, present, q, &set, limit) {
                Containment::Contained(n) => {
                    return Rounded {
                        leaf: Some(q),
                        tried: tried + n,
                    };
                }
                Containment::NotContained(n) | Containment::Stopped(n) => tried += n,
            }
        }
    }
    Rounded { leaf: None, tried }
}
