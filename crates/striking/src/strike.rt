// The loop: rounds, each of which strikes a leaf, until one strikes none.

ghost use Rattle.model.specs.Striking.{strike_all};
ghost use Rattle.striking.specs.Present.{Strikable};
ghost use Rattle.striking.specs.Strikes.{StruckBy};

use crate::numbers::Numbers;
use crate::present::Present;
use crate::round::round;
use judging::rows::SummaryRows;

// The struck leaves, by their numbers in the pattern as given, in striking order; and how many were tried in all.
#[derive(Drop)]
pub struct Strikes {
    pub struck: Numbers,
    pub tried: u64,
}

// From the present pattern, and on to the shortened one. As many rounds as there are nodes are enough, since the root stays.
pub fn strike(rows: &SummaryRows, present: &mut Present, limit: u64) -> Strikes
    requires { Strikable rows.now present.old limit }
    ensures { StruckBy (strike_all rows.now limit present.old) present.new result }
{
    let n = present.pattern().count();
    let mut names = Numbers::first(n);
    let mut struck = Numbers::none();
    let mut tried = 0;
    for _ in 0..n {
        let r = round(rows, present, limit);
        tried += r.tried;
        let Some(q) = r.leaf else {
            return Strikes { struck, tried };
        };
        struck.push(names.remove(q));
        *present = present.without(q);
    }
    Strikes { struck, tried }
}
