// The sets that a turn of a pass over the tree computes, from what is wanted of the pattern.

ghost use Rattle.std.specs.Prelude.{◌≡◌, ◌<◌};
ghost use Rattle.model.specs.Lists.{mask_below};
ghost use Rattle.matching.specs.Wanted.{mark_fits, pin_by, fits_by, hangs_by};

use crate::wanted::Wanted;
use bits::{Mask, select};
use format::labels::{figure_fits, label_fits};
use format::nodes::PatternNode;

// A pattern node's mark, 0 for any, fits the mark that is asked.
#[tactic(auto, unfolding(crate::specs::Wanted::mark_fits))]
fn mark_fits(own: u16, mark: usize) -> bool
    ensures { result ≡ mark_fits own mark }
{
    own == 0 || usize::from(own) == mark
}

impl Wanted {
    // Its mark and its least figure let pattern node p stand at a tree node with this figure and mark.
    #[tactic(auto, unfolding(crate::specs::Wanted::pin_by))]
    fn pin_fits(&self, figure: usize, mark: usize, p: PatternNode) -> bool
        requires { p.0 < 16 }
        ensures { result ≡ pin_by self.now figure mark p.0 }
    {
        let by_mark = mark_fits(self.marks[p.0], mark);
        let by_figure = figure_fits(usize::from(self.least[p.0]), figure);
        by_mark & by_figure
    }

    // Pattern node p may stand at a tree node with this label, figure and mark, where acc is offered from below. Every test is asked,
    // whatever the others say: so a loop over the nodes has no branch, and takes several at a time.
    #[tactic(auto, unfolding(crate::specs::Wanted::fits_by))]
    fn fits_here(&self, label: u16, figure: usize, mark: usize, acc: u16, p: PatternNode) -> bool
        requires { p.0 < 16 }
        ensures { result ≡ fits_by self.now label figure mark acc p.0 }
    {
        let by_label = label_fits(self.labels[p.0], label);
        let by_pin = self.pin_fits(figure, mark, p);
        let by_kids = self.kids[p.0].is_subset(acc);
        by_label & by_pin & by_kids
    }

    // The pattern nodes that may stand there.
    pub fn fitting(&self, label: u16, figure: usize, mark: usize, acc: u16) -> u16
        ensures { result ≡ mask_below (fits_by self.now label figure mark acc) self.now.count }
    {
        select(
            self.count,
            |p| self.fits_here(label, figure, mark, acc, PatternNode(p)),
        )
    }

    // Pattern node q hangs from a node of the set.
    #[tactic(auto, unfolding(crate::specs::Wanted::hangs_by))]
    fn hangs_from(&self, set: u16, q: PatternNode) -> bool
        requires { q.0 < self.now.count }
        ensures { result ≡ hangs_by self.now set q.0 }
    {
        q.0 != 0 && set.has(usize::from(self.parents[q.0]))
    }

    // The pattern nodes that hang from a node of the set.
    pub fn hanging(&self, set: u16) -> u16
        ensures { result ≡ mask_below (hangs_by self.now set) self.now.count }
    {
        select(self.count, |q| self.hangs_from(set, PatternNode(q)))
    }
}
