// How what is wanted of a pattern is worked out, and marked.

ghost use Rattle.std.specs.Prelude.{◌≡◌, ◌≤◌, length};
ghost use Rattle.model.specs.Pattern.{arity};
ghost use Rattle.model.specs.Bytes.{list_of};
ghost use Rattle.model.specs.Facts.{PatternFacts};
ghost use Rattle.format.specs.Given.{PatternKept};
ghost use Rattle.matching.specs.Wanted.{Wants, Unmarked, Unasked, WantsPinned, WantsFigured, mark_at, SmallNumbers};

use crate::masks::{deep_mask, kid_masks};
use crate::wanted::Wanted;
use format::field::field;
use format::nodes::PatternNode;
use format::pattern::Pattern;

// The mark of a node with this position: one more than its own number in the list.
fn mark_at(position: usize, list: &[u8]) -> u16
    requires { (position ≤ length (list_of list.now)) × SmallNumbers list.now }
    ensures { result ≡ mark_at position (list_of list.now) }
{
    if position == 0 {
        return 0;
    }
    (field(list, position - 1) + 1) as u16
}

impl Wanted {
    // What is wanted of the pattern, with no node marked and no figure asked.
    pub fn new(pattern: &Pattern) -> Self
        requires { PatternKept pattern.now }
        ensures { Wants pattern.now result × Unmarked result × Unasked result }
    {
        let count = pattern.count();
        let mut labels = [0u16; 16];
        let mut parents = [0u16; 16];
        for q in 0..count {
            labels[q] = pattern.label(PatternNode(q));
            parents[q] = pattern.parent(PatternNode(q)).0 as u16;
        }
        Wanted {
            deep: deep_mask(pattern),
            count,
            labels,
            marks: [0; 16],
            kids: kid_masks(pattern),
            parents,
            least: [0; 16],
        }
    }

    // The return nodes are pinned to the list, by their marks.
    pub fn pin(&mut self, pattern: &Pattern, list: &[u8])
        requires pattern_kept { PatternKept pattern.now × PatternFacts pattern.now × Wants pattern.now self.old }
        requires list_len { (length (list_of list.now) ≡ arity pattern.now) × SmallNumbers list.now }
        ensures { WantsPinned pattern.now (list_of list.now) self.new }
    {
        for q in 0..self.count {
            self.marks[q] = mark_at(pattern.position(PatternNode(q)), list);
        }
    }

    // The nodes' least figures are asked.
    pub fn ask_figures(&mut self, pattern: &Pattern)
        requires { PatternKept pattern.now × Wants pattern.now self.old }
        ensures { WantsFigured pattern.now self.old self.new }
    {
        for q in 0..self.count {
            self.least[q] = pattern.figure(PatternNode(q)) as u16;
        }
    }
}
