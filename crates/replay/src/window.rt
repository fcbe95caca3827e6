// What of a history can be looked at: a part of it, and of the entries before that part those that live transactions
// still need.
ghost use Rattle.std.specs.Prelude.{List, option_copied};
ghost use Rattle.model.specs.Entries.{Entry as Listed};
ghost use Rattle.replay.specs.Windows.{CanSee, Finds, Shows};

use ids::{Entry, Num};
use plain_kernel::Tree;

/// A part of a history, and what is kept of the entries before it, by their positions.
#[derive(Clone, Copy)]
pub(crate) struct Window<'a> {
    /// The entries of the part.
    pub(crate) part: &'a [Entry],
    /// How many entries stand before it.
    pub(crate) offset: usize,
    /// Those of them that are kept.
    pub(crate) kept: &'a Tree<Entry>,
}

impl Window<'_> {
    // The entry at a position, if one stands there.
    pub(crate) fn entry(&self, position: usize) -> Option<&Entry>
        ensures { (es : List Listed) → Shows es self.now → CanSee self.now position
            → Finds es position (option_copied result) }
    {
        if position < self.offset {
            return self.kept.get(Num(position));
        }
        let index = position - self.offset;
        if index < self.part.len() {
            Some(&self.part[index])
        } else {
            None
        }
    }
}
