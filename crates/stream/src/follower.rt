// A check that goes along with the history of a kernel.
ghost use Rattle.std.specs.Prelude.{◌≡◌, ◌-◌, drop, sum, IfErr, IfOk};
ghost use Rattle.history.specs.Log.{kept};
ghost use Rattle.stream.specs.Heard.{CannotForget, HasCheckedAll, HasCheckedFirst, IsOfLine};

use crate::fault::StreamFault;
use history::History;
use ids::Entry;
use replay::Checker;

// A check that goes along with the history of a kernel, and how many entries it has checked: the
// first ones. It can be ahead of what is forgotten, where no more can be forgotten.
pub(crate) struct Follower {
    pub(crate) checker: Checker,
    pub(crate) count: u64,
}

impl Drop for Follower {
    fn drop(self) {
        let Follower {
            checker: _,
            count: _,
        } = self;
    }
}

impl Follower {
    // The follower, once it has checked all entries. At a fault it is gone.
    pub(crate) fn catch_up(self, history: &History) -> Result<Follower, StreamFault>
        ensures checked { IfOk result (λ behind. HasCheckedFirst self history.now
            → HasCheckedAll behind history.now) }
        ensures fault { IfErr result (λ why. HasCheckedFirst self history.now
            → CannotForget history.now why) }
        ensures of_line { IfErr result IsOfLine }
    {
        let Follower { checker, count } = self;
        match checker.add(entries_behind(history, count)) {
            Ok(checker) => Ok(Follower {
                checker,
                count: history.count(),
            }),
            Err(fault) => Err(StreamFault::of_check(fault)),
        }
    }
}

// The entries that are kept, without those that are among the first so many of the history.
fn entries_behind(history: &History, count: u64) -> &[Entry]
    ensures { result.now ≡ drop (count - sum history.now.forgotten) (kept history.now) }
{
    let entries = history.entries();
    let checked = count.saturating_sub(history.forgotten());
    let first = (entries.len() as u64).min(checked) as usize;
    &entries[first..]
}
