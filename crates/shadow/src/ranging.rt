// Two names that change places, and bytes of a file that become zero, made at once in the committed
// state.
ghost use Rattle.std.specs.Prelude.{◌≡◌, ◌≤◌, ◌+◌, [], Some};
ghost use Rattle.ids.specs.declared.limits.TheConstants.{LARGEST_FILE};
ghost use Rattle.model.specs.State.{A_file, kind_of};
ghost use Rattle.model.specs.Changes.{Swap, Wipe, applied, tidy};
ghost use Rattle.call_laws.specs.Fits.{Fits};
ghost use Rattle.shadow.specs.Claims.{Claim, KeepsMore, KeepsSame, claimed_by_one, reserved};
ghost use Rattle.notes.specs.Steps.{IsSwap};

use crate::stable::Stable;
use ids::{Edit, Name, Num};
use objects::FileData;

impl Stable {
    // An exchange of two names. It takes no memory.
    pub(crate) fn exchange(&mut self, chosen: &[Num], edit: Edit)
        requires swap { IsSwap edit }
        requires fits { Fits chosen.now self.old.state edit }
        requires covers { (c : Claim) → claimed_by_one c chosen.now edit ≤ reserved self.old c }
        ensures state { self.new.state ≡ tidy (applied chosen.now edit self.old.state) }
        ensures kept { KeepsMore self.new self.old (λ c. claimed_by_one c chosen.now edit) }
    {
        // For the proof: the edit needs no new number.
        let _chosen = chosen;
        match edit {
            Edit::Swap {
                first,
                first_name,
                first_inode,
                second,
                second_name,
                second_inode,
            } => self.swap(
                (first, first_name, first_inode),
                (second, second_name, second_inode),
            ),
            _ => unreachable!(),
        }
    }

    // Two names change places, in the room that is kept for them. Nothing goes, since each object has
    // as many names as before.
    fn swap(&mut self, first: (Num, Name, Num), second: (Num, Name, Num))
        requires fits { Fits [] self.old.state
            (Swap first.0 first.1 first.2 second.0 second.1 second.2) }
        requires covers { (c : Claim) → claimed_by_one c []
            (Swap first.0 first.1 first.2 second.0 second.1 second.2) ≤ reserved self.old c }
        ensures state { self.new.state ≡ tidy (applied []
            (Swap first.0 first.1 first.2 second.0 second.1 second.2) self.old.state) }
        ensures kept { KeepsMore self.new self.old (λ c. claimed_by_one c []
            (Swap first.0 first.1 first.2 second.0 second.1 second.2)) }
    {
        let (first, first_name, first_inode) = first;
        let (second, second_name, second_inode) = second;
        self.store.add_name(first, first_name, second_inode);
        self.store.add_name(second, second_name, first_inode);
    }

    // Bytes of a file become zero.
    pub(crate) fn wipe(&mut self, file: Num, offset: usize, count: usize)
        requires small { offset + count ≤ LARGEST_FILE }
        requires file { kind_of self.old.state file ≡ Some A_file }
        ensures state { self.new.state ≡ applied [] (Wipe file offset count) self.old.state }
        ensures kept { KeepsSame self.old self.new }
    {
        let empty = FileData::new(self.heap());
        let mut data = self.store.swap_file(file, empty);
        data.wipe(offset, count);
        let _empty = self.store.swap_file(file, data);
    }
}
