// What is kept of the committed state for a transaction's changes, and given back.
ghost use Rattle.std.specs.Prelude.{ℕ, ◌≡◌, ◌≢◌, ◌≤◌, ◌<◌, Bool, List, None, Some, IfOk, OnErr, OnOk};
ghost use Rattle.std.specs.Prelude.{[], ◌++◌, is_some};
ghost use Rattle.std.specs.List.{AllByRecursion, flat_map};
ghost use Rattle.model.specs.FiniteMap.{get};
ghost use Rattle.model.specs.Changes.{Make_pipe};
ghost use Rattle.model.specs.Steps.{IsNowhere};
ghost use Rattle.freeing_laws.specs.Counts.{listed};
ghost use Rattle.store.specs.Places.{listing_of};
ghost use Rattle.shadow.specs.Claims.{AreAdded, AreUnused, Claim, HaveClaimed, HaveParents, IsClaimed, IsComing};
ghost use Rattle.shadow.specs.Claims.{IsDirectory, IsReserved, KeepsMore, KeepsSame, Room, claim_in};
ghost use Rattle.shadow.specs.Claims.{claimed_by, claimed_in, inode_claim, inodes_claim, new_number};
ghost use Rattle.shadow.specs.Claims.{Stays, number_as, openings_claim, reserved, room_in};
ghost use Rattle.shadow.specs.Claims.{with_kinds};
ghost use Rattle.notes.specs.Log.{effect};
ghost use Rattle.notes.specs.Patches.{net_of};
ghost use Rattle.notes.specs.Steps.{AreApart, CanEdit, parents_in};
ghost use Rattle.shadow.specs.Stored.{IsBare};

use crate::stable::Stable;
use dirlist::Dir;
use heap::Heap;
use ids::{Edit, Num, Nums};
use notes::{InodeChange, Inodes, Opening, Openings, Patches};
use std::alloc::AllocError;
use store::Object;

/// The directories to which a call adds a name, or in which it gives one anew: two where names change
/// places.
pub(crate) fn parents_of(edits: &[Edit]) -> (Option<Num>, Option<Num>)
    requires { CanEdit edits.now }
    ensures { listed result.0 ++ listed result.1 ≡ flat_map parents_in edits.now }
{
    match edits.first() {
        Some(Edit::MakeDirectory { parent, .. }) => (Some(*parent), None),
        Some(Edit::MakeFile { parent, .. }) => (Some(*parent), None),
        Some(Edit::MakeFixed { parent, .. }) => (Some(*parent), None),
        Some(Edit::NameFile { parent, .. }) => (Some(*parent), None),
        Some(Edit::Move { to, .. }) => (Some(*to), None),
        Some(Edit::Swap { first, second, .. }) => (Some(*first), Some(*second)),
        _ => (None, None),
    }
}

impl Stable {
    /// New numbers for what a call makes, and room for the names that it adds. Refused memory
    /// changes nothing.
    pub(crate) fn claim(&mut self, heap: Heap, edits: &[Edit]) -> Result<Nums, AllocError>
        requires kinds { CanEdit edits.now }
        requires parents { HaveParents self.old.reserves edits.now }
        ensures new { IfOk result (AreUnused self.old edits.now) }
        ensures apart { IfOk result (λ chosen. AllByRecursion (AreApart chosen) edits.now) }
        ensures kept { IfOk result (λ chosen. KeepsMore self.old self.new
            (λ c. claimed_by c (effect chosen edits.now))) }
        ensures state { self.new.state ≡ self.old.state }
        ensures err { OnErr result (KeepsSame self.old self.new) }
    {
        let chosen = self.claim_numbers(heap, edits)?;
        match self.promise_both(parents_of(edits)) {
            Ok(()) => Ok(chosen),
            Err(AllocError) => {
                self.release_claims(chosen.as_slice(), (None, None));
                drop(chosen);
                Err(AllocError)
            }
        }
    }

    // New numbers for what a call makes. Refused memory changes nothing.
    fn claim_numbers(&mut self, heap: Heap, edits: &[Edit]) -> Result<Nums, AllocError>
        requires { CanEdit edits.now }
        ensures ok { IfOk result (HaveClaimed self.old self.new edits.now) }
        ensures state { self.new.state ≡ self.old.state }
        ensures err { OnErr result (KeepsSame self.old self.new) }
    {
        let mut chosen = Nums::new(heap);
        for edit in edits {
            match self.claim_number(edit, &mut chosen) {
                Ok(()) => (),
                Err(AllocError) => {
                    self.release_claims(chosen.as_slice(), (None, None));
                    return Err(AllocError);
                }
            }
        }
        Ok(chosen)
    }

    // Numbers for the new objects of an edit, behind these. Where memory is refused some of them may
    // be there, and are kept.
    fn claim_number(&mut self, edit: &Edit, chosen: &mut Nums) -> Result<(), AllocError>
        ensures ok { OnOk result
            (IsClaimed self.old self.new edit.now chosen.old chosen.new) }
        ensures state { self.new.state ≡ self.old.state }
        ensures err { OnErr result (AreAdded self.old self.new chosen.old chosen.new) }
    {
        match edit {
            Edit::MakeDirectory { .. } => {
                let dir = Dir::new(self.heap());
                self.reserve(Object::Directory(dir), chosen)
            }
            Edit::MakeFile { .. } => self.reserve(Object::Nothing, chosen),
            Edit::MakeFixed { .. } => self.reserve(Object::Nothing, chosen),
            Edit::OpenInode { .. } => self.reserve(Object::Nothing, chosen),
            Edit::MakePipe { .. } => self.reserve_three(chosen),
            _ => Ok(()),
        }
    }

    // Numbers for a pipe and its two descriptions, behind these. Where memory is refused some of them
    // may be there, and are kept.
    fn reserve_three(&mut self, chosen: &mut Nums) -> Result<(), AllocError>
        ensures ok { OnOk result ((i pid f g : ℕ)
            → IsClaimed self.old self.new (Make_pipe i pid f g) chosen.old chosen.new) }
        ensures state { self.new.state ≡ self.old.state }
        ensures err { OnErr result (AreAdded self.old self.new chosen.old chosen.new) }
    {
        self.reserve(Object::Nothing, chosen)?;
        self.reserve(Object::Nothing, chosen)?;
        self.reserve(Object::Nothing, chosen)
    }

    // One new number for an object to come, behind these. Refused memory changes nothing.
    fn reserve(&mut self, object: Object, chosen: &mut Nums) -> Result<(), AllocError>
        requires { IsBare object }
        ensures ok { OnOk result (IsReserved (is_some (listing_of object))
            self.old self.new chosen.old chosen.new) }
        ensures state { self.new.state ≡ self.old.state }
        ensures err { OnErr result (chosen.new ≡ chosen.old) }
        ensures same { OnErr result (KeepsSame self.old self.new) }
    {
        let num = self.reserve_num(object)?;
        match chosen.push(num) {
            Ok(()) => Ok(()),
            Err(AllocError) => {
                self.give_back(num);
                Err(AllocError)
            }
        }
    }

    // One new number, for an object to come. Refused memory changes nothing.
    fn reserve_num(&mut self, object: Object) -> Result<Num, AllocError>
        requires { IsBare object }
        ensures unused { IfOk result (λ num. get self.old.reserves num ≡ None) }
        ensures nowhere { IfOk result (IsNowhere self.old.state) }
        ensures kept { IfOk result (λ num.
            KeepsMore self.old self.new (number_as (is_some (listing_of object)) num)) }
        ensures used { IfOk result (λ num. get self.new.reserves num ≢ None) }
        ensures stays { OnOk result (Stays self.old self.new) }
        ensures state { self.new.state ≡ self.old.state }
        ensures err { OnErr result (self.new ≡ self.old) }
    {
        // For the proof: a number that is not in use is nowhere in the state.
        call_laws::unused_numbers_are_nowhere();
        let num = self.store.reserve_num(object)?;
        Ok(num)
    }

    /// Gives back new numbers, and the room of names. It takes no memory.
    pub(crate) fn release_claims(&mut self, chosen: &[Num], parents: (Option<Num>, Option<Num>))
        requires { (bs : List Bool) × ((c : Claim)
            → claimed_in c (with_kinds chosen.now bs) (listed parents.0 ++ listed parents.1)
            ≤ reserved self.old c) }
        ensures kept { (bs : List Bool) → ((c : Claim)
            → claimed_in c (with_kinds chosen.now bs) (listed parents.0 ++ listed parents.1)
            ≤ reserved self.old c)
            → KeepsMore self.new self.old
            (λ c. claimed_in c (with_kinds chosen.now bs) (listed parents.0 ++ listed parents.1)) }
        ensures state { self.new.state ≡ self.old.state }
    {
        for num in chosen {
            self.give_back(*num);
        }
        self.unpromise_in(parents.0);
        self.unpromise_in(parents.1);
    }

    // Promises room for one more name in each of these directories. Refused memory changes nothing.
    fn promise_both(&mut self, parents: (Option<Num>, Option<Num>)) -> Result<(), AllocError>
        requires { AllByRecursion
            (IsDirectory self.old.reserves) (listed parents.0 ++ listed parents.1) }
        ensures kept { OnOk result (KeepsMore self.old self.new
            (λ c. claimed_in c [] (listed parents.0 ++ listed parents.1))) }
        ensures state { self.new.state ≡ self.old.state }
        ensures err { OnErr result (KeepsSame self.old self.new) }
    {
        self.promise_in(parents.0)?;
        match self.promise_in(parents.1) {
            Ok(()) => Ok(()),
            Err(AllocError) => {
                self.unpromise_in(parents.0);
                Err(AllocError)
            }
        }
    }

    // Promises room for one more name in a directory, if there is one. Refused memory changes nothing.
    fn promise_in(&mut self, dir: Option<Num>) -> Result<(), AllocError>
        requires { AllByRecursion (IsDirectory self.old.reserves) (listed dir) }
        ensures kept { OnOk result (KeepsMore self.old self.new (λ c. claimed_in c [] (listed dir))) }
        ensures state { self.new.state ≡ self.old.state }
        ensures stays { OnOk result (Stays self.old self.new) }
        ensures err { OnErr result (self.new ≡ self.old) }
    {
        match dir {
            Some(dir) => self.promise(dir),
            None => Ok(()),
        }
    }

    // Gives up the promised room of one name in a directory, if there is one. It takes no memory.
    fn unpromise_in(&mut self, dir: Option<Num>)
        requires { (c : Claim) → claimed_in c [] (listed dir) ≤ reserved self.old c }
        ensures kept { KeepsMore self.new self.old (λ c. claimed_in c [] (listed dir)) }
        ensures state { self.new.state ≡ self.old.state }
    {
        match dir {
            Some(dir) => self.unpromise(dir),
            None => (),
        }
    }

    /// Gives back a number whose object is still to come. It takes no memory.
    pub(crate) fn give_back(&mut self, num: Num)
        requires { IsComing self.old num }
        ensures kept { (directory : Bool) → 0 < reserved self.old (new_number directory num)
            → KeepsMore self.new self.old (number_as directory num) }
        ensures state { self.new.state ≡ self.old.state }
    {
        self.store.lose(num);
    }

    /// Promises room for one more name in a directory, which may be to come. Refused memory changes
    /// nothing.
    fn promise(&mut self, dir: Num) -> Result<(), AllocError>
        requires { IsDirectory self.old.reserves dir }
        ensures kept { OnOk result (KeepsMore self.old self.new (room_in dir)) }
        ensures stays { OnOk result (Stays self.old self.new) }
        ensures state { self.new.state ≡ self.old.state }
        ensures err { OnErr result (self.new ≡ self.old) }
    {
        self.store.promise(dir)
    }

    /// Gives up the promised room of one name. It takes no memory.
    pub(crate) fn unpromise(&mut self, dir: Num)
        requires { 0 < reserved self.old (Room dir) }
        ensures kept { KeepsMore self.new self.old (room_in dir) }
        ensures state { self.new.state ≡ self.old.state }
    {
        self.store.release(dir);
    }

    /// Gives back all that was kept for a transaction's changes. It takes no memory.
    pub(crate) fn release_all_claims(&mut self, patches: Patches)
        requires { (c : Claim) → claim_in patches c ≤ reserved self.old c }
        ensures kept { KeepsMore self.new self.old (claim_in patches) }
        ensures state { self.new.state ≡ self.old.state }
    {
        let Patches {
            inodes,
            openings,
            ..
        } = patches;
        self.release_claims_of_inodes(inodes);
        self.release_claims_of_openings(openings);
    }

    // Gives back what was kept for the changes of inodes.
    fn release_claims_of_inodes(&mut self, inodes: Inodes)
        requires { (c : Claim) → inodes_claim inodes c ≤ reserved self.old c }
        ensures kept { KeepsMore self.new self.old (inodes_claim inodes) }
        ensures state { self.new.state ≡ self.old.state }
    {
        for (num, change) in inodes.each {
            self.release_claims_of_inode(num, &change);
            drop(change);
        }
    }

    // Gives back the numbers of new descriptions.
    fn release_claims_of_openings(&mut self, openings: Openings)
        requires { (c : Claim) → openings_claim openings c ≤ reserved self.old c }
        ensures kept { KeepsMore self.new self.old (openings_claim openings) }
        ensures state { self.new.state ≡ self.old.state }
    {
        for (num, opening) in openings.each {
            match opening {
                Opening::New(_) => self.give_back(num),
                Opening::Kept => (),
                Opening::Moved(_) => (),
            }
        }
    }

    // Gives back what was kept for the changes of one inode.
    fn release_claims_of_inode(&mut self, num: Num, change: &InodeChange)
        requires { (c : Claim) → inode_claim num (net_of (Some change.now)) c ≤ reserved self.old c }
        ensures kept { KeepsMore self.new self.old (inode_claim num (net_of (Some change.now))) }
        ensures state { self.new.state ≡ self.old.state }
    {
        for _given in 0..change.promised {
            self.unpromise(num);
        }
        match change.made {
            Some(_) => self.give_back(num),
            None => (),
        }
    }
}
