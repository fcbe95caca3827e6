//! The names of directories, the room that is promised for them, and how many give a number.
ghost use Rattle.std.specs.Prelude.{[], ◌≡◌, ◌<◌, ◌≤◌, ◌==◌, not, true, false, Some};
ghost use Rattle.std.specs.Prelude.{IfSome, OnOk, OnErr, count_by, is_some};
ghost use Rattle.std.specs.List.{AllByRecursion};
ghost use Rattle.model.specs.FiniteMap as map;
ghost use Rattle.model.specs.State.{names_of_inode};
ghost use Rattle.dirlist.specs.Listing.{Listing};
ghost use Rattle.store.specs.Places.{altered, released, with_listing};
ghost use Rattle.store.specs.Places.{is_coming, is_shown, may_be_named, listing_at};
ghost use Rattle.store.specs.Places.{has_room, more_room, number_in, with_name, without_name};
ghost use Rattle.store.specs.Shown.{descriptions, inodes, with_names};
ghost use Rattle.store.specs.Links.{links_in};
ghost use Rattle.store.specs.Laid.{in_order, laid, laid_listing};

use crate::{Store, headers};
use dirlist::NoteTable;
use ids::{Name, Num};
use std::alloc::AllocError;

impl Store {
    /// The number that a name gives in a directory that is shown.
    pub fn lookup(&self, dir: Num, name: &Name) -> Option<Num>
        ensures { result ≡ map.get (names_of_inode (map.get (inodes self.now) dir)) name.now }
    {
        match self.directory(dir) {
            Some(dir) => dir.lookup(name),
            None => None,
        }
    }

    /// Whether a name of a shown directory gives this number. It takes no memory, and costs nothing
    /// but a look at the header.
    pub fn is_named(&self, num: Num) -> bool
        ensures { result ≡ not (links_in (inodes self.now) num == 0) }
    {
        headers::links_at(&self.headers, num.0) != 0
    }

    /// How many names of shown directories give this number. It takes no memory, and costs nothing
    /// but a look at the header.
    pub fn links(&self, num: Num) -> u128
        ensures { result ≡ links_in (inodes self.now) num }
    {
        headers::links_at(&self.headers, num.0)
    }

    /// Whether room for a name is promised in a directory, which may be to come or removed. Only
    /// tests ask it.
    pub fn is_promised(&self, dir: Num) -> bool
        ensures { result ≡ has_room (listing_at self.now dir) }
    {
        headers::is_promised_at(&self.headers, dir.0)
    }

    /// Promises room for one more name in a directory, which may be to come; where there is no
    /// directory, nothing changes. Refused memory changes nothing.
    pub fn promise(&mut self, dir: Num) -> Result<(), AllocError>
        ensures ok { OnOk result (self.new ≡ altered (with_listing more_room) self.old dir) }
        ensures err { OnErr result (self.new ≡ self.old) }
        ensures shown { inodes self.new ≡ inodes self.old }
        ensures open { descriptions self.new ≡ descriptions self.old }
        ensures rights { self.new.rights ≡ self.old.rights }
    {
        headers::promise_at(&mut self.headers, dir.0)
    }

    /// Gives up the promised room of one name in a directory; where no room is promised, none is
    /// given up. The number of a removed directory is given up with its last promise. It takes no
    /// memory.
    pub fn release(&mut self, dir: Num)
        ensures released { self.new ≡ released self.old dir }
        ensures shown { inodes self.new ≡ inodes self.old }
        ensures open { descriptions self.new ≡ descriptions self.old }
    {
        headers::release_at(&mut self.headers, dir.0);
        self.sweep(dir);
    }

    /// From now on the name gives this number, whatever it gave before, in promised room; where
    /// there is no directory, nothing changes. The directory is shown or removed, and the object of
    /// the number is shown or to come. It takes no memory.
    pub fn add_name(&mut self, dir: Num, name: Name, num: Num)
        requires room { (listing : Listing) →
            listing_at self.old dir ≡ Some listing → 0 < listing.promised }
        requires dir { is_coming (map.get self.old.places dir) ≡ false }
        requires num { may_be_named (map.get self.old.places num) ≡ true }
        ensures added { self.new ≡ altered (with_listing (with_name name num)) self.old dir }
        ensures shown { inodes self.new ≡
            with_names (λ names. map.insert names name num) (inodes self.old) dir }
        ensures open { descriptions self.new ≡ descriptions self.old }
    {
        // For the proof: a count of one name more fits.
        headers::numbers_are_few(&self.headers);
        let former = headers::add_name_at(&mut self.headers, dir.0, name, num);
        headers::remove_link(&mut self.headers, dir.0, former);
        headers::add_link(&mut self.headers, dir.0, num);
    }

    /// Takes a name out of a directory, which may be to come, and gives the number that it gave. It
    /// takes no memory, and leaves the room that is promised.
    pub fn remove_name(&mut self, dir: Num, name: &Name) -> Option<Num>
        ensures value { result ≡ number_in (listing_at self.old dir) name.now }
        ensures removed { self.new ≡ altered (with_listing (without_name name.now)) self.old dir }
        ensures shown { inodes self.new ≡
            with_names (λ names. map.remove names name.now) (inodes self.old) dir }
        ensures open { descriptions self.new ≡ descriptions self.old }
    {
        let num = headers::remove_name_at(&mut self.headers, dir.0, name)?;
        headers::remove_link(&mut self.headers, dir.0, Some(num));
        Some(num)
    }

    /// Lays notes over a directory that is shown: what each noted name gives from now on, a number
    /// or nothing, whatever order the table has them in. So many promises of room in it are given
    /// up, and the names that come take their room from these. The objects of the numbers are shown
    /// or to come. It takes no memory.
    pub fn lay(&mut self, dir: Num, notes: NoteTable, promised: usize)
        requires shown { is_shown (map.get self.old.places dir) ≡ true }
        requires room { (listing : Listing) →
            listing_at self.old dir ≡ Some listing → promised ≤ listing.promised }
        requires added { count_by (λ note. is_some note.1) (in_order notes.entries) ≤ promised }
        requires numbers { AllByRecursion
            (λ note. IfSome note.1 (λ n. may_be_named (map.get self.old.places n) ≡ true))
            (in_order notes.entries) }
        ensures laid { self.new ≡ altered
            (with_listing (laid_listing (in_order notes.entry.entries) promised)) self.old dir }
        ensures shown { inodes self.new ≡
            with_names (laid (in_order notes.entry.entries)) (inodes self.old) dir }
        ensures open { descriptions self.new ≡ descriptions self.old }
    {
        let mut left = promised;
        for (name, num) in notes {
            match num {
                Some(num) => {
                    self.add_name(dir, name, num);
                    left -= 1;
                }
                None => {
                    let _former = self.remove_name(dir, &name);
                }
            }
        }
        self.release_all(dir, left);
    }

    // Gives up so many promises of room in a directory that is shown.
    fn release_all(&mut self, dir: Num, count: usize)
        requires { is_shown (map.get self.old.places dir) ≡ true }
        ensures { self.new ≡ altered (with_listing (laid_listing [] count)) self.old dir }
    {
        for _i in 0..count {
            self.release(dir);
        }
    }
}
