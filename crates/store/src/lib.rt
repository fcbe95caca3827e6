//! Objects under their numbers, and objects to come, which are not shown before they are installed.
#![tactic(auto)]

ghost use Rattle.std.specs.Prelude.{◌≡◌, ◌≢◌, ◌<◌, ◌≤◌, ◌+◌, ◌++◌, ◌^◌, drop, length, Some, None};
ghost use Rattle.std.specs.Prelude.{IfOk, OnOk, OnErr};
ghost use Rattle.ids.specs.declared.limits.TheConstants.{LARGEST_FILE, TARGET_LIMIT};
ghost use Rattle.model.specs.Changes.{written};
ghost use Rattle.std.specs.Prelude.{option_and_then, option_copied, option_map, IsSome};
ghost use Rattle.model.specs.FiniteMap as map;
ghost use Rattle.model.specs.State.{file_of_inode, kind, mapped, names_of_inode, pipe_of_inode};
ghost use Rattle.model.specs.State.{target_of_inode};
ghost use Rattle.model.specs.State.{Directory as A_directory, File as A_file, Pipe as A_pipe};
ghost use Rattle.store.specs.Numbers.{coming, object_at, present, IsFirstRoot};
ghost use Rattle.store.specs.Places.{altered, installed, lost, swept, listing_of, file_in, file_of};
ghost use Rattle.store.specs.Places.{IsRoomy, moved_to, passed, pipe_of, with_bytes, with_file};
ghost use Rattle.store.specs.Places.{Refilled, with_opened, with_pipe};
ghost use Rattle.store.specs.Shown.{inodes, inode_of, with_inode, with_value};
ghost use Rattle.store.specs.Shown.{description_of, descriptions, file_inode, pipe_inode};
ghost use Rattle.store.specs.Shown.{with_offset};
ghost use Rattle.store.specs.declared.Object.TheVariants.{Nothing};
ghost use Rattle.store.specs.Links.{links_in};

mod contents;
mod counting;
mod headers;
mod naming;

use dirlist::Dir;
use heap::Heap;
use ids::{Fixed, Kind, Num, Rights};
use objects::{Description, FileData, PipeData};
use slab::Slab;
use std::alloc::AllocError;
use std::marker::Model;

/// A file, and how many open file descriptions are of it.
pub struct OpenFile {
    /// Its bytes.
    pub bytes: FileData,
    /// How many descriptions are open on it.
    pub openings: u128,
}

impl Drop for OpenFile {
    fn drop(self) {
        let OpenFile {
            bytes: _,
            openings: _,
        } = self;
    }
}

/// A pipe. Its bytes have all their memory, and two descriptions at most are of it.
pub struct OpenPipe {
    /// Its bytes.
    pub bytes: PipeData,
    /// The number of the description that reads it.
    pub reader: Num,
    /// The number of the description that writes it.
    pub writer: Num,
}

impl Drop for OpenPipe {
    fn drop(self) {
        let OpenPipe {
            bytes: _,
            reader: _,
            writer: _,
        } = self;
    }
}

/// An open file description, and how many descriptors of processes name it.
pub struct Opened {
    /// What is open, how, and at which offset.
    pub description: Description,
    /// How many descriptors name it.
    pub holders: u128,
}

impl Drop for Opened {
    fn drop(self) {
        let Opened {
            description: _,
            holders: _,
        } = self;
    }
}

/// What a number stands for.
pub enum Object {
    /// A directory.
    Directory(Dir),
    /// A file.
    File(OpenFile),
    /// A pipe.
    Pipe(OpenPipe),
    /// A symbolic link, a FIFO or a socket.
    Fixed(Fixed),
    /// An open file description.
    Description(Opened),
    /// Not settled yet: an object that is no directory is to come.
    Nothing,
}

impl Drop for Object {
    fn drop(self) {
        match self {
            Object::Directory(_) => {}
            Object::File(_) => {}
            Object::Pipe(_) => {}
            Object::Fixed(_) => {}
            Object::Description(_) => {}
            Object::Nothing => {}
        }
    }
}

/// How far an object is, from the reservation of its number until the number is given up.
#[derive(Clone, Copy)]
pub enum Stage {
    /// To come: not shown yet.
    Coming,
    /// Shown.
    Held,
    /// Shown no more. It goes when the last room that is promised in it is given up.
    Removed,
}

/// What a number that is in use is used for: its object, and how far that is.
pub struct Place {
    /// How far the object is.
    pub stage: Stage,
    /// What the number stands for.
    pub object: Object,
}

impl Drop for Place {
    fn drop(self) {
        let Place {
            stage: _,
            object: _,
        } = self;
    }
}

/// What is kept of a number that is in use: its place, how many names of shown directories give the
/// number, and the permissions and the owner of an inode, where they were set.
///
/// A `usize` can count the directories, and the names of each. So a `u128` can count all names.
struct Header {
    place: Place,
    links: u128,
    rights: Option<Rights>,
}

impl Drop for Header {
    fn drop(self) {
        let Header {
            place: _,
            links: _,
            rights: _,
        } = self;
    }
}

/// The objects, and the objects to come.
///
/// A number is given out by [`Store::reserve_num`] alone, and again only once it was given up.
pub struct Store {
    headers: Slab<Header, Heap>,
    root: Num,
}

impl Drop for Store {
    fn drop(self) {
        let Store {
            headers: _,
            root: _,
        } = self;
    }
}

impl Model for Store {
    ghost use Rattle.store.specs.contracts.Place as place;
    ghost use Rattle.store.specs.Headers.{AreCounted, places_of, rights_of};
    ghost use Rattle.store.specs.Numbers.{Numbers, numbers_code};

    ghost Value = { Numbers };

    ghost coded = { numbers_code place.the_row.coded };

    ghost view = { λ s. record {
      places = places_of s.headers;
      rights = rights_of s.headers;
      root = s.root;
    } };

    ghost invariant = { λ s. AreCounted s.headers };
}

impl Store {
    /// A root without names, and nothing else. Refused memory makes nothing.
    pub fn new(heap: Heap) -> Result<Store, AllocError>
        ensures first { IfOk result IsFirstRoot }
        ensures root { IfOk result (λ s. s.root ≡ 0) }
        ensures shown { IfOk result
            (λ s. inodes s ≡ map.insert map.empty s.root (A_directory map.empty)) }
        ensures open { IfOk result (λ s. descriptions s ≡ map.empty) }
        ensures unset { IfOk result (λ s. s.rights ≡ map.empty) }
    {
        let mut headers = Slab::new(heap);
        let root = headers.insert(Header {
            place: Place {
                stage: Stage::Held,
                object: Object::Directory(Dir::new(heap)),
            },
            links: 0,
            rights: None,
        })?;
        Ok(Store {
            headers,
            root: Num(root),
        })
    }

    /// The number of the root.
    pub fn root(&self) -> Num
        ensures { result ≡ self.now.root }
    {
        self.root
    }

    /// Reserves a number that is not in use for an object to come, which has no names. Refused
    /// memory changes nothing, and the object goes.
    pub fn reserve_num(&mut self, object: Object) -> Result<Num, AllocError>
        requires { names_of_inode (inode_of object) ≡ map.empty }
        ensures unused { IfOk result (λ num. map.get self.old.places num ≡ None) }
        ensures reserved { IfOk result (λ num. self.new ≡ record self.old {
          places = map.insert self.old.places num (coming object);
        }) }
        ensures ready { IfOk result (λ num. map.get self.new.places num ≡ Some (coming object)) }
        ensures shown { OnOk result (inodes self.new ≡ inodes self.old) }
        ensures open { OnOk result (descriptions self.new ≡ descriptions self.old) }
        ensures rights { OnOk result (self.new.rights ≡ self.old.rights) }
        ensures err { OnErr result (self.new ≡ self.old) }
    {
        let num = self.headers.insert(Header {
            place: Place {
                stage: Stage::Coming,
                object,
            },
            links: 0,
            rights: None,
        })?;
        Ok(Num(num))
    }

    /// Shows the object to come of a number, or changes nothing where the number has none to come.
    /// It takes no memory.
    pub fn install(&mut self, num: Num)
        ensures installed { self.new ≡ altered installed self.old num }
        ensures shown { (object : Object) →
            map.get self.old.places num ≡ Some (coming object) →
            inodes self.new ≡ with_inode (inodes self.old) num (inode_of object) }
        ensures open { (object : Object) →
            map.get self.old.places num ≡ Some (coming object) →
            descriptions self.new
            ≡ with_value (descriptions self.old) num (description_of object) }
    {
        headers::install_at(&mut self.headers, num.0);
    }

    /// The number for a file or a description to come stands for this one from now on, which is
    /// shown. It takes no memory.
    pub fn install_as(&mut self, num: Num, object: Object)
        requires coming { map.get self.old.places num ≡ Some (coming Nothing) }
        requires bare { names_of_inode (inode_of object) ≡ map.empty }
        ensures installed { self.new ≡ record self.old {
          places = map.insert self.old.places num (present object);
        } }
        ensures shown { inodes self.new ≡ with_inode (inodes self.old) num (inode_of object) }
        ensures open { descriptions self.new
            ≡ with_value (descriptions self.old) num (description_of object) }
    {
        contents::settle_at(&mut self.headers, num.0, object);
    }

    /// The object of a number is shown no more, and the rights that were set of it go. The number is
    /// given up with it, unless room in it is still promised: then it goes with the last promise.
    /// Where the number is not in use, nothing changes. It takes no memory.
    ///
    /// No name gives the number, and a directory has no names.
    pub fn lose(&mut self, num: Num)
        requires unnamed { links_in (inodes self.old) num ≡ 0 }
        requires bare { names_of_inode (map.get (inodes self.old) num) ≡ map.empty }
        ensures lost { self.new ≡ lost self.old num }
        ensures shown { inodes self.new ≡ map.remove (inodes self.old) num }
        ensures open { descriptions self.new ≡ map.remove (descriptions self.old) num }
        ensures unset { self.new.rights ≡ map.remove self.old.rights num }
    {
        headers::set_rights_at(&mut self.headers, num.0, None);
        headers::hide_at(&mut self.headers, num.0);
        self.sweep(num);
    }

    // Gives up the number of a removed object in which no room is promised.
    fn sweep(&mut self, num: Num)
        ensures { self.new ≡ swept self.old num }
    {
        if headers::is_over_at(&self.headers, num.0) {
            headers::free_at(&mut self.headers, num.0);
        }
    }

    /// The object of a number, where it is shown.
    pub fn get(&self, num: Num) -> Option<&Object>
        ensures object { option_copied result ≡ object_at self.now num }
        ensures shown { map.get (inodes self.now) num ≡
            option_and_then inode_of (option_copied result) }
    {
        headers::object_in(&self.headers, num.0)
    }

    /// The directory of a number, where it is shown.
    pub fn directory(&self, dir: Num) -> Option<&Dir>
        ensures listing { option_copied result ≡
            option_and_then listing_of (object_at self.now dir) }
        ensures shown { names_of_inode (map.get (inodes self.now) dir) ≡
            names_of_inode (mapped (λ listing. A_directory listing.names) (option_copied result)) }
    {
        match self.get(dir) {
            Some(Object::Directory(dir)) => Some(dir),
            Some(Object::File(_)) => None,
            Some(Object::Pipe(_)) => None,
            Some(Object::Fixed(_)) => None,
            Some(Object::Description(_)) => None,
            Some(Object::Nothing) => None,
            None => None,
        }
    }

    /// The file of a number, where it is shown.
    pub fn file(&self, num: Num) -> Option<&FileData>
        ensures content { option_copied result
            ≡ option_map (λ f. f.bytes) (option_and_then file_of (object_at self.now num)) }
        ensures shown { file_inode (map.get (inodes self.now) num)
            ≡ mapped (λ content. A_file content.bytes) (option_copied result) }
    {
        match self.get(num) {
            Some(Object::File(file)) => Some(&file.bytes),
            Some(Object::Pipe(_)) => None,
            Some(Object::Fixed(_)) => None,
            Some(Object::Directory(_)) => None,
            Some(Object::Description(_)) => None,
            Some(Object::Nothing) => None,
            None => None,
        }
    }

    /// The pipe of a number, where it is shown.
    pub fn pipe(&self, num: Num) -> Option<&OpenPipe>
        ensures pipe { option_copied result ≡ option_and_then pipe_of (object_at self.now num) }
        ensures shown { pipe_inode (map.get (inodes self.now) num)
            ≡ mapped (λ pipe. A_pipe pipe.bytes) (option_copied result) }
    {
        match self.get(num) {
            Some(Object::Pipe(pipe)) => Some(pipe),
            Some(Object::Fixed(_)) => None,
            Some(Object::Directory(_)) => None,
            Some(Object::File(_)) => None,
            Some(Object::Description(_)) => None,
            Some(Object::Nothing) => None,
            None => None,
        }
    }

    /// The target of the symbolic link of a number, where one is shown; else no bytes.
    pub fn target(&self, num: Num) -> &[u8]
        ensures value { result.now ≡ target_of_inode (map.get (inodes self.now) num) }
        ensures small { length result.now ≤ TARGET_LIMIT }
    {
        match self.get(num) {
            Some(Object::Fixed(fixed)) => fixed.target(),
            Some(Object::Directory(_)) => &[],
            Some(Object::File(_)) => &[],
            Some(Object::Pipe(_)) => &[],
            Some(Object::Description(_)) => &[],
            Some(Object::Nothing) => &[],
            None => &[],
        }
    }

    /// The open file description of a number, where it is shown.
    pub fn description(&self, num: Num) -> Option<Description>
        ensures { result ≡ map.get (descriptions self.now) num }
    {
        match self.get(num) {
            Some(Object::Description(opened)) => Some(opened.description),
            Some(Object::Directory(_)) => None,
            Some(Object::File(_)) => None,
            Some(Object::Pipe(_)) => None,
            Some(Object::Fixed(_)) => None,
            Some(Object::Nothing) => None,
            None => None,
        }
    }

    /// What kind of inode a number stands for, where one is shown.
    pub fn kind(&self, num: Num) -> Option<Kind>
        ensures { result ≡ mapped kind (map.get (inodes self.now) num) }
    {
        match self.get(num) {
            Some(Object::Directory(_)) => Some(Kind::Dir),
            Some(Object::File(_)) => Some(Kind::File),
            Some(Object::Pipe(_)) => Some(Kind::Pipe),
            Some(Object::Fixed(fixed)) => Some(fixed.kind()),
            Some(Object::Description(_)) => None,
            Some(Object::Nothing) => None,
            None => None,
        }
    }

    /// The permissions and the owner of a number's inode, where they were set. It takes no memory.
    pub fn rights(&self, num: Num) -> Option<Rights>
        ensures { result ≡ map.get self.now.rights num }
    {
        headers::rights_at(&self.headers, num.0)
    }

    /// Sets the permissions and the owner of an inode, which is shown. It takes no memory.
    pub fn set_rights(&mut self, num: Num, rights: Rights)
        requires { map.get (inodes self.old) num ≢ None }
        ensures { self.new ≡ record self.old {
          rights = map.insert self.old.rights num rights;
        } }
    {
        headers::set_rights_at(&mut self.headers, num.0, Some(rights));
    }

    /// Puts other bytes in the place of a file's, which are answered. The file is shown. It takes
    /// no memory.
    pub fn swap_file(&mut self, num: Num, bytes: FileData) -> FileData
        requires { IsSome (option_and_then file_of (object_at self.old num)) }
        ensures former { option_map (λ f. f.bytes) (file_in (map.get self.old.places num))
            ≡ Some result }
        ensures swapped { self.new ≡ altered (with_file (with_bytes bytes)) self.old num }
        ensures shown { inodes self.new ≡ map.insert (inodes self.old) num (A_file bytes.bytes) }
        ensures open { descriptions self.new ≡ descriptions self.old }
    {
        contents::swap_file_at(&mut self.headers, num.0, bytes)
    }

    /// Writes bytes into a file from an offset on, and fills a gap before them with zero bytes. The
    /// file is shown. Refused memory changes no byte.
    pub fn write_file(&mut self, num: Num, offset: usize, bytes: &[u8]) -> Result<(), AllocError>
        requires file { IsSome (option_and_then file_of (object_at self.old num)) }
        requires small { offset + length bytes.now ≤ LARGEST_FILE }
        ensures ok { OnOk result (Refilled
            (written (file_of_inode (map.get (inodes self.old) num)) offset bytes.now)
            (λ content. self.new ≡ altered (with_file (with_bytes content)) self.old num)) }
        ensures err { OnErr result (Refilled (file_of_inode (map.get (inodes self.old) num))
            (λ content. self.new ≡ altered (with_file (with_bytes content)) self.old num)) }
    {
        contents::write_file_at(&mut self.headers, num.0, offset, bytes)
    }

    /// Takes so many bytes from the front of a pipe, and appends these. The pipe is shown, it has so
    /// many, and what is appended fits then. It takes no memory.
    pub fn change_pipe(&mut self, num: Num, taken: usize, appended: &[u8])
        requires { IsRoomy taken appended.now (option_and_then pipe_of (object_at self.old num)) }
        ensures changed { self.new ≡ altered (with_pipe (passed taken appended.now)) self.old num }
        ensures shown { inodes self.new ≡ map.insert (inodes self.old) num
            (A_pipe (drop taken (pipe_of_inode (map.get (inodes self.old) num)) ++ appended.now)) }
        ensures open { descriptions self.new ≡ descriptions self.old }
    {
        contents::change_pipe_at(&mut self.headers, num.0, taken, appended);
    }

    /// A description's next read or write begins at this offset; where the number is of none,
    /// nothing changes. It takes no memory.
    pub fn set_offset(&mut self, num: Num, offset: u64)
        ensures moved { self.new ≡ altered (with_opened (moved_to offset)) self.old num }
        ensures shown { inodes self.new ≡ inodes self.old }
        ensures open { descriptions self.new ≡ with_offset offset (descriptions self.old) num }
    {
        contents::set_offset_at(&mut self.headers, num.0, offset);
    }

    /// For the proof: a `usize` can count the numbers that are in use.
    pub fn numbers_are_few(&self)
        ensures { map.len self.now.places < 2 ^ 64 }
    {
        headers::numbers_are_few(&self.headers);
    }
}
