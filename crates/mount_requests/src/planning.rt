// Where requests find what they name: paths for the kernel, and entries of directories.
ghost use Rattle.std.specs.Prelude.{◌≡◌, ◌<◌, ◌++◌, ◌∷◌, option_map, IfOk, IfSome, OnOk};
ghost use Rattle.mount_requests.specs.Answers.{IsPlanned};
ghost use Rattle.mount_requests.specs.Found.{again, each_use, home_in, located, located_child};
ghost use Rattle.mount_requests.specs.Found.{located_made, located_new, located_own, object_of};
ghost use Rattle.mount_requests.specs.Found.{own_path, own_paths, path_to, paths_to, place_of};
ghost use Rattle.mount_requests.specs.Found.{twice};
ghost use Rattle.mount_requests.specs.Requests.{in_one_view};
ghost use Rattle.mount_requests.specs.Seen.{seen};
ghost use Rattle.mount_requests.specs.Told.{named};

use crate::failure::Failure;
use crate::tables::{Stepper, Tables};
use course::{Again, Object, Paths, Place, Twice};
use fuse::Errno;
use heap::Heap;
use ids::{Bytes, Num, Pid};
use mount_tables::is_reserved;
use nodes::Spot;
use std::alloc::AllocError;

// Where a node is: its view, and the path.
#[derive(Drop)]
pub(crate) struct Located {
    pub(crate) view: u64,
    pub(crate) path: Bytes,
}

// Where a name of a directory is: its view, its path, and the directory, if it is no root.
#[derive(Drop)]
pub(crate) struct LocatedName {
    pub(crate) view: u64,
    pub(crate) path: Bytes,
    pub(crate) place: Option<Place>,
}

// Where something is made: its view, its path, that path once for each further use, and its directory,
// a root too.
#[derive(Drop)]
pub(crate) struct NewName {
    pub(crate) view: u64,
    pub(crate) path: Bytes,
    pub(crate) again: Again,
    pub(crate) parent: Place,
}

// The path of a root is a slash.
fn own_path(heap: Heap, path: Bytes) -> Result<Bytes, AllocError>
    ensures { IfOk result (λ own. own ≡ own_path path) }
{
    if path.as_slice().is_empty() {
        Bytes::copy(heap, b"/")
    } else {
        Ok(path)
    }
}

// The path of a name in a directory.
fn child_path(heap: Heap, path: &Bytes, name: &Bytes) -> Result<Bytes, AllocError>
    ensures { IfOk result (λ child. child ≡ path.now ++ 47 ∷ name.now) }
{
    let mut bytes = Vec::from_slice(heap, path.as_slice())?;
    bytes.push(b'/')?;
    bytes.extend_from_slice(name.as_slice())?;
    Ok(Bytes::new(bytes))
}

// The directory of a name, by its path and its object. The path of a root is empty, and a root is never
// moved.
fn place_of(inode: Num, path: Bytes) -> Option<Place>
    ensures { result ≡ place_of inode path }
{
    if path.as_slice().is_empty() {
        None
    } else {
        Some(Place { path, inode })
    }
}

// The directory in which something is made. A root is the first object of all.
fn home_in(heap: Heap, place: Option<Place>) -> Result<Place, AllocError>
    ensures { IfOk result (λ home. home ≡ home_in place) }
{
    match place {
        Some(place) => Ok(place),
        None => {
            let path = Bytes::copy(heap, b"/")?;
            Ok(Place {
                path,
                inode: Num(0),
            })
        }
    }
}

// The path of what is made, once for each further use.
fn again(path: &Bytes) -> Result<Again, AllocError>
    ensures { IfOk result (λ paths. paths ≡ again path.now) }
{
    let owned = path.try_clone()?;
    let permitted = path.try_clone()?;
    let told = path.try_clone()?;
    Ok(Again {
        owned,
        permitted,
        told,
    })
}

// The path of an object, once for each use.
fn each_use(path: Bytes) -> Result<Paths, AllocError>
    ensures { IfOk result (λ paths. paths ≡ each_use path) }
{
    let Again {
        owned,
        permitted,
        told,
    } = again(&path)?;
    Ok(Paths {
        looked: told,
        sized: path,
        owned,
        permitted,
    })
}

// A path, to be used twice.
pub(crate) fn twice(path: Bytes) -> Result<Twice, AllocError>
    ensures { IfOk result (λ paths. paths ≡ twice path) }
{
    let second = path.try_clone()?;
    Ok(Twice {
        first: path,
        second,
    })
}

// Nothing is linked or moved from one view to another.
pub(crate) fn in_one_view(from: u64, to: u64) -> Result<(), Failure>
    ensures { result ≡ in_one_view from to }
{
    if from == to {
        Ok(())
    } else {
        Err(Failure::Error(Errno::EXDEV))
    }
}

impl Tables {
    // Where a node is. A root has an empty path, and a node that has none is nowhere.
    fn locate(&self, node: u64) -> Result<Located, Failure>
        ensures { IsPlanned (located (seen self.now) node) result }
    {
        let Stepper { view, pid: _ } = self.stepper_at(node)?;
        match self.path_to(node)? {
            Some(path) => Ok(Located { view, path }),
            None => Err(Failure::Error(Errno::ESTALE)),
        }
    }

    // Where a node is, as the kernel takes it.
    pub(crate) fn locate_own(&self, node: u64) -> Result<Located, Failure>
        ensures { IsPlanned (located_own (seen self.now) node) result }
    {
        let Located { view, path } = self.locate(node)?;
        let own = own_path(self.heap, path)?;
        Ok(Located { view, path: own })
    }

    // Where a name of a directory is.
    pub(crate) fn locate_child(&self, node: u64, name: &Bytes) -> Result<LocatedName, Failure>
        ensures { IsPlanned (located_child (seen self.now) node name.now) result }
    {
        let Located { view, path } = self.locate(node)?;
        let child = child_path(self.heap, &path, name)?;
        Ok(LocatedName {
            view,
            path: child,
            place: place_of(self.inode_of(node), path),
        })
    }

    // Where a name is to be made, moved or taken away. That of the directory of transactions is not
    // for others.
    pub(crate) fn locate_new(&self, node: u64, name: &Bytes) -> Result<LocatedName, Failure>
        ensures { IsPlanned (located_new (seen self.now) node name.now) result }
    {
        if is_reserved(node, name.as_slice()) {
            return Err(Failure::Error(Errno::EPERM));
        }
        self.locate_child(node, name)
    }

    // Where something is to be made, as the kernel takes it.
    pub(crate) fn locate_made(&self, node: u64, name: &Bytes) -> Result<NewName, Failure>
        ensures { IsPlanned (located_made (seen self.now) node name.now) result }
    {
        let LocatedName { view, path, place } = self.locate_new(node, name)?;
        let again = again(&path)?;
        let parent = home_in(self.heap, place)?;
        Ok(NewName {
            view,
            path,
            again,
            parent,
        })
    }

    // The path of a node as the kernel takes it, where it has one.
    fn own_path_to(&self, node: u64) -> Result<Option<Bytes>, AllocError>
        ensures { IfOk result (λ path. path ≡ option_map own_path (path_to (seen self.now) node)) }
    {
        match self.path_to(node)? {
            Some(path) => Ok(Some(own_path(self.heap, path)?)),
            None => Ok(None),
        }
    }

    // The same, to be used twice.
    pub(crate) fn own_paths(&self, node: u64) -> Result<Option<Twice>, AllocError>
        ensures paths { IfOk result (λ paths. paths ≡ own_paths (seen self.now) node) }
        ensures same { IfOk result (λ paths. IfSome paths (λ p. p.second ≡ p.first)) }
    {
        match self.own_path_to(node)? {
            Some(path) => Ok(Some(twice(path)?)),
            None => Ok(None),
        }
    }

    // The same, once for each use.
    pub(crate) fn paths_to(&self, node: u64) -> Result<Option<Paths>, AllocError>
        ensures { IfOk result (λ paths. paths ≡ paths_to (seen self.now) node) }
    {
        match self.own_path_to(node)? {
            Some(path) => Ok(Some(each_use(path)?)),
            None => Ok(None),
        }
    }

    // The object of a node, and how it is found.
    pub(crate) fn find_object(&self, pid: Pid, node: u64) -> Result<Object, Failure>
        ensures { IsPlanned (object_of (seen self.now) pid node) result }
    {
        let Stepper { view, pid: _ } = self.stepper_at(node)?;
        let path = self.own_path_to(node)?;
        let inode = self.inode_of(node);
        let kind = self.kind_of(node);
        let fd = self.fd_of(pid, view, node);
        Ok(Object {
            inode,
            kind,
            path,
            fd,
        })
    }

    // A name of a directory, with room for its node, and for an object that is made.
    pub(crate) fn spot_for(&mut self, node: u64, name: &Bytes) -> Result<Spot, AllocError>
        ensures entry { IfOk result (λ spot. spot ≡ named node name.now) }
        ensures room { OnOk result (0 < self.new.nodes.room) }
        ensures birth { OnOk result (0 < self.new.nodes.birth_room) }
        ensures seen { seen self.new ≡ seen self.old }
        ensures files { self.new.files ≡ self.old.files }
        ensures times { self.new.times ≡ self.old.times }
    {
        let spot = Spot::new(self.heap, node, name.as_slice())?;
        self.nodes.reserve()?;
        Ok(spot)
    }
}
