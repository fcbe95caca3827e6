// All nodes of a mount.
ghost use Rattle.std.specs.Prelude.{◌≡◌, ◌<◌, ◌≤◌, IfOk, IfSome, IsOk, OnErr, OnOk, Some};
ghost use Rattle.std.specs.Prelude.{option_copied, option_map};
ghost use Rattle.model.specs.FiniteMap as map;
ghost use Rattle.nodes.specs.Tables.{added, detached, exchanged, forgotten, if_of, is_current};
ghost use Rattle.nodes.specs.Tables.{is_this, known, led_both, looked_up, made, moved, number_for};
ghost use Rattle.nodes.specs.Tables.{placed_both, root_by, root_of, unlinked, without};
ghost use Rattle.nodes.specs.Numbers.{IsFresh, IsGivenFor};
ghost use Rattle.nodes.specs.Parts.{room_of};
ghost use Rattle.nodes.specs.Paths.{IsAdded, path_of, way_to};

use crate::births::Births;
use crate::directory_entry::{DirectoryEntry, Spot};
use crate::index::Index;
use crate::list::NodeList;
use crate::node::Node;
use heap::Heap;
use ids::{Bytes, Kind, Num, PATH_LIMIT};
use std::alloc::AllocError;
use std::marker::Model;

/// The first number that a node gets. Those below are for roots.
pub const FIRST_NUMBER: u64 = 16;

/// No node has this number or a higher one.
pub const LAST_NUMBER: u64 = 1 << 62;

/// The most names of a path, and one step more for the root.
pub const NAMES_LIMIT: u32 = 2049;

/// What the numbers of nodes stand for. A number that is none of a node is a root's.
pub struct Nodes {
    list: NodeList,
    index: Index,
    births: Births,
    next: u64,
}

impl Drop for Nodes {
    fn drop(self) {
        let Nodes {
            list: _,
            index: _,
            births: _,
            next: _,
        } = self;
    }
}

impl Model for Nodes {
    ghost use Rattle.nodes.specs.declared.nodes.TheConstants.{LAST_NUMBER};
    ghost use Rattle.std.specs.Prelude.{◌≤◌};
    ghost use Rattle.nodes.specs.Parts.{Stored, stored_code, room_of, table_of};
    ghost use Rattle.nodes.specs.Numbers.{IsOrderly};

    ghost Value = { Stored };

    ghost coded = { stored_code };

    ghost view = { λ n. record {
      table = table_of n.list.nodes n.index.numbers n.births.counts n.next;
      room = room_of LAST_NUMBER n.next n.list.room n.index.room;
      birth_room = n.births.room;
    } };

    ghost invariant = { λ n. (n.next ≤ LAST_NUMBER)
        × IsOrderly (table_of n.list.nodes n.index.numbers n.births.counts n.next) };
}

// The root below which a node is, or the number itself where it is a root's.
fn root_in(list: &NodeList, number: u64) -> u64
    ensures { result ≡ root_by number (map.get list.now.nodes number) }
{
    match list.get(number) {
        Some(node) => node.root,
        None => number,
    }
}

// How many look-ups of a node are not forgotten.
fn lookups_of(list: &NodeList, number: u64) -> Option<u64>
    ensures { result ≡ option_map (λ n. n.lookups) (map.get list.now.nodes number) }
{
    match list.get(number) {
        Some(node) => Some(node.lookups),
        None => None,
    }
}

// The number, where its node stands for this object: the last that was made with its number.
fn if_of(list: &NodeList, number: u64, inode: Num, births: u64) -> Option<u64>
    ensures { result ≡ if_of inode births number (map.get list.now.nodes number) }
{
    let node = list.get(number)?;
    if node.inode == inode && node.birth == births {
        Some(number)
    } else {
        None
    }
}

// Whether an entry leads to this number.
fn leads_to(index: &Index, number: u64, entry: &DirectoryEntry) -> bool
    ensures { result ≡ is_this number (map.get index.now.numbers entry.now) }
{
    match index.get(entry) {
        Some(found) => found == number,
        None => false,
    }
}

// Makes room in both tables of nodes for one more. It is refused also where no number is left.
fn reserve_both(next: u64, list: &mut NodeList, index: &mut Index) -> Result<(), AllocError>
    ensures nodes { list.new.nodes ≡ list.old.nodes }
    ensures numbers { index.new.numbers ≡ index.old.numbers }
    ensures left { OnOk result (next < LAST_NUMBER) }
    ensures listed { OnOk result (0 < list.new.room) }
    ensures indexed { OnOk result (0 < index.new.room) }
    ensures succeeds { 0 < room_of LAST_NUMBER next list.old.room index.old.room → IsOk result }
{
    if next >= LAST_NUMBER {
        return Err(AllocError);
    }
    list.reserve()?;
    index.reserve()
}

// An entry leads nowhere any more, where it leads to this number.
fn unlink(index: &mut Index, number: u64, entry: &DirectoryEntry)
    ensures { index.new.numbers ≡ without number entry.now index.old.numbers }
{
    if leads_to(index, number, entry) {
        index.remove(entry);
    }
}

// A node goes, and its entry leads nowhere then, if it led to it.
fn drop_node(list: &mut NodeList, index: &mut Index, number: u64)
    ensures nodes { list.new.nodes ≡ map.remove list.old.nodes number }
    ensures numbers { index.new.numbers
        ≡ unlinked number (map.get list.old.nodes number) index.old.numbers }
{
    if let Some(node) = list.remove(number) {
        unlink(index, number, &node.entry);
        drop(node);
    }
}

impl Nodes {
    /// No node. It takes no memory.
    pub fn new(heap: Heap) -> Nodes
        ensures nodes { result.table.nodes ≡ map.empty }
        ensures numbers { result.table.numbers ≡ map.empty }
        ensures births { result.table.births ≡ map.empty }
        ensures next { result.table.next ≡ 16 }
    {
        Nodes {
            list: NodeList::new(heap),
            index: Index::new(heap),
            births: Births::new(heap),
            next: FIRST_NUMBER,
        }
    }

    /// The node of a number.
    pub fn get(&self, number: u64) -> Option<&Node>
        ensures { option_copied result ≡ map.get self.now.table.nodes number }
    {
        self.list.get(number)
    }

    /// The number to which an entry leads.
    pub fn number_at(&self, entry: &DirectoryEntry) -> Option<u64>
        ensures { result ≡ map.get self.now.table.numbers entry.now }
    {
        self.index.get(entry)
    }

    /// The root below which a node is, or the number itself where it is a root's.
    pub fn root_of(&self, number: u64) -> u64
        ensures { result ≡ root_of self.now.table number }
    {
        root_in(&self.list, number)
    }

    /// Whether a node stands for the object that its object's number means now. After another was made
    /// with that number it does no more. A number that is no node is a root's, which always does.
    pub fn is_current(&self, number: u64) -> bool
        ensures { result ≡ is_current self.now.table number }
    {
        match self.list.get(number) {
            Some(node) => node.birth == self.births.get(node.inode),
            None => true,
        }
    }

    /// Makes room for one object that is made, and for one node more, so that it can be noted and the
    /// look-up or move behind that takes no memory. It is refused also where no number is left. Nothing
    /// changes.
    pub fn reserve(&mut self) -> Result<(), AllocError>
        ensures table { self.new.table ≡ self.old.table }
        ensures ok { OnOk result (0 < self.new.room) }
        ensures birth { OnOk result (0 < self.new.birth_room) }
        ensures succeeds { 0 < self.old.room → 0 < self.old.birth_room → IsOk result }
    {
        reserve_both(self.next, &mut self.list, &mut self.index)?;
        self.births.reserve()
    }

    /// An object was made with this number: nodes of the one that had it before stand for that still,
    /// and not for the new one. The room for nodes stays. Refused memory changes nothing.
    pub fn note_made(&mut self, inode: Num) -> Result<(), AllocError>
        ensures ok { OnOk result (self.new.table ≡ made self.old.table inode) }
        ensures err { OnErr result (self.new.table ≡ self.old.table) }
        ensures next { self.new.table.next ≡ self.old.table.next }
        ensures room { self.new.room ≡ self.old.room }
        ensures succeeds { 0 < self.old.birth_room → IsOk result }
    {
        self.births.note(inode)
    }

    // The number to which an entry leads, where that stands for this object.
    fn known(&self, entry: &DirectoryEntry, inode: Num) -> Option<u64>
        ensures known { result ≡ known self.now.table entry.now inode }
        ensures range { IfSome result (λ number.
            (FIRST_NUMBER ≤ number) × (number < LAST_NUMBER)) }
    {
        let number = self.index.get(entry)?;
        if_of(&self.list, number, inode, self.births.get(inode))
    }

    // An entry leads to a new node.
    fn add(&mut self, spot: Spot, inode: Num, kind: Kind) -> Result<u64, AllocError>
        ensures ok { OnOk result (self.new.table ≡ added self.old.table spot inode kind) }
        ensures number { IfOk result (λ number. number ≡ self.old.table.next) }
        ensures fresh { IfOk result (IsFresh self.old.table self.new.table) }
        ensures range { IfOk result (λ number. (FIRST_NUMBER ≤ number) × (number < LAST_NUMBER)) }
        ensures err { OnErr result (self.new.table ≡ self.old.table) }
        ensures succeeds { 0 < self.old.room → IsOk result }
    {
        reserve_both(self.next, &mut self.list, &mut self.index)?;
        let number = self.next;
        let root = root_in(&self.list, spot.entry().parent);
        let (entry, copy) = spot.into_both();
        let node = Node {
            entry,
            root,
            inode,
            birth: self.births.get(inode),
            kind,
            lookups: 1,
        };
        let listed: Result<_, _> = self.list.insert(number, node);
        listed.unwrap();
        let indexed: Result<_, _> = self.index.insert(copy, number);
        indexed.unwrap();
        self.next = number + 1;
        Ok(number)
    }

    /// A name was looked up and gave this object, which is of this kind. It gives the number of its
    /// node: the one to which the entry leads, where that stands for this object, and else a new one
    /// that none had before, to which it leads from now on. Refused memory changes nothing.
    pub fn look_up(&mut self, spot: Spot, inode: Num, kind: Kind) -> Result<u64, AllocError>
        ensures ok { OnOk result (self.new.table ≡ looked_up self.old.table spot inode kind) }
        ensures number { IfOk result (λ number. number ≡ number_for self.old.table spot inode) }
        ensures fresh { IfOk result
            (IsGivenFor (known self.old.table spot inode) self.old.table self.new.table) }
        ensures range { IfOk result (λ number. (FIRST_NUMBER ≤ number) × (number < LAST_NUMBER)) }
        ensures err { OnErr result (self.new.table ≡ self.old.table) }
        ensures succeeds { 0 < self.old.room → IsOk result }
    {
        match self.known(spot.entry(), inode) {
            Some(number) => {
                self.list.count(number);
                Ok(number)
            }
            None => self.add(spot, inode, kind),
        }
    }

    /// So many look-ups of a node are forgotten. With the last one it goes. It takes no memory.
    pub fn forget(&mut self, number: u64, count: u64)
        ensures table { self.new.table ≡ forgotten self.old.table number count }
        ensures next { self.new.table.next ≡ self.old.table.next }
    {
        let Some(lookups) = lookups_of(&self.list, number) else {
            return;
        };
        if lookups > count {
            self.list.lessen(number, count);
        } else {
            drop_node(&mut self.list, &mut self.index, number);
        }
    }

    /// A name was taken away: its entry leads nowhere any more. It takes no memory.
    pub fn detach(&mut self, entry: &DirectoryEntry)
        ensures table { self.new.table ≡ detached self.old.table entry.now }
        ensures next { self.new.table.next ≡ self.old.table.next }
    {
        self.index.remove(entry);
    }

    /// A name was moved: what the first entry led to is at the second. What that led to before is
    /// attached no more. Refused memory changes nothing.
    pub fn move_entry(&mut self, from: &DirectoryEntry, to: Spot) -> Result<(), AllocError>
        ensures ok { OnOk result (self.new.table ≡ moved self.old.table from.now to) }
        ensures err { OnErr result (self.new.table ≡ self.old.table) }
        ensures next { self.new.table.next ≡ self.old.table.next }
        ensures succeeds { 0 < self.old.room → IsOk result }
    {
        let Some(number) = self.index.get(from) else {
            self.index.remove(to.entry());
            return Ok(());
        };
        self.index.reserve()?;
        let (entry, copy) = to.into_both();
        self.index.remove(from);
        let indexed: Result<_, _> = self.index.insert(copy, number);
        indexed.unwrap();
        self.list.put(number, entry);
        Ok(())
    }

    // What each of two entries leads to is at the other.
    fn place_both(&mut self, first: Spot, second: Spot, one: u64, other: u64)
        requires first { map.get self.old.table.numbers first ≡ Some one }
        requires second { map.get self.old.table.numbers second ≡ Some other }
        ensures table { self.new.table ≡ record self.old.table {
          nodes = placed_both first second one other self.old.table.nodes;
          numbers = led_both first second one other self.old.table.numbers;
        } }
        ensures next { self.new.table.next ≡ self.old.table.next }
    {
        self.index.lead(second.entry(), one);
        self.index.lead(first.entry(), other);
        let (at_second, _) = second.into_both();
        self.list.put(one, at_second);
        let (at_first, _) = first.into_both();
        self.list.put(other, at_first);
    }

    /// Two names were exchanged: what each entry led to is at the other. Refused memory changes nothing.
    pub fn exchange(&mut self, first: Spot, second: Spot) -> Result<(), AllocError>
        ensures ok { OnOk result (self.new.table ≡ exchanged self.old.table first second) }
        ensures err { OnErr result (self.new.table ≡ self.old.table) }
        ensures next { self.new.table.next ≡ self.old.table.next }
        ensures succeeds { 0 < self.old.room → IsOk result }
    {
        let one = self.index.get(first.entry());
        let other = self.index.get(second.entry());
        match (one, other) {
            (Some(one), Some(other)) => {
                self.place_both(first, second, one, other);
                Ok(())
            }
            (Some(_), None) => self.move_entry(first.entry(), second),
            (None, Some(_)) => self.move_entry(second.entry(), first),
            (None, None) => Ok(()),
        }
    }

    // Puts the names from a root down to a node behind the bytes, each after a slash, through at most
    // so many names, and gives the root. There is no way through a node that is not attached.
    fn put_way(
        &self,
        most: u32,
        number: u64,
        out: &mut Vec<u8, Heap>,
    ) -> Result<Option<u64>, AllocError>
        ensures { IfOk result (λ root.
            IsAdded (way_to self.now.table most number) out.old.items root out.new.items) }
    {
        if most == 0 {
            return Ok(None);
        }
        let Some(node) = self.list.get(number) else {
            return Ok(Some(number));
        };
        if !leads_to(&self.index, number, &node.entry) {
            return Ok(None);
        }
        let Some(root) = self.put_way(most - 1, node.entry.parent, out)? else {
            return Ok(None);
        };
        out.push(b'/')?;
        out.extend_from_slice(node.entry.name.as_slice())?;
        Ok(Some(root))
    }

    /// The root below which a node is, and its path from there, which begins with a slash, or is
    /// empty for the root itself. None where a node on the way is not attached, or the path has more
    /// than 4,096 bytes.
    pub fn path(&self, heap: Heap, number: u64) -> Result<Option<(u64, Bytes)>, AllocError>
        ensures { IfOk result (λ path. path ≡ path_of self.now.table number) }
    {
        let mut bytes = Vec::new(heap);
        let Some(root) = self.put_way(NAMES_LIMIT, number, &mut bytes)? else {
            return Ok(None);
        };
        let length = bytes.as_slice().len();
        if length > PATH_LIMIT {
            return Ok(None);
        }
        Ok(Some((root, Bytes::new(bytes))))
    }
}
