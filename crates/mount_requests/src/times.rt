// What requests do to times, and what is told of them.
ghost use Rattle.std.specs.Prelude.{◌≡◌, ◌+◌, ◌≤◌, ◌<◌, OnOk, option_map};
ghost use Rattle.nodes.specs.Tables.{is_current};
ghost use Rattle.view_times.specs.Kept.{room_of};
ghost use Rattle.view_times.specs.Known.{noted_by};
ghost use Rattle.mount_requests.specs.Found.{inode_of};
ghost use Rattle.mount_requests.specs.Later.{with_aborted};
ghost use Rattle.mount_requests.specs.Seen.{seen};
ghost use Rattle.mount_requests.specs.Times.{at_time, gave_one, inode_named, of_both, of_changes};
ghost use Rattle.mount_requests.specs.Times.{of_copying, of_cutting, of_exchanging, of_linking};
ghost use Rattle.mount_requests.specs.Times.{of_making, of_moving, of_removing, of_renaming};
ghost use Rattle.mount_requests.specs.Times.{of_setting, of_swapping};
ghost use Rattle.mount_requests.specs.Times.{of_writing, time_in, times_at, times_if, view_at};
ghost use Rattle.mount_requests.specs.Times.{noted_in, of_names, with_events, with_events_if};

use crate::tables::Tables;
use course::Cut;
use fuse::{Changes, Time, TimeChange};
use ids::{Num, Why};
use mount_tables::{PLAIN, view_of};
use nodes::DirectoryEntry;
use std::alloc::AllocError;
use view_times::{Event, Times, later};

// How many events a request notes, at most.
const MOST_EVENTS: usize = 4;

// A time that is set.
fn time_in(now: Time, change: TimeChange) -> Time
    ensures { result ≡ time_in now change }
{
    match change {
        TimeChange::Now(_) => now,
        TimeChange::At(time) => time,
    }
}

// The same, where it is set.
fn time_if(now: Time, change: Option<TimeChange>) -> Option<Time>
    ensures { result ≡ option_map (time_in now) change }
{
    match change {
        Some(change) => Some(time_in(now, change)),
        None => None,
    }
}

// What it is to the times of an object that this is set of it.
fn event_of(changes: &Changes, now: Time) -> Event
    ensures { result ≡ of_changes changes.now now }
{
    if changes.accessed.is_some() || changes.modified.is_some() {
        Event::TimesSet {
            accessed: time_if(now, changes.accessed),
            modified: time_if(now, changes.modified),
        }
    } else if changes.size.is_some() {
        Event::Modified
    } else {
        Event::StatusChanged
    }
}

// Whether both are known, and are one object.
fn gave_one(one: Option<Num>, other: Option<Num>) -> bool
    ensures { result ≡ gave_one one other }
{
    match (one, other) {
        (Some(one), Some(other)) => one == other,
        _ => false,
    }
}

impl Tables {
    /// The next request is served at this time, or at that of the one before, where that was later.
    pub fn set_time(&mut self, now: Time)
        ensures { seen self.new ≡ at_time now (seen self.old) }
    {
        self.time = later(now, self.time);
    }

    /// The transaction of a view is aborted, if it goes on, and what it has noted of times is gone. It
    /// takes no memory.
    pub fn note_abort(&mut self, view: u64, why: Why)
        ensures { seen self.new ≡ with_aborted (seen self.old) view why }
    {
        self.views.abort(view, why);
        self.times.abort(view);
    }

    // The view below whose root a node is.
    fn view_at(&self, node: u64) -> u64
        ensures { result ≡ view_at (seen self.now) node }
    {
        match view_of(self.nodes.root_of(node)) {
            Some(view) => view,
            None => PLAIN,
        }
    }

    // Makes room for what a request about a node notes.
    pub(crate) fn reserve_events(&mut self, node: u64) -> Result<(), AllocError>
        ensures seen { seen self.new ≡ seen self.old }
        ensures events { OnOk result (4 ≤ room_of self.new.times (view_at (seen self.old) node)) }
        ensures nodes { self.new.nodes ≡ self.old.nodes }
        ensures files { self.new.files ≡ self.old.files }
    {
        let view = self.view_at(node);
        self.times.reserve(view, MOST_EVENTS)
    }

    // An event of an object, in a view.
    fn note(&mut self, view: u64, inode: Num, event: Event)
        requires { 0 < room_of self.old.times view }
        ensures seen { seen self.new ≡ record (seen self.old) {
          times = noted_by (seen self.old).times view inode event (seen self.old).time;
        } }
        ensures events { room_of self.old.times view ≤ room_of self.new.times view + 1 }
        ensures nodes { self.new.nodes ≡ self.old.nodes }
        ensures files { self.new.files ≡ self.old.files }
    {
        let now = self.time;
        self.times.note(view, inode, event, now);
    }

    // An object was made in this directory, which a node gives.
    pub(crate) fn note_made(&mut self, node: u64, inode: Num)
        requires { 2 ≤ room_of self.old.times (view_at (seen self.old) node) }
        ensures seen { seen self.new
            ≡ with_events node (of_making inode (inode_of (seen self.old) node)) (seen self.old) }
        ensures nodes { self.new.nodes ≡ self.old.nodes }
        ensures files { self.new.files ≡ self.old.files }
    {
        let view = self.view_at(node);
        let directory = self.inode_of(node);
        self.note(view, inode, Event::Made);
        self.note(view, directory, Event::Modified);
    }

    // An object got a further name in this directory.
    pub(crate) fn note_linked(&mut self, node: u64, inode: Num)
        requires { 2 ≤ room_of self.old.times (view_at (seen self.old) node) }
        ensures seen { seen self.new
            ≡ with_events node (of_linking inode (inode_of (seen self.old) node)) (seen self.old) }
        ensures nodes { self.new.nodes ≡ self.old.nodes }
        ensures files { self.new.files ≡ self.old.files }
    {
        let view = self.view_at(node);
        let directory = self.inode_of(node);
        self.note(view, directory, Event::Modified);
        self.note(view, inode, Event::StatusChanged);
    }

    // The object that a name gave when it was looked up last, unless it is gone.
    fn inode_named(&self, entry: &DirectoryEntry) -> Option<Num>
        ensures { result ≡ inode_named (seen self.now) entry.now.parent entry.now.name }
    {
        let node = self.nodes.number_at(entry)?;
        if self.nodes.is_current(node) {
            Some(self.inode_of(node))
        } else {
            None
        }
    }

    // An object has another name than before, if it is known.
    fn note_name(&mut self, view: u64, inode: Option<Num>)
        requires { 0 < room_of self.old.times view }
        ensures seen { seen self.new ≡ noted_in view (of_names inode) (seen self.old) }
        ensures nodes { self.new.nodes ≡ self.old.nodes }
        ensures files { self.new.files ≡ self.old.files }
    {
        match inode {
            Some(inode) => self.note(view, inode, Event::StatusChanged),
            None => {}
        }
    }

    // A name goes from this directory.
    pub(crate) fn note_lost(&mut self, entry: &DirectoryEntry)
        requires { 2 ≤ room_of self.old.times (view_at (seen self.old) entry.now.parent) }
        ensures seen { seen self.new ≡ with_events entry.now.parent
            (of_removing (inode_named (seen self.old) entry.now.parent entry.now.name)
            (inode_of (seen self.old) entry.now.parent)) (seen self.old) }
        ensures nodes { self.new.nodes ≡ self.old.nodes }
        ensures files { self.new.files ≡ self.old.files }
    {
        let view = self.view_at(entry.parent);
        let lost = self.inode_named(entry);
        let directory = self.inode_of(entry.parent);
        self.note(view, directory, Event::Modified);
        self.note_name(view, lost);
    }

    // A name goes from its directory to another one, which a node gives.
    fn note_going(&mut self, entry: &DirectoryEntry, new_parent: u64)
        requires { 3 ≤ room_of self.old.times (view_at (seen self.old) entry.now.parent) }
        ensures seen { seen self.new ≡ with_events entry.now.parent
            (of_moving (inode_named (seen self.old) entry.now.parent entry.now.name)
            (inode_of (seen self.old) entry.now.parent) (inode_of (seen self.old) new_parent))
            (seen self.old) }
        ensures nodes { self.new.nodes ≡ self.old.nodes }
        ensures files { self.new.files ≡ self.old.files }
    {
        let view = self.view_at(entry.parent);
        let moved = self.inode_named(entry);
        let from = self.inode_of(entry.parent);
        let to = self.inode_of(new_parent);
        self.note(view, from, Event::Modified);
        self.note(view, to, Event::Modified);
        self.note_name(view, moved);
    }

    // Two objects have other names than before, if they are known.
    fn note_both(&mut self, view: u64, one: Option<Num>, other: Option<Num>)
        requires { 2 ≤ room_of self.old.times view }
        ensures seen { seen self.new ≡ noted_in view (of_both one other) (seen self.old) }
        ensures nodes { self.new.nodes ≡ self.old.nodes }
        ensures files { self.new.files ≡ self.old.files }
    {
        match one {
            Some(first) => {
                self.note(view, first, Event::StatusChanged);
                self.note_name(view, other);
            }
            None => self.note_name(view, other),
        }
    }

    // Two names of different objects change places.
    fn note_swapping(&mut self, first: &DirectoryEntry, second: &DirectoryEntry)
        requires { 4 ≤ room_of self.old.times (view_at (seen self.old) first.now.parent) }
        ensures seen { seen self.new ≡ with_events first.now.parent
            (of_swapping (inode_named (seen self.old) first.now.parent first.now.name)
            (inode_named (seen self.old) second.now.parent second.now.name)
            (inode_of (seen self.old) first.now.parent) (inode_of (seen self.old) second.now.parent))
            (seen self.old) }
        ensures nodes { self.new.nodes ≡ self.old.nodes }
        ensures files { self.new.files ≡ self.old.files }
    {
        let view = self.view_at(first.parent);
        let one = self.inode_named(first);
        let other = self.inode_named(second);
        let from = self.inode_of(first.parent);
        let to = self.inode_of(second.parent);
        self.note(view, from, Event::Modified);
        self.note(view, to, Event::Modified);
        self.note_both(view, one, other);
    }

    // Two names change places: nothing is noted where both gave one object.
    pub(crate) fn note_exchanging(&mut self, first: &DirectoryEntry, second: &DirectoryEntry)
        requires { 4 ≤ room_of self.old.times (view_at (seen self.old) first.now.parent) }
        ensures seen { seen self.new ≡ with_events first.now.parent
            (of_exchanging (inode_named (seen self.old) first.now.parent first.now.name)
            (inode_named (seen self.old) second.now.parent second.now.name)
            (inode_of (seen self.old) first.now.parent) (inode_of (seen self.old) second.now.parent))
            (seen self.old) }
        ensures nodes { self.new.nodes ≡ self.old.nodes }
        ensures files { self.new.files ≡ self.old.files }
    {
        let one = self.inode_named(first);
        let other = self.inode_named(second);
        if !gave_one(one, other) {
            self.note_swapping(first, second);
        }
    }

    // A name is moved to another one: nothing is noted where both gave one object.
    pub(crate) fn note_renamed(&mut self, entry: &DirectoryEntry, new: &DirectoryEntry)
        requires { 3 ≤ room_of self.old.times (view_at (seen self.old) entry.now.parent) }
        ensures seen { seen self.new ≡ with_events entry.now.parent
            (of_renaming (inode_named (seen self.old) entry.now.parent entry.now.name)
            (inode_named (seen self.old) new.now.parent new.now.name)
            (inode_of (seen self.old) entry.now.parent) (inode_of (seen self.old) new.now.parent))
            (seen self.old) }
        ensures nodes { self.new.nodes ≡ self.old.nodes }
        ensures files { self.new.files ≡ self.old.files }
    {
        let moved = self.inode_named(entry);
        let there = self.inode_named(new);
        if !gave_one(moved, there) {
            self.note_going(entry, new.parent);
        }
    }

    // Bytes of an object were written, by a request about this node.
    pub(crate) fn note_written(&mut self, node: u64, inode: Num)
        requires { 1 ≤ room_of self.old.times (view_at (seen self.old) node) }
        ensures seen { seen self.new ≡ with_events node (of_writing inode) (seen self.old) }
        ensures nodes { self.new.nodes ≡ self.old.nodes }
        ensures files { self.new.files ≡ self.old.files }
    {
        let view = self.view_at(node);
        self.note(view, inode, Event::Modified);
    }

    // So many were copied into it.
    pub(crate) fn note_copied(&mut self, node: u64, inode: Num, count: u32)
        requires { 1 ≤ room_of self.old.times (view_at (seen self.old) node) }
        ensures seen { seen self.new ≡ with_events node (of_copying count inode) (seen self.old) }
        ensures nodes { self.new.nodes ≡ self.old.nodes }
        ensures files { self.new.files ≡ self.old.files }
    {
        if count > 0 {
            self.note_written(node, inode);
        }
    }

    // They went, where an open has cut it.
    pub(crate) fn note_cut(&mut self, node: u64, inode: Num, cut: Cut)
        requires { 1 ≤ room_of self.old.times (view_at (seen self.old) node) }
        ensures seen { seen self.new ≡ with_events node (of_cutting cut inode) (seen self.old) }
        ensures nodes { self.new.nodes ≡ self.old.nodes }
        ensures files { self.new.files ≡ self.old.files }
    {
        match cut {
            Cut::No => {}
            Cut::Plain | Cut::Dropping => self.note_written(node, inode),
        }
    }

    // This was set of the object of a node. Of one that is gone nothing is noted, since its number may
    // be another's.
    pub(crate) fn note_set(&mut self, node: u64, inode: Num, changes: &Changes)
        requires { 1 ≤ room_of self.old.times (view_at (seen self.old) node) }
        ensures { seen self.new ≡ with_events_if (is_current self.old.nodes.table node) node
            (of_setting changes.now (seen self.old).time inode) (seen self.old) }
    {
        if self.nodes.is_current(node) {
            let view = self.view_at(node);
            let event = event_of(changes, self.time);
            self.note(view, inode, event);
        }
    }

    // The times of an object as the view of a node sees them.
    pub(crate) fn times_at(&self, node: u64, inode: Num) -> Times
        ensures { result ≡ times_at (seen self.now) (seen self.now).times node inode }
    {
        self.times.of(self.view_at(node), inode)
    }

    // The same, but those of another that has its number are not told of an object that is gone.
    pub(crate) fn times_if(&self, node: u64, inode: Num) -> Times
        ensures { result ≡ times_if (seen self.now) (seen self.now).times node inode }
    {
        if self.nodes.is_current(node) {
            self.times_at(node, inode)
        } else {
            Times::first()
        }
    }
}
