// Files that are open no more.
ghost use Rattle.std.specs.Prelude.{◌≡◌, option_map};
ghost use Rattle.course.specs.Hands.{Stand};
ghost use Rattle.mount_requests.specs.Seen.{seen};
ghost use Rattle.mount_requests.specs.Found.{file_at};
ghost use Rattle.mounted.specs.Served.{Closes, Releases, ToldBy, closed_by, has_open, is_held};
ghost use Rattle.mounted.specs.Served.{keeps_open, kept_by, last_open, released_by, told, told_closed};
ghost use Rattle.mounted.specs.Server.{HasGrown};
ghost use Rattle.mounted.specs.Sound.{StaysSound};

use crate::processes::is_holder;
use crate::serving::{Serving, reply_of};
use course::{Fault, close};
use fuse::{Errno, Reply};
use machine::Machine;
use mount_requests::{Failure, Tables};
use mount_tables::{OpenFile, PLAIN, State, View};

// Whether a process has open still what was opened in its transaction. After an abort all of it is
// gone, and a step would be a plain one.
fn keeps_open(state: &State) -> bool
    ensures { result ≡ keeps_open state.now }
{
    match state {
        State::Live | State::Committed => true,
        State::Aborted(_) | State::GivenUp => false,
    }
}

// Whether the process of a view has a file open still.
fn has_open(file: &OpenFile, view: Option<&View>) -> bool
    ensures { result ≡ has_open file.now (option_map (λ v. v.now) view.entry) }
{
    match view {
        Some(view) => keeps_open(&view.state) && view.pid == file.pid,
        None => false,
    }
}

// Whether a process has a file open still.
fn is_held(tables: &Tables, file: &OpenFile) -> bool
    ensures { result ≡ is_held (seen tables.now) file.now }
{
    if file.view == PLAIN {
        is_holder(tables.processes.role(file.pid))
    } else {
        has_open(file, tables.views.get(file.view))
    }
}

// The file that is open under this number for the last time, where a process has it open still.
fn last_open(tables: &Tables, handle: u64) -> Option<OpenFile>
    ensures { result ≡ last_open (seen tables.now) (file_at (seen tables.now) handle) }
{
    let file = tables.files.get(handle)?;
    if file.opens > 1 || !is_held(tables, &file) {
        None
    } else {
        Some(file)
    }
}

// A file is open once less, and goes with the last time.
fn count_down(tables: &mut Tables, handle: u64)
    ensures { seen tables.new
        ≡ released_by (seen tables.old) handle (file_at (seen tables.old) handle) }
{
    let _file = tables.files.release(handle);
}

// A file is open once less, and stays.
fn keep(tables: &mut Tables, handle: u64)
    ensures { seen tables.new
        ≡ kept_by (seen tables.old) handle (file_at (seen tables.old) handle) }
{
    tables.files.count_down(handle);
}

impl<K: Machine> Serving<K> {
    // What came of closing a file. It stays where it could not be closed.
    fn note_closed(&mut self, handle: u64, file: &OpenFile, closed: Result<(), Fault>) -> Reply
        ensures hand { self.new.hand ≡ self.old.hand }
        ensures known { seen self.new.tables
            ≡ closed_by (seen self.old.tables) handle file.now closed }
        ensures told { result ≡ told (told_closed closed) }
    {
        match closed {
            Ok(()) => {
                count_down(&mut self.tables, handle);
                if file.view == PLAIN {
                    self.tables.processes.release(file.pid);
                }
                Reply::Empty
            }
            Err(Fault::Aborted(why)) => {
                count_down(&mut self.tables, handle);
                self.tables.note_abort(file.view, why);
                Reply::Error(Errno::ECANCELED)
            }
            Err(fault) => {
                keep(&mut self.tables, handle);
                reply_of(Err(Failure::from(fault)))
            }
        }
    }

    // A file is closed by the process that has it open.
    fn close_file(&mut self, handle: u64, file: &OpenFile) -> Reply
        ensures closes { ToldBy (Closes (seen self.old.tables) (seen self.new.tables) handle file.now
            self.old.hand.shown self.new.hand.shown) result }
        ensures stand { Stand self.old.hand.shown self.new.hand.shown }
        ensures grows { HasGrown self.old.hand.shown self.new.hand.shown }
        ensures sound { StaysSound (seen self.old.tables) self.old.hand.shown
            (seen self.new.tables) self.new.hand.shown }
    {
        self.hand.bind(file.pid);
        let closed = close(&mut self.hand, file.fd);
        // For the proof: since then the history has grown, and no process has ended.
        let _history = self.hand.history();
        self.note_closed(handle, file, closed)
    }

    // A file is open once less. Where that was the last time it is closed.
    pub(crate) fn release(&mut self, handle: u64) -> Reply
        ensures releases { ToldBy (Releases (seen self.old.tables) (seen self.new.tables) handle
            self.old.hand.shown self.new.hand.shown) result }
        ensures stand { Stand self.old.hand.shown self.new.hand.shown }
        ensures grows { HasGrown self.old.hand.shown self.new.hand.shown }
        ensures sound { StaysSound (seen self.old.tables) self.old.hand.shown
            (seen self.new.tables) self.new.hand.shown }
    {
        match last_open(&self.tables, handle) {
            Some(file) => self.close_file(handle, &file),
            None => {
                count_down(&mut self.tables, handle);
                Reply::Empty
            }
        }
    }
}
