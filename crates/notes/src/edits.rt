// What edits name, and where they come in a call.
ghost use Rattle.std.specs.Prelude.{◌≡◌, length, if◌then◌else◌};
ghost use Rattle.model.specs.Changes.{at_start, inode_replaced, number, to_read, to_write};
ghost use Rattle.freeing_laws.specs.Counts.{listed};
ghost use Rattle.notes.specs.Steps.{IsBelow, is_last};

use ids::{Edit, Mode, Num, Replaced, Which};
use objects::Description;

/// The number of an object that was there, or, by its index, of one that the call makes. It takes no
/// memory.
pub fn number(chosen: &[Num], which: Which) -> Num
    requires { IsBelow (length chosen.now) which }
    ensures { result ≡ number chosen.now which }
{
    match which {
        Which::There(num) => num,
        Which::Made(index) => chosen[index as usize],
    }
}

/// A description that is open on an inode, at its beginning.
pub fn at_start(inode: Num, mode: Mode) -> Description
    ensures { result ≡ at_start inode mode }
{
    Description {
        inode,
        reading: mode.reading,
        writing: mode.writing,
        appending: mode.appending,
        offset: 0,
    }
}

/// A description of a pipe, which reads it, or writes it.
pub fn end_of(pipe: Num, writing: bool) -> Description
    ensures { result ≡ at_start pipe (if writing then to_write else to_read) }
{
    Description {
        inode: pipe,
        reading: !writing,
        writing,
        appending: false,
        offset: 0,
    }
}

/// What had the name that another takes over, if anything had.
pub fn inode_replaced(replaced: Replaced) -> Option<Num>
    ensures { listed result ≡ inode_replaced replaced }
{
    match replaced {
        Replaced::File(num) => Some(num),
        Replaced::Directory(num) => Some(num),
        Replaced::Nothing => None,
    }
}

/// Whether an edit is of a description or a slot.
pub fn is_last(edit: &Edit) -> bool
    ensures { result ≡ is_last edit.now }
{
    matches!(
        edit,
        Edit::OpenInode { .. }
            | Edit::SetOffset { .. }
            | Edit::ShareSlot { .. }
            | Edit::ClearSlot { .. }
    )
}
