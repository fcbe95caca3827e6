// What touches mark at directories, and the holder table after each.
ghost use Rattle.std.specs.Prelude.{◌≡◌, ℕ, ◌==◌, ◌&&◌, if◌then◌else◌, OnOk, OnErr, take};
ghost use Rattle.std.specs.List.{list_any};
ghost use Rattle.model.specs.Modes.{reads_names};
ghost use Rattle.list_modes.specs.Holding.{held_of, IsPartOf};
ghost use Rattle.marked_records.specs.Marks.{changes_names, marks_of, marks_at, joined, is_mark_at};
ghost use Rattle.marked_records.specs.Marks.{SetsMarks, IsBetween};

use ids::{Aspect, Num, Pid, Touch};
use list_modes::{Held, Holders};
use std::alloc::AllocError;

fn reads_names(touch: &Touch, dir: Num) -> bool
    ensures { result ≡ reads_names dir touch.now.aspect }
{
    match &touch.aspect {
        Aspect::Names(of) => dir == *of,
        _ => false,
    }
}

fn changes_names(touch: &Touch, dir: Num) -> bool
    ensures { result ≡ changes_names dir touch.now.aspect touch.now.write }
{
    match (&touch.aspect, touch.write) {
        (Aspect::Entry(of, _), true) => dir == *of,
        (Aspect::Names(of), true) => dir == *of,
        _ => false,
    }
}

fn any_reads(touches: &[Touch], dir: Num) -> bool
    ensures { result ≡ list_any (λ t. reads_names dir t.aspect) touches.now }
{
    touches.iter().any(|touch| reads_names(touch, dir))
}

fn any_changes(touches: &[Touch], dir: Num) -> bool
    ensures { result ≡ list_any (λ t. changes_names dir t.aspect t.write) touches.now }
{
    touches.iter().any(|touch| changes_names(touch, dir))
}

/// What these touches mark at a directory.
pub fn marks_at(touches: &[Touch], dir: Num) -> Held
    ensures { result ≡ marks_at dir touches.now }
{
    Held {
        names_read: any_reads(touches, dir),
        entry_written: any_changes(touches, dir),
    }
}

/// A process holds what a touch marks, besides what it holds. Refused memory changes nothing.
pub fn mark(holders: &mut Holders, pid: Pid, touch: &Touch) -> Result<(), AllocError>
    ensures ok { OnOk result (SetsMarks holders.old holders.new pid
        (λ d. joined (held_of holders.old pid d) (marks_of d touch.now))) }
    ensures err { OnErr result (holders.new ≡ holders.old) }
{
    match (&touch.aspect, touch.write) {
        (Aspect::Entry(dir, _), true) => holders.hold(*dir, pid, false, true),
        (Aspect::Names(dir), write) => holders.hold(*dir, pid, true, write),
        _ => Ok(()),
    }
}

/// Where a touch marks a directory, a process holds there only what these touches mark. It takes no
/// memory.
pub fn unmark(holders: &mut Holders, pid: Pid, touch: &Touch, kept: &[Touch])
    requires { (d : ℕ) → IsPartOf (marks_at d kept.now) (held_of holders.old pid d) }
    ensures { SetsMarks holders.old holders.new pid (λ d. if is_mark_at d touch.now
        then marks_at d kept.now else held_of holders.old pid d) }
{
    match (&touch.aspect, touch.write) {
        (Aspect::Entry(dir, _), true) => holders.put_back(*dir, pid, marks_at(kept, *dir)),
        (Aspect::Names(dir), _) => holders.put_back(*dir, pid, marks_at(kept, *dir)),
        _ => {}
    }
}

/// A process holds what its first touches mark, where it held that and no more than all of these
/// mark. It takes no memory.
pub fn unmark_behind(holders: &mut Holders, pid: Pid, touches: &[Touch], count: usize)
    requires { IsBetween holders.old pid count touches.now }
    ensures { SetsMarks holders.old holders.new pid (λ d. marks_at d (take count touches.now)) }
{
    if count < touches.len() {
        let kept = &touches[..count];
        for i in count..touches.len() {
            unmark(holders, pid, &touches[i], kept);
        }
    }
}
