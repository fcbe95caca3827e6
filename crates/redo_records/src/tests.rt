//! What a recorder tells of small histories.
ghost use Rattle.std.specs.Prelude.{OnOk};
ghost use Rattle.redo_records.specs.Recording.{HasRoom};

use crate::{Record, Recorder, Standing};
use heap::Heap;
use ids::{Answer, BeginFlags, Bytes, Call, Entry, Errno, Nums, Op, Pid, Pids, Reply};
use std::alloc::AllocError;
use std::test::Fail;

fn entry(heap: Heap, pid: u32, op: Op, reply: Reply) -> Entry {
    Entry {
        pid: Pid(pid),
        op,
        reply,
        chosen: Nums::new(heap),
        doomed: Pids::new(heap),
    }
}

fn path(heap: Heap) -> Result<Bytes, AllocError> {
    Bytes::copy(heap, b"/a")
}

// A call that changes something, and was executed.
fn made(heap: Heap, pid: u32) -> Result<Entry, AllocError> {
    let op = Op::Call(Call::Mkdir(path(heap)?));
    Ok(entry(heap, pid, op, Reply::Answer(Answer::Done)))
}

// One that only looks.
fn looked(heap: Heap, pid: u32) -> Result<Entry, AllocError> {
    let op = Op::Call(Call::Readlink(path(heap)?));
    let answer = Answer::Bytes(path(heap)?);
    Ok(entry(heap, pid, op, Reply::Answer(answer)))
}

fn refused(heap: Heap, pid: u32) -> Result<Entry, AllocError> {
    let op = Op::Call(Call::Mkdir(path(heap)?));
    Ok(entry(heap, pid, op, Reply::Errno(Errno::EEXIST)))
}

fn begun(heap: Heap, pid: u32) -> Entry {
    entry(heap, pid, Op::Begin(BeginFlags::none()), Reply::Begun)
}

fn committed(heap: Heap, pid: u32) -> Entry {
    entry(heap, pid, Op::End, Reply::Committed)
}

fn reserve_for(recorder: &mut Recorder, entry: &Entry) -> Result<(), AllocError>
    ensures { OnOk result (HasRoom recorder.new entry.now.pid entry.now.op) }
{
    recorder.reserve(entry.pid, &entry.op)
}

// Of how many calls the record is that an entry completes; none is of none.
fn told(recorder: &mut Recorder, entry: Entry) -> Result<usize, AllocError> {
    reserve_for(recorder, &entry)?;
    let op = entry.op.try_clone()?;
    Ok(match recorder.note(Some(op), &entry)? {
        Some(Record::Call(_entry)) => 1,
        Some(Record::Transaction(entries)) => entries.len(),
        None => 0,
    })
}

#[test]
fn plain_calls_and_commits_are_told(rt: HostRuntime) -> Result<(), Fail> {
    let heap = heap::open(rt.alloc())?;
    let mut recorder = Recorder::new(heap);
    assert_eq!(rt; told(&mut recorder, made(heap, 1)?)?, 1);
    assert_eq!(rt; told(&mut recorder, looked(heap, 1)?)?, 0);
    assert_eq!(rt; told(&mut recorder, refused(heap, 1)?)?, 0);
    assert_eq!(rt; told(&mut recorder, begun(heap, 1))?, 0);
    assert_eq!(rt; told(&mut recorder, made(heap, 1)?)?, 0);
    assert_eq!(rt; told(&mut recorder, looked(heap, 1)?)?, 0);
    assert_eq!(rt; told(&mut recorder, made(heap, 2)?)?, 1);
    assert_eq!(rt; told(&mut recorder, made(heap, 1)?)?, 0);
    assert_eq!(rt; told(&mut recorder, committed(heap, 1))?, 2);
    assert_eq!(rt; told(&mut recorder, made(heap, 1)?)?, 1);
    Ok(())
}

// A transaction that another call dooms, and one that begins anew.
#[test]
fn calls_that_are_undone_are_not_told(rt: HostRuntime) -> Result<(), Fail> {
    let heap = heap::open(rt.alloc())?;
    let mut recorder = Recorder::new(heap);
    assert_eq!(rt; told(&mut recorder, begun(heap, 1))?, 0);
    assert_eq!(rt; told(&mut recorder, made(heap, 1)?)?, 0);
    let mut dooming = made(heap, 2)?;
    dooming.doomed.push(Pid(1))?;
    assert_eq!(rt; told(&mut recorder, dooming)?, 1);
    let again = Reply::GivenUp { restarted: true };
    let notice = entry(heap, 1, Op::Abort { no_restart: false }, again);
    assert_eq!(rt; told(&mut recorder, notice)?, 0);
    assert_eq!(rt; told(&mut recorder, made(heap, 1)?)?, 0);
    assert_eq!(rt; told(&mut recorder, committed(heap, 1))?, 1);
    Ok(())
}

// What is asked for by `reserve` is enough.
#[test]
fn a_note_takes_no_memory(rt: HostRuntime) -> Result<(), Fail> {
    let heap = heap::open(rt.alloc())?;
    let mut recorder = Recorder::new(heap);
    let entries = [begun(heap, 1), made(heap, 1)?, committed(heap, 1)];
    for entry in entries {
        recorder.reserve(entry.pid, &entry.op)?;
        let op = entry.op.try_clone()?;
        heap.refuse(1);
        drop(recorder.note(Some(op), &entry)?);
        let asked = heap.made();
        heap.refuse(0);
        assert_eq!(rt; asked, 0);
    }
    Ok(())
}

// A process is known by its own entries, and by those of others.
#[test]
fn processes_are_followed(rt: HostRuntime) -> Result<(), Fail> {
    let heap = heap::open(rt.alloc())?;
    let mut recorder = Recorder::new(heap);
    assert_eq!(rt; recorder.standing(Pid(1)), Standing::Idle);
    let _none = told(&mut recorder, begun(heap, 1))?;
    assert_eq!(rt; recorder.standing(Pid(1)), Standing::Lives);
    let mut dooming = made(heap, 2)?;
    dooming.doomed.push(Pid(1))?;
    let _one = told(&mut recorder, dooming)?;
    assert_eq!(rt; recorder.standing(Pid(1)), Standing::IsDoomed);
    assert_eq!(rt; recorder.standing(Pid(2)), Standing::Idle);
    assert_eq!(rt; recorder.followed(), 1);
    Ok(())
}

// A change of which no copy of the operation is at hand is not noted, and nothing has changed.
#[test]
fn a_change_without_a_copy_is_not_noted(rt: HostRuntime) -> Result<(), Fail> {
    let heap = heap::open(rt.alloc())?;
    let mut recorder = Recorder::new(heap);
    let _none = told(&mut recorder, begun(heap, 1))?;
    let entry = made(heap, 1)?;
    reserve_for(&mut recorder, &entry)?;
    assert!(rt; recorder.note(None, &entry).is_err());
    assert_eq!(rt; told(&mut recorder, made(heap, 1)?)?, 0);
    assert_eq!(rt; told(&mut recorder, committed(heap, 1))?, 1);
    Ok(())
}
