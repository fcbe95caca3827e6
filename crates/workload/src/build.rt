// Scripts of builds are read, run and printed: a parent that looks for sources and forks workers,
// each of whose units is one transaction.
ghost use Rattle.std.specs.Prelude.{IfOk};
ghost use Rattle.script.specs.Schedules.{AreProcessNumbers};

use crate::content::Room;
use crate::digest::Digest;
use crate::drive::kernel_of;
use anyhow::{Result, bail};
use heap::Heap;
use ids::{Op, Pid};
use kernel::Kernel;
use script::{Script, read_schedule, read_script, steps_of};
use std::fmt::Write;

// The workers, which are the processes behind the first.
const WORKERS: u64 = 4;

// The text of a script, and of its schedule.
#[derive(Drop)]
struct Texts {
    script: String<Heap>,
    schedule: String<Heap>,
}

impl Texts {
    // A line of a process, whose turn it is.
    fn line(&mut self, pid: u64, operation: &str) -> Result<()> {
        writeln!(self.script, "{pid} {operation}")?;
        if !self.schedule.as_str().is_empty() {
            self.schedule.push_str(",")?;
        }
        write!(self.schedule, "{pid}")?;
        Ok(())
    }
}

static SETUP: [&str; 9] = [
    "mkdir /home",
    "mkdir /home/user",
    "mkdir /home/user/project",
    "mkdir /home/user/project/source",
    "mkdir /home/user/project/source/library",
    "mkdir /home/user/project/source/library/parts",
    "mkdir /home/user/project/objects",
    "pipe",
    "stat /home/user/project",
];

fn add_setup(texts: &mut Texts) -> Result<()> {
    for operation in &SETUP {
        texts.line(1, operation)?;
    }
    Ok(())
}

// The letters of a line of a source, as a script spells them.
fn add_source(texts: &mut Texts, room: &mut Room, unit: u64) -> Result<()> {
    let heap = room.heap;
    let path = format!(in heap;
        "open /home/user/project/source/library/parts/unit-{unit}.c WRONLY,CREAT,EXCL"
    )?;
    texts.line(1, path.as_str())?;
    texts.line(
        1,
        "write 2 #include\\x20\"library/parts/common.h\"\\x0aint\\x20main(void);\\x0a",
    )?;
    for _ in 0..room.random.between(1, 5) {
        let length = room.random.between(2000, 16_000);
        let byte = room.random.between(0x61, 0x7a);
        texts.line(1, format!(in heap; "fill 2 {length} {byte:02x}")?.as_str())?;
    }
    texts.line(1, "close 2")
}

// The parent looks for what a unit may need, most of which is not there.
fn add_stats(texts: &mut Texts, room: &mut Room, unit: u64) -> Result<()> {
    let heap = room.heap;
    for number in 0..8u64 {
        let path = format!(in heap;
            "stat /home/user/project/source/library/parts/unit-{unit}.{number}.h"
        )?;
        texts.line(1, path.as_str())?;
    }
    for back in 0..4u64 {
        let other = unit.saturating_sub(back.saturating_mul(3));
        let path = format!(in heap; "stat /home/user/project/source/library/parts/unit-{other}.c")?;
        texts.line(1, path.as_str())?;
    }
    Ok(())
}

// The worker reads the source and writes the object.
fn add_object(texts: &mut Texts, room: &mut Room, worker: u64, unit: u64) -> Result<()> {
    let heap = room.heap;
    let source = format!(in heap;
        "open /home/user/project/source/library/parts/unit-{unit}.c RDONLY"
    )?;
    texts.line(worker, source.as_str())?;
    for _ in 0..3u64 {
        texts.line(worker, "read 2 16384")?;
    }
    let new = format!(in heap; "/home/user/project/objects/unit-{unit}.o.new")?;
    texts.line(
        worker,
        format!(in heap; "open {new} WRONLY,CREAT,EXCL")?.as_str(),
    )?;
    for _ in 0..room.random.between(1, 6) {
        let length = room.random.between(4000, 16_384);
        let byte = room.random.between(0x21, 0x5b);
        texts.line(
            worker,
            format!(in heap; "fill 3 {length} {byte:02x}")?.as_str(),
        )?;
    }
    texts.line(worker, "close 3")?;
    texts.line(worker, "close 2")?;
    let rename = format!(in heap; "rename {new} /home/user/project/objects/unit-{unit}.o")?;
    texts.line(worker, rename.as_str())
}

fn add_unit(texts: &mut Texts, room: &mut Room, unit: u64) -> Result<()> {
    let worker = room.random.between(2, WORKERS + 2);
    add_source(texts, room, unit)?;
    add_stats(texts, room, unit)?;
    texts.line(worker, "begin RESTART")?;
    add_object(texts, room, worker, unit)?;
    texts.line(worker, "write 1 t")?;
    texts.line(worker, "end")?;
    texts.line(1, "read 0 1")
}

fn texts_of(room: &mut Room, units: u64) -> Result<Texts> {
    let mut texts = Texts {
        script: String::new(room.heap),
        schedule: String::new(room.heap),
    };
    texts.script.push_str("priorities 0\n")?;
    add_setup(&mut texts)?;
    for _ in 0..WORKERS {
        texts.line(1, "fork")?;
    }
    for unit in 0..units {
        add_unit(&mut texts, room, unit)?;
    }
    Ok(texts)
}

fn pids_of(heap: Heap, text: &str, script: &Script) -> Result<Vec<Pid, Heap>>
    ensures { IfOk result (λ pids. AreProcessNumbers pids.items) }
{
    let Ok(pids) = read_schedule(heap, text, script) else {
        bail!("the schedule is not read")
    };
    Ok(pids)
}

fn steps_in(heap: Heap, texts: &Texts) -> Result<Vec<(Pid, Op), Heap>> {
    let Ok(script) = read_script(heap, texts.script.as_str().as_bytes()) else {
        bail!("the script is not read")
    };
    let pids = pids_of(heap, texts.schedule.as_str(), &script)?;
    Ok(steps_of(heap, script, pids.as_slice())?)
}

fn run_script(room: &mut Room, units: u64) -> Result<Kernel> {
    let texts = texts_of(room, units)?;
    let steps = steps_in(room.heap, &texts)?;
    let mut kernel = kernel_of(room.heap, 0, 1, 65_536)?;
    let replies = kernel.run(steps)?;
    drop(replies);
    Ok(kernel)
}

/// Reads scripts, runs them and prints their transcripts.
pub(crate) fn build(room: &mut Room, share: u64) -> Result<u64> {
    let mut digest = Digest::new();
    for _ in 0..share.div_ceil(5).min(20) {
        let kernel = run_script(room, share.saturating_mul(4).min(400))?;
        digest.add_run(&kernel)?;
        drop(kernel);
    }
    Ok(digest.value())
}
