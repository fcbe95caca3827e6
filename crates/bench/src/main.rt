//! `bench`: prints what calls of the kernel cost. The script `bench/calls` puts its
//! lines beside those of the peers, in one table.
//!
//! usage: bench PART | bench edges FILE | bench bulk WAY | bench ENDLESS MESSAGES [SHARE]
//!
//! PART is one of `small`, `large`, `largest`, `lengths`, `growth`, `descriptors`, `files`, `lock` and
//! `check`; `edges` writes transcripts to FILE; `bulk` writes a long file, and WAY is `plain` or `within`.
//! Each line has, with tabs between: how it was measured, a row's name, a number of calls, their
//! nanoseconds, and their requests for memory. A row comes as often as it was measured. ENDLESS is
//! one of `forever`, which delivers so many MESSAGES, or SHARE hundredths of them, to a spool that
//! empties itself, on a kernel that forgets what was done; `followed`, which checks the history
//! besides, part by part; and both with `-times` behind them, which tell what the others print as
//! 0: the nanoseconds and the requests of each twentieth of the run. This is a measure and no test:
//! with no words it only prints how it is used.
#![tactic(auto)]

mod bulk;
mod checked;
mod clock;
mod descriptors;
mod edges;
mod files;
mod forever;
mod growth;
mod lengths;
mod lock;
mod paths;
mod rows;
mod steps;
mod work;

use crate::forever::Wanted;
use anyhow::{Result, bail};
use heap::Heap;
use kernel::Kernel;
use machine::Machine;
use std::alloc::Global;
use std::env;
use std::sync::Wait;
use std::thread::Threads;

static USAGE: &str =
    "usage: bench PART | bench edges FILE | bench bulk WAY | bench ENDLESS MESSAGES [SHARE]";

fn main(rt: HostRuntime) -> Result<()> {
    run::<_, Kernel>(&rt, &rt, rt.alloc())
}

// Only `main` may give the host's threads to others, so they come as a handle of their own.
fn run<R: Threads + Wait + Sync, K: Machine + Send>(
    rt: &HostRuntime,
    threads: &R,
    global: Global,
) -> Result<()> {
    let words = words_of(rt, global)?;
    print_as_told::<_, K>(rt, threads, global, words.as_slice())
}

fn words_of(rt: &HostRuntime, global: Global) -> Result<Vec<String>> {
    let mut words = Vec::new(global);
    for word in env::args(rt)? {
        words.push(word)?;
    }
    Ok(words)
}

fn print_as_told<R: Threads + Wait + Sync, K: Machine + Send>(
    rt: &HostRuntime,
    threads: &R,
    global: Global,
    words: &[String],
) -> Result<()> {
    match words {
        [_, part] => print_part::<_, K>(rt, threads, heap::open(global)?, part.as_str()),
        [_, part, word] => print_with::<K>(rt, heap::open(global)?, part.as_str(), word.as_str()),
        [_, part, messages, share] => {
            let heap = heap::open(global)?;
            print_endless::<K>(rt, heap, part.as_str(), messages.as_str(), share.as_str())
        }
        _ => {
            println!(rt; "{USAGE}")?;
            Ok(())
        }
    }
}

fn print_part<R: Threads + Wait + Sync, K: Machine + Send>(
    rt: &HostRuntime,
    threads: &R,
    heap: Heap,
    part: &str,
) -> Result<()> {
    match part {
        "small" => rows::print_small::<K>(rt, heap),
        "large" => rows::print_large::<K>(rt, heap),
        "largest" => rows::print_largest::<K>(rt, heap),
        "lengths" => lengths::print_lengths::<K>(rt, heap),
        "growth" => growth::print_growth::<K>(rt, heap),
        "descriptors" => descriptors::print_descriptors::<K>(rt, heap),
        "files" => files::print_files::<K>(rt, heap),
        "lock" => lock::print_lock::<_, K>(rt, threads, heap),
        "check" => checked::print_check::<K>(rt, heap),
        _ => bail!("{part} is no part"),
    }
}

fn print_with<K: Machine>(rt: &HostRuntime, heap: Heap, part: &str, word: &str) -> Result<()> {
    match part {
        "edges" => edges::print_edges::<K>(rt, heap, word),
        "bulk" => bulk::print_bulk::<K>(rt, heap, word),
        _ => print_endless::<K>(rt, heap, part, word, "100"),
    }
}

fn print_endless<K: Machine>(
    rt: &HostRuntime,
    heap: Heap,
    part: &str,
    messages: &str,
    share: &str,
) -> Result<()> {
    let wanted = wanted_of(part)?;
    let Ok(messages) = messages.parse::<u64>() else {
        bail!("{messages} is no number of messages")
    };
    let Ok(share) = share.parse::<u64>() else {
        bail!("{share} is no share")
    };
    let messages = messages.saturating_mul(share.min(100)) / 100;
    forever::print_forever::<K>(rt, heap, messages, wanted)
}

fn wanted_of(part: &str) -> Result<Wanted> {
    let (check, times) = match part {
        "forever" => (false, false),
        "followed" => (true, false),
        "forever-times" => (false, true),
        "followed-times" => (true, true),
        _ => bail!("{part} takes no word"),
    };
    Ok(Wanted { check, times })
}
