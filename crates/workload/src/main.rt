//! `workload`: does one of the jobs that the kernel is used for, on an input that follows from a
//! seed, and prints a digest of all that comes of it.
//!
//! usage: workload JOB SEED | workload JOB SEED SHARE
//!
//! JOB is one of `installer`, `spool`, `build`, `audit`, `names` and `pieces`, and SEED a number
//! below 2 to the 32. SHARE, from 1 to 100, does so many hundredths of the job. No time is printed:
//! the script `bench/run` measures whole runs.
#![tactic(auto)]

mod actor;
mod audit;
mod build;
mod content;
mod digest;
mod drive;
mod installer;
mod names;
mod pieces;
mod random;
mod settings;
mod spool;

use crate::content::Room;
use anyhow::{Result, bail};
use std::alloc::Global;
use std::env;

fn main(rt: HostRuntime) -> Result<()> {
    run(&rt, rt.alloc())
}

fn run(rt: &HostRuntime, global: Global) -> Result<()> {
    let mut words = Vec::new(global);
    for word in env::args(rt)? {
        words.push(word)?;
    }
    match words.as_slice() {
        [_, job, seed] => print_job(rt, global, job.as_str(), seed.as_str(), "100"),
        [_, job, seed, share] => print_job(rt, global, job.as_str(), seed.as_str(), share.as_str()),
        _ => bail!("usage: workload JOB SEED [SHARE]"),
    }
}

fn print_job(rt: &HostRuntime, global: Global, job: &str, seed: &str, share: &str) -> Result<()> {
    let Ok(seed) = seed.parse::<u64>() else {
        bail!("{seed} is no seed")
    };
    let Ok(share) = share.parse::<u64>() else {
        bail!("{share} is no share")
    };
    let mut room = Room::new(heap::open(global)?, seed)?;
    let digest = digest_of(&mut room, job, share.clamp(1, 100))?;
    println!(rt; "{job} {digest:016x}")?;
    Ok(())
}

fn digest_of(room: &mut Room, job: &str, share: u64) -> Result<u64> {
    match job {
        "installer" => installer::install(room, share),
        "spool" => spool::deliver(room, share),
        "build" => build::build(room, share),
        "audit" => audit::audit(room, share),
        "names" => names::make_names(room, share),
        "pieces" => pieces::write_pieces(room, share),
        _ => bail!("{job} is no job"),
    }
}
