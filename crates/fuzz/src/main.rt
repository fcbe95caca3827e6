//! `fuzz`: tries random scripts on the kernel, and prints what has come up.
//!
//! usage: fuzz SEED COUNT
//!
//! COUNT scripts are made from the seed, of 1 to 6 processes whose operations are all that there
//! are, over few names, each with a schedule of its lines. Each of them is run as the program runs
//! it, and its history has to pass the check; its transcript, read back as a script, has to come to
//! itself; it is run under a limit, and each step has to find its place just where one is left;
//! each request for memory of each of its steps is refused, and what gets through has to come to
//! what it comes to where nothing is refused. Then it is changed a little, and has to run and pass
//! the check, or to have a fault, and that the first. Of one script each beginning is tried. Where
//! something is not so, the script is printed, and the status is 1. It is 1 too where 1,000 scripts
//! or more never got an answer of some call. How often memory was refused goes to standard error.
#![tactic(auto)]

mod cases;
mod difference;
mod mutated;
mod operations;
mod places;
mod random;
mod refused;
mod report;
mod runs;
mod tally;
mod told;
mod trials;

use crate::cases::{Case, case_of};
use crate::difference::Difference;
use crate::mutated::{list_cut, mutated, script_cut, try_mutated};
use crate::random::Random;
use crate::refused::try_refused;
use crate::report::{print_case, print_tally};
use crate::runs::{Plan, plan_of, try_limit, try_whole};
use crate::tally::Tally;
use crate::trials::Trials;
use kernel::Kernel;
use machine::Machine;
use std::alloc::AllocError;
use std::process::ExitCode;
use std::{env, io};

// From so many scripts on, each call has to be answered at least once.
const ENOUGH: u64 = 1000;

fn main(rt: HostRuntime) -> ExitCode {
    match run::<Kernel>(&rt) {
        Ok(true) => ExitCode::from(0),
        Ok(false) => ExitCode::from(1),
        Err(_) => ExitCode::from(5),
    }
}

// Whether all agrees.
fn run<K: Machine>(rt: &HostRuntime) -> io::Result<bool> {
    let mut texts = Vec::new(rt.alloc());
    for text in env::args(rt)? {
        texts.push(text)?;
    }
    match texts.as_slice() {
        [_, seed, count] => match (seed.as_str().parse::<u64>(), count.as_str().parse::<u64>()) {
            (Ok(seed), Ok(count)) => try_all::<K>(rt, seed, count.min(1_000_000)),
            _ => usage(rt),
        },
        _ => usage(rt),
    }
}

fn usage(rt: &HostRuntime) -> io::Result<bool> {
    println!(rt; "usage: fuzz SEED COUNT")?;
    Ok(false)
}

fn try_all<K: Machine>(rt: &HostRuntime, seed: u64, count: u64) -> io::Result<bool> {
    let mut trials = Trials {
        heap: heap::open(rt.alloc())?,
        random: Random::new(seed),
        tally: Tally::new(),
    };
    for number in 0..count {
        let case = case_of(trials.heap, &mut trials.random)?;
        let right = try_case::<K>(rt, &mut trials, &case, number)?;
        if !right {
            return Ok(false);
        }
    }
    print_tally(rt, &trials.tally, count)?;
    if count >= ENOUGH && !trials.tally.has_each_call() {
        println!(rt; "There is a call that was never answered.")?;
        return Ok(false);
    }
    Ok(true)
}

// Whether a script and what comes of it by changes is as it has to be. What is not is printed.
fn try_case<K: Machine>(
    rt: &HostRuntime,
    trials: &mut Trials,
    case: &Case,
    number: u64,
) -> io::Result<bool> {
    if let Err(difference) = try_right::<K>(trials, case) {
        print_case(rt, case, difference)?;
        return Ok(false);
    }
    let changed = mutated(trials, case)?;
    let right = try_changed::<K>(rt, trials, &changed)?;
    if number == 0 && right {
        return try_cuts::<K>(rt, trials, case);
    }
    Ok(right)
}

// A limit that is often enough for all steps.
fn limit_of(random: &mut Random) -> usize {
    if random.once_in(3) {
        random.index(60)
    } else {
        200
    }
}

fn try_right<K: Machine>(trials: &mut Trials, case: &Case) -> Result<(), Difference> {
    let plan = plan_of(trials.heap, case)?;
    let tried = try_plan::<K>(trials, case, &plan);
    drop(plan);
    tried
}

fn try_plan<K: Machine>(trials: &mut Trials, case: &Case, plan: &Plan) -> Result<(), Difference> {
    try_whole::<K>(trials.heap, case, plan)?;
    let limit = limit_of(&mut trials.random);
    try_limit::<K>(trials, plan, limit)?;
    try_refused::<K>(trials, plan)
}

fn try_changed<K: Machine>(rt: &HostRuntime, trials: &mut Trials, case: &Case) -> io::Result<bool> {
    match try_mutated::<K>(trials, case) {
        Ok(()) => Ok(true),
        Err(difference) => {
            print_case(rt, case, difference)?;
            Ok(false)
        }
    }
}

// Tries each beginning of a script, and each of its schedule.
fn try_cuts<K: Machine>(rt: &HostRuntime, trials: &mut Trials, case: &Case) -> io::Result<bool> {
    for len in 0..case.script.len() {
        let cut = script_cut(trials.heap, case, len)?;
        let right = try_changed::<K>(rt, trials, &cut)?;
        if !right {
            return Ok(false);
        }
    }
    for len in 0..case.list.len() {
        let cut = list_cut(trials.heap, case, len)?;
        let right = try_changed::<K>(rt, trials, &cut)?;
        if !right {
            return Ok(false);
        }
    }
    Ok(true)
}
