// What is printed: what has come up, or the script with which something is not as it has to be.
use crate::cases::Case;
use crate::difference::Difference;
use crate::runs::text_of;
use crate::tally::{CALLS, FAULTS, REPLIES, Tally};
use device::{Counted, write_all};
use std::io;

fn print_counts(rt: &HostRuntime, names: &[&str], counts: &[u64]) -> io::Result<()> {
    for (name, count) in names.iter().zip(counts) {
        println!(rt; "  {count} {name}")?;
    }
    Ok(())
}

// Prints what has come up in so many scripts. How often memory was refused is the kernel's own
// affair, and goes to standard error.
pub(crate) fn print_tally(rt: &HostRuntime, tally: &Tally, count: u64) -> io::Result<()> {
    let steps = tally.steps;
    println!(rt; "{count} scripts pass the check. Under a limit, of {steps} replies:")?;
    print_counts(rt, &REPLIES, &tally.replies)?;
    println!(rt; "The answers, by their calls:")?;
    print_counts(rt, &CALLS, &tally.calls)?;
    let dooms = tally.dooms;
    let restarts = tally.restarts;
    println!(rt; "{dooms} transactions were doomed, and {restarts} begun anew")?;
    let read = tally.read;
    println!(rt; "Of the changed scripts {read} pass the check. The others:")?;
    print_counts(rt, &FAULTS, &tally.faults)?;
    let refused = tally.refused;
    let left_out = tally.left_out;
    let silent = tally.silent;
    eprintln!(rt; "{refused} steps were refused memory, and {left_out} of them were left out")?;
    eprintln!(rt; "{silent} ends, aborts and notices asked for none")
}

// Prints a script, and what is not as it has to be.
pub(crate) fn print_case(rt: &HostRuntime, case: &Case, difference: Difference) -> io::Result<()> {
    let text = difference.text();
    println!(rt; "{text}")?;
    let list = text_of(case.list.as_slice());
    println!(rt; "schedule: {list}")?;
    let mut out = Counted::new(rt.stdout());
    let _ = write_all(&mut out, case.script.as_slice());
    Ok(())
}
