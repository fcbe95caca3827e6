// Scripts and schedules of which something was changed.
use crate::cases::Case;
use crate::difference::{Difference, require};
use crate::random::Random;
use crate::runs::run_whole;
use crate::trials::Trials;
use heap::Heap;
use machine::Machine;
use runner::RunFault;
use script::{ScriptFault, read_script};
use std::alloc::AllocError;

// The bytes that a script is changed to.
static SCRIPT_BYTES: &[u8; 41] = b"\n\n\n    ##,,\\\\-0012345789aefxzCRDWPTAS_/.\0";

// The bytes that a schedule is changed to.
static LIST_BYTES: &[u8; 16] = b",,, 001234599-a\n";

fn byte_of(random: &mut Random, bytes: &[u8]) -> u8 {
    let index = random.index(bytes.len());
    match bytes.get(index) {
        Some(byte) => *byte,
        None => 0,
    }
}

// The index behind so many line feeds, or the end.
fn behind_lines(text: &[u8], lines: usize) -> usize {
    let mut left = lines;
    for (index, byte) in text.iter().enumerate() {
        if left == 0 {
            return index;
        }
        if *byte == b'\n' {
            left -= 1;
        }
    }
    text.len()
}

// Changes, drops or doubles one byte.
fn mutate_byte(
    text: &mut Vec<u8, Heap>,
    random: &mut Random,
    bytes: &[u8],
) -> Result<(), AllocError> {
    let index = random.index(text.len());
    let byte = byte_of(random, bytes);
    if index >= text.len() {
        text.push(byte)?;
        return Ok(());
    }
    match random.below(4) {
        0 => {
            let _byte = text.remove(index);
        }
        1 => text.insert(index, byte)?,
        2 => text.insert(index, text[index])?,
        _ => text[index] = byte,
    }
    Ok(())
}

// A text without what stands between two indices.
fn without(heap: Heap, text: &[u8], from: usize, to: usize) -> Result<Vec<u8, Heap>, AllocError> {
    let mut rest = Vec::new(heap);
    let from = from.min(text.len());
    rest.extend_from_slice(&text[..from])?;
    rest.extend_from_slice(&text[to.min(text.len())..])?;
    Ok(rest)
}

// A text without one of its first 40 lines.
fn without_line(heap: Heap, random: &mut Random, text: &[u8]) -> Result<Vec<u8, Heap>, AllocError> {
    let number = random.index(40);
    let from = behind_lines(text, number);
    let to = behind_lines(text, number + 1);
    without(heap, text, from, to)
}

fn mutated_script(
    heap: Heap,
    random: &mut Random,
    script: &[u8],
) -> Result<Vec<u8, Heap>, AllocError> {
    if random.once_in(4) {
        return without_line(heap, random, script);
    }
    let mut text = Vec::from_slice(heap, script)?;
    for _ in 0..=random.below(3) {
        mutate_byte(&mut text, random, SCRIPT_BYTES)?;
    }
    Ok(text)
}

fn mutated_list(heap: Heap, random: &mut Random, list: &[u8]) -> Result<Vec<u8, Heap>, AllocError> {
    let mut text = Vec::from_slice(heap, list)?;
    if random.once_in(4) {
        mutate_byte(&mut text, random, LIST_BYTES)?;
    }
    Ok(text)
}

// A script and its schedule, of which one or both are changed.
pub(crate) fn mutated(trials: &mut Trials, case: &Case) -> Result<Case, AllocError> {
    let script = mutated_script(trials.heap, &mut trials.random, case.script.as_slice())?;
    let list = mutated_list(trials.heap, &mut trials.random, case.list.as_slice())?;
    Ok(Case { script, list })
}

// The first bytes of a script, with the whole schedule.
pub(crate) fn script_cut(heap: Heap, case: &Case, len: usize) -> Result<Case, AllocError> {
    let script = case.script.as_slice();
    Ok(Case {
        script: Vec::from_slice(heap, &script[..len.min(script.len())])?,
        list: Vec::from_slice(heap, case.list.as_slice())?,
    })
}

// A script with the first bytes of its schedule.
pub(crate) fn list_cut(heap: Heap, case: &Case, len: usize) -> Result<Case, AllocError> {
    let list = case.list.as_slice();
    Ok(Case {
        script: Vec::from_slice(heap, case.script.as_slice())?,
        list: Vec::from_slice(heap, &list[..len.min(list.len())])?,
    })
}

fn line_of(fault: ScriptFault) -> usize {
    match fault {
        ScriptFault::NotEnded(number)
        | ScriptFault::PrioritiesExpected(number)
        | ScriptFault::ProcessExpected(number)
        | ScriptFault::UnknownOperation(number)
        | ScriptFault::BadArguments(number)
        | ScriptFault::LineTooLong(number) => number,
        ScriptFault::TooLong | ScriptFault::NoMemory => 0,
    }
}

fn fault_of(heap: Heap, text: &[u8]) -> Option<ScriptFault> {
    match read_script(heap, text) {
        Ok(script) => {
            drop(script);
            None
        }
        Err(fault) => Some(fault),
    }
}

// Whether a fault is that of its line: the text up to this line has it, and the text before has
// none, but that there may be no priorities yet.
fn is_first(heap: Heap, text: &[u8], fault: ScriptFault) -> bool {
    let number = line_of(fault);
    if number == 0 {
        return false;
    }
    let end = behind_lines(text, number).min(text.len());
    let start = behind_lines(text, number - 1).min(text.len());
    let before = match fault_of(heap, &text[..start]) {
        None => true,
        Some(other) => other == ScriptFault::PrioritiesExpected(number),
    };
    before && fault_of(heap, &text[..end]) == Some(fault)
}

// A script and schedule that may be anything run and pass the check, or have their first fault.
pub(crate) fn try_mutated<K: Machine>(trials: &mut Trials, case: &Case) -> Result<(), Difference> {
    match run_whole::<K>(trials.heap, case) {
        Ok(transcript) => {
            drop(transcript);
            trials.tally.read = trials.tally.read.wrapping_add(1);
            Ok(())
        }
        Err(RunFault::Script(fault)) => {
            trials.tally.add_script_fault(fault);
            let first = is_first(trials.heap, case.script.as_slice(), fault);
            require(first, Difference::NotFirst)
        }
        Err(RunFault::Schedule(fault)) => {
            trials.tally.add_schedule_fault(fault);
            Ok(())
        }
        Err(_) => Err(Difference::Fault),
    }
}
