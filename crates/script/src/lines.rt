// Lines of a script that come one by one.
ghost use Rattle.std.specs.Prelude.{◌≡◌, Ok, IfOk, IfErr, IfSome, option_map};
ghost use Rattle.script.specs.Contents.{AreValidPriorities};
ghost use Rattle.script.specs.Lines.{first_line_of, further_line_of};
ghost use Rattle.script.specs.Scripts.{IsFault};

use crate::Line;
use crate::faults::ScriptFault;
use crate::limits::SCRIPT_LIMIT;
use crate::pieces::Pieces;
use crate::read::{is_skipped, line_of, priorities_of};
use heap::Heap;
use ids::Priority;

/// Reads a line that comes before there are priorities, without its line feed. It has this number,
/// counted from 1. Returns the priorities of the processes that are made at the start, or None
/// where the line is skipped.
///
/// A line of more than [`SCRIPT_LIMIT`] bytes is a fault, whatever it begins with. `NoMemory` is
/// returned where memory was refused, and says nothing of the line.
pub fn read_first_line(
    heap: Heap,
    number: usize,
    line: &[u8],
) -> Result<Option<Vec<Priority, Heap>>, ScriptFault>
    ensures line { IfOk result (λ said.
        first_line_of number line.now ≡ Ok (option_map (λ v. v.items) said)) }
    ensures lawful { IfOk result (λ said. IfSome said (λ v. AreValidPriorities v.items)) }
    ensures fault { IfErr result (IsFault (first_line_of number line.now)) }
{
    if line.len() > SCRIPT_LIMIT {
        return Err(ScriptFault::LineTooLong(number));
    }
    if is_skipped(line) {
        return Ok(None);
    }
    let priorities = priorities_of(heap, number, &mut Pieces::new(line, b' '))?;
    Ok(Some(priorities))
}

/// Reads a line that comes behind the priorities, without its line feed. It has this number,
/// counted from 1. Returns the operation of a process, or None where the line is skipped.
///
/// A line of more than [`SCRIPT_LIMIT`] bytes is a fault, whatever it begins with. `NoMemory` is
/// returned where memory was refused, and says nothing of the line.
pub fn read_further_line(
    heap: Heap,
    number: usize,
    line: &[u8],
) -> Result<Option<Line>, ScriptFault>
    ensures line { IfOk result (λ said. further_line_of number line.now ≡ Ok said) }
    ensures fault { IfErr result (IsFault (further_line_of number line.now)) }
{
    if line.len() > SCRIPT_LIMIT {
        return Err(ScriptFault::LineTooLong(number));
    }
    if is_skipped(line) {
        return Ok(None);
    }
    let further = line_of(heap, number, &mut Pieces::new(line, b' '))?;
    Ok(Some(further))
}
