// Scripts in their spelling.
ghost use Rattle.std.specs.Prelude.{◌≡◌, ◌≤◌, ◌<◌, ◌+◌, ◌^◌, ◌++◌, ◌∷◌, [], Some};
ghost use Rattle.std.specs.Prelude.{Ok, IfOk, IfErr, IfSome, OnOk, All, length};
ghost use Rattle.script.specs.Numbers.{decimal_in};
ghost use Rattle.script.specs.Scripts.{IsFault, NoPriorities, behind_head, from_head};
ghost use Rattle.script.specs.Scripts.{is_skipped, line_of, lines_after, lines_next};
ghost use Rattle.script.specs.Scripts.{pid_in, priorities_after, priorities_of, script_of};
ghost use Rattle.script.specs.Contents.{AreValidPriorities};

use crate::faults::ScriptFault;
use crate::limits::{PROCESS_NUMBERS_END, SCRIPT_LIMIT, TOP_PRIORITY};
use crate::number::number_in;
use crate::operation::arguments;
use crate::pieces::Pieces;
use crate::verb::verb_in;
use crate::word::WordFault;
use heap::Heap;
use ids::{MAX_PROCESSES, Op, Pid, Priority};
use std::alloc::AllocError;
use std::marker::Model;

// The most lines that a script has: the shortest is `1 end` with its line feed.
const MOST_LINES: usize = SCRIPT_LIMIT / 6;

/// A line of a script: what a process does next.
#[derive(Debug, Drop)]
pub struct Line {
    /// The process.
    pub pid: Pid,
    /// Its operation.
    pub op: Op,
    /// Its number in the text, counted from 1, skipped lines too.
    pub number: usize,
}

/// The priorities of the processes that are made at the start, and the lines.
#[derive(Debug)]
pub struct Script {
    priorities: Vec<Priority, Heap>,
    lines: Vec<Line, Heap>,
}

impl Drop for Script {
    fn drop(self) {
        let Script {
            priorities: _,
            lines: _,
        } = self;
    }
}

impl Model for Script {
    ghost use Rattle.script.specs.Contents.{AreValidPriorities, ScriptContents};

    ghost Value = { ScriptContents };

    ghost view = { λ s. record { priorities = s.priorities.items; lines = s.lines.items } };

    ghost invariant = { λ s. AreValidPriorities s.priorities.items };
}

impl Script {
    /// The priorities, from process 1 on: 1 to [`MAX_PROCESSES`] of them, each at most
    /// [`TOP_PRIORITY`].
    pub fn priorities(&self) -> &[Priority]
        ensures value { result.now ≡ self.now.priorities }
        ensures lawful { AreValidPriorities result.now }
    {
        self.priorities.as_slice()
    }

    /// The lines, in order.
    pub fn lines(&self) -> &[Line]
        ensures { result.now ≡ self.now.lines }
    {
        self.lines.as_slice()
    }

    /// The lines, in order, with no memory.
    pub fn into_lines(self) -> Vec<Line, Heap>
        ensures { result.items ≡ self.lines }
    {
        let Script {
            priorities: _,
            lines,
        } = self;
        lines
    }
}

// The process number that a word spells, from 1 on.
pub(crate) fn pid_in(word: &[u8]) -> Option<Pid>
    ensures value { result ≡ pid_in word.now }
    ensures small { IfSome result (λ p. p < PROCESS_NUMBERS_END) }
{
    let n = number_in(word, MAX_PROCESSES)?;
    if n == 0 { None } else { Some(Pid(n)) }
}

// The priority that a word spells.
fn priority_in(word: &[u8]) -> Option<Priority>
    ensures value { result ≡ decimal_in TOP_PRIORITY word.now }
    ensures small { IfSome result (λ p. p ≤ TOP_PRIORITY) }
{
    let n = number_in(word, TOP_PRIORITY)?;
    Priority::new(n as u8)
}

// Adds the priorities that words spell to those that are there. The line has this number.
fn read_priorities(
    number: usize,
    words: &mut Pieces<'_>,
    priorities: &mut Vec<Priority, Heap>,
) -> Result<(), ScriptFault>
    requires { All (λ n. n ≤ TOP_PRIORITY) priorities.old.items }
    ensures value { OnOk result
        (priorities_after priorities.old.items words.old ≡ Some priorities.new.items) }
    ensures each { OnOk result (All (λ n. n ≤ TOP_PRIORITY) priorities.new.items) }
    ensures fault { IfErr result
        (NoPriorities number (priorities_after priorities.old.items words.old)) }
{
    while let Some(word) = words.next() {
        let Some(priority) = priority_in(word) else {
            return Err(ScriptFault::PrioritiesExpected(number));
        };
        if priorities.push(priority).is_err() {
            return Err(ScriptFault::NoMemory);
        }
    }
    Ok(())
}

// The priorities of the first line, which has this number.
pub(crate) fn priorities_of(
    heap: Heap,
    number: usize,
    words: &mut Pieces<'_>,
) -> Result<Vec<Priority, Heap>, ScriptFault>
    ensures value { IfOk result (λ v. priorities_of words.old ≡ Some v.items) }
    ensures lawful { IfOk result (λ v. AreValidPriorities v.items) }
    ensures fault { IfErr result (NoPriorities number (priorities_of words.old)) }
{
    let Some(first) = words.next() else {
        return Err(ScriptFault::PrioritiesExpected(number));
    };
    if first != b"priorities".as_slice() {
        return Err(ScriptFault::PrioritiesExpected(number));
    }
    let mut priorities = Vec::new(heap);
    read_priorities(number, words, &mut priorities)?;
    if priorities.len() >= 1 && priorities.len() <= MAX_PROCESSES as usize {
        Ok(priorities)
    } else {
        Err(ScriptFault::PrioritiesExpected(number))
    }
}

// A further line, which has this number.
#[tactic(auto, unfolding(crate::specs::Scripts::line_of))]
pub(crate) fn line_of(
    heap: Heap,
    number: usize,
    words: &mut Pieces<'_>,
) -> Result<Line, ScriptFault>
    ensures line { IfOk result (λ line. line_of number words.old ≡ Ok line) }
    ensures fault { IfErr result (IsFault (line_of number words.old)) }
{
    let Some(first) = words.next() else {
        return Err(ScriptFault::ProcessExpected(number));
    };
    let Some(pid) = pid_in(first) else {
        return Err(ScriptFault::ProcessExpected(number));
    };
    let Some(second) = words.next() else {
        return Err(ScriptFault::UnknownOperation(number));
    };
    let Some(verb) = verb_in(second) else {
        return Err(ScriptFault::UnknownOperation(number));
    };
    match arguments(heap, verb, words) {
        Ok(op) => Ok(Line { pid, op, number }),
        Err(WordFault::Malformed) => Err(ScriptFault::BadArguments(number)),
        Err(WordFault::NoMemory) => Err(ScriptFault::NoMemory),
    }
}

// Whether a line is empty or a comment.
pub(crate) fn is_skipped(line: &[u8]) -> bool
    ensures { result ≡ is_skipped line.now }
{
    match line {
        [] => true,
        [first, ..] => *first == b'#',
    }
}

// Adds a line. Where memory is refused the line is dropped.
fn push(lines: &mut Vec<Line, Heap>, line: Line) -> Result<(), AllocError>
    ensures { OnOk result (lines.new.items ≡ lines.old.items ++ line ∷ []) }
{
    lines.push(line)?;
    Ok(())
}

// Adds the line that words spell, which has this number.
fn add_line(
    heap: Heap,
    number: usize,
    words: &mut Pieces<'_>,
    lines: &mut Vec<Line, Heap>,
) -> Result<(), ScriptFault>
    ensures line { OnOk result
        (lines_next Ok lines.old.items (line_of number words.old) ≡ Ok lines.new.items) }
    ensures fault { IfErr result (IsFault (line_of number words.old)) }
{
    let line = line_of(heap, number, words)?;
    match push(lines, line) {
        Ok(()) => Ok(()),
        Err(_) => Err(ScriptFault::NoMemory),
    }
}

// Adds the lines that the pieces between the line feeds spell. The first piece has this number.
fn read_lines(
    heap: Heap,
    first: usize,
    pieces: &mut Pieces<'_>,
    lines: &mut Vec<Line, Heap>,
) -> Result<(), ScriptFault>
    requires { first + length pieces.old < 2 ^ 64 }
    ensures lines { OnOk result
        (lines_after first lines.old.items pieces.old ≡ Ok lines.new.items) }
    ensures fault { IfErr result (IsFault (lines_after first lines.old.items pieces.old)) }
{
    let mut number = first;
    while let Some(line) = pieces.next() {
        if pieces.is_empty() {
            if !line.is_empty() {
                return Err(ScriptFault::NotEnded(number));
            }
        } else if !is_skipped(line) {
            add_line(heap, number, &mut Pieces::new(line, b' '), lines)?;
        }
        number += 1;
    }
    Ok(())
}

// The script of its first line, which has this number and these words, and the pieces behind it.
fn script_of(
    heap: Heap,
    number: usize,
    words: &mut Pieces<'_>,
    pieces: &mut Pieces<'_>,
) -> Result<Script, ScriptFault>
    requires { number + 1 + length pieces.old < 2 ^ 64 }
    ensures script { IfOk result (λ script.
        behind_head number (priorities_of words.old) pieces.old ≡ Ok script) }
    ensures fault { IfErr result
        (IsFault (behind_head number (priorities_of words.old) pieces.old)) }
{
    let priorities = priorities_of(heap, number, words)?;
    let Ok(mut lines) = Vec::with_capacity(heap, pieces.len().min(MOST_LINES)) else {
        return Err(ScriptFault::NoMemory);
    };
    read_lines(heap, number + 1, pieces, &mut lines)?;
    Ok(Script { priorities, lines })
}

// The script that the pieces between the line feeds spell.
fn script_from(heap: Heap, pieces: &mut Pieces<'_>) -> Result<Script, ScriptFault>
    requires { length pieces.old < 2 ^ 63 }
    ensures script { IfOk result (λ script. from_head 1 pieces.old ≡ Ok script) }
    ensures fault { IfErr result (IsFault (from_head 1 pieces.old)) }
{
    let mut number = 1;
    while let Some(line) = pieces.next() {
        if pieces.is_empty() {
            return Err(if line.is_empty() {
                ScriptFault::PrioritiesExpected(number)
            } else {
                ScriptFault::NotEnded(number)
            });
        }
        if !is_skipped(line) {
            return script_of(heap, number, &mut Pieces::new(line, b' '), pieces);
        }
        number += 1;
    }
    Err(ScriptFault::PrioritiesExpected(number))
}

/// Reads the script that a text spells, or finds its first fault: that the text is too long, or
/// else that of the first line that has one. `NoMemory` is returned where memory was refused, and
/// says nothing of the text.
pub fn read_script(heap: Heap, text: &[u8]) -> Result<Script, ScriptFault>
    ensures script { IfOk result (λ script. script_of text.now ≡ Ok script) }
    ensures fault { IfErr result (IsFault (script_of text.now)) }
{
    if text.len() > SCRIPT_LIMIT {
        return Err(ScriptFault::TooLong);
    }
    script_from(heap, &mut Pieces::new(text, b'\n'))
}
