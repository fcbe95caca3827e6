// Where a worker stands among the lines of its process.
ghost use Rattle.std.specs.Prelude.{◌≡◌, ◌<◌, ◌∷◌, [], length, IfNone, IfOk, IfSome};
ghost use Rattle.script.specs.Steps.{ops_for};
ghost use Rattle.workers.specs.Positions.{shown};
ghost use Rattle.workers.specs.Rules.{after, after_line, asked, at, behind_end, begun_by};
ghost use Rattle.workers.specs.Rules.{inside_after, moved_in, put_off, restarted, skipped, start};

use ids::{Op, Pid, Reply};
use script::Line;
use std::alloc::AllocError;

// How often a worker asks again for a line that is put off, and how often it goes back to one
// begin.
const MOST_TIMES: u32 = 100;

/// What a worker does next.
#[derive(Clone, Copy, Debug, PartialEq, Eq)]
pub enum Mode {
    /// It does the next line.
    AtLine,
    /// It gives up a transaction that restarted too often.
    GivingUp,
    /// It does nothing more, since its process is gone.
    Gone,
}

/// Where a worker stands among the lines of its process.
#[derive(Drop)]
pub struct Position<'a> {
    process: Pid,
    // The script from the next line on, with the lines of other processes.
    rest: &'a [Line],
    // How often the next line was put off.
    busy: u32,
    // The script behind the last begin, and how often the worker went back there.
    begun: Option<(&'a [Line], u32)>,
    inside: bool,
    mode: Mode,
}

// The next line of a process, and what stands behind it.
fn next_line(process: Pid, lines: &[Line]) -> Option<(&Op, &[Line])>
    ensures some { IfSome result (λ next.
        ops_for process lines.now ≡ next.0.now ∷ ops_for process next.1.now) }
    ensures shorter { IfSome result (λ next. length next.1.now < length lines.now) }
    ensures none { IfNone result (ops_for process lines.now ≡ []) }
{
    let mut rest = lines;
    while let Some((line, behind)) = rest.split_first() {
        if line.pid == process {
            return Some((&line.op, behind));
        }
        rest = behind;
    }
    None
}

// What stands behind the first line of a process that ends a transaction.
fn behind_end(process: Pid, lines: &[Line]) -> &[Line]
    ensures { ops_for process result.now ≡ behind_end (ops_for process lines.now) }
{
    let mut rest = lines;
    while let Some((op, behind)) = next_line(process, rest) {
        if let Op::End | Op::Abort { no_restart: _ } = op {
            return behind;
        }
        rest = behind;
    }
    &[]
}

impl<'a> Position<'a> {
    /// Before the first line of a process.
    pub fn start(process: Pid, lines: &'a [Line]) -> Position<'a>
        ensures { shown result ≡ start (ops_for process lines.now) }
    {
        Position {
            process,
            rest: lines,
            busy: 0,
            begun: None,
            inside: false,
            mode: Mode::AtLine,
        }
    }

    /// Whether the process is in a transaction.
    pub fn is_inside(&self) -> bool
        ensures { result ≡ (shown self.now).inside }
    {
        self.inside
    }

    /// A copy of the operation that is next, if there is one.
    pub fn next(&self) -> Result<Option<Op>, AllocError>
        ensures { IfOk result (λ operation. operation ≡ asked (shown self.now)) }
    {
        match self.mode {
            Mode::AtLine => match next_line(self.process, self.rest) {
                Some((op, _)) => Ok(Some(op.try_clone()?)),
                None => Ok(None),
            },
            Mode::GivingUp => Ok(Some(Op::Abort { no_restart: true })),
            Mode::Gone => Ok(None),
        }
    }

    /// Goes to where the worker stands after this reply to the operation that was next.
    #[tactic(auto, unfolding(crate::specs::Rules::after))]
    pub fn after(&mut self, reply: &Reply)
        ensures { shown self.new ≡ after (shown self.old) reply.now }
    {
        let inside = inside_after(self.inside, reply);
        self.move_on(reply);
        self.inside = inside;
    }

    fn move_on(&mut self, reply: &Reply)
        ensures { shown self.new
            ≡ moved_in (shown self.old) (shown self.old).rest (shown self.old).mode reply.now }
    {
        match self.mode {
            Mode::AtLine => {
                if let Some((op, behind)) = next_line(self.process, self.rest) {
                    self.after_line(op, behind, reply);
                }
            }
            Mode::GivingUp => match reply {
                Reply::NoProcess => self.mode = Mode::Gone,
                _ => self.skip(),
            },
            Mode::Gone => {}
        }
    }

    // After the reply to a line, with what stands behind it.
    fn after_line(&mut self, line: &Op, behind: &'a [Line], reply: &Reply)
        ensures { shown self.new ≡ after_line
            (shown self.old) line.now (ops_for self.old.process behind.now) reply.now }
    {
        match reply {
            Reply::Busy(_) => self.put_off(behind),
            Reply::Aborted { why: _, restarted } => {
                if *restarted {
                    self.restart();
                } else {
                    self.skip();
                }
            }
            Reply::GivenUp { restarted: true } => self.restart(),
            Reply::Begun => self.begin(line, behind),
            Reply::NoProcess => self.mode = Mode::Gone,
            _ => self.go_to(behind),
        }
    }

    // Asks for the line again, or goes on behind it.
    fn put_off(&mut self, behind: &'a [Line])
        ensures { shown self.new
            ≡ put_off (shown self.old) (ops_for self.old.process behind.now) }
    {
        if self.busy < MOST_TIMES {
            self.busy += 1;
        } else {
            self.go_to(behind);
        }
    }

    // Goes back behind the last begin, or gives the transaction up.
    fn restart(&mut self)
        ensures { shown self.new ≡ restarted (shown self.old) (shown self.old).begun }
    {
        match self.begun {
            Some((behind, times)) => {
                if times < MOST_TIMES {
                    self.go_to(behind);
                    self.begun = Some((behind, times + 1));
                } else {
                    self.mode = Mode::GivingUp;
                }
            }
            None => self.skip(),
        }
    }

    // Goes on behind a line after which a transaction has begun.
    fn begin(&mut self, line: &Op, behind: &'a [Line])
        ensures { shown self.new ≡ begun_by
            (shown self.old) line.now (ops_for self.old.process behind.now) }
    {
        self.go_to(behind);
        if let Op::Begin(_) = line {
            self.begun = Some((behind, 0));
        }
    }

    // Goes on behind the transaction.
    fn skip(&mut self)
        ensures { shown self.new ≡ skipped (shown self.old) }
    {
        self.go_to(behind_end(self.process, self.rest));
    }

    fn go_to(&mut self, rest: &'a [Line])
        ensures position { shown self.new
            ≡ at (shown self.old) (ops_for self.old.process rest.now) }
        ensures process { self.new.process ≡ self.old.process }
    {
        self.rest = rest;
        self.busy = 0;
        self.mode = Mode::AtLine;
    }
}

// Whether a process is in a transaction after a reply.
fn inside_after(inside: bool, reply: &Reply) -> bool
    ensures { result ≡ inside_after inside reply.now }
{
    match reply {
        Reply::Begun => true,
        Reply::Committed => false,
        Reply::GivenUp { restarted } => *restarted,
        Reply::Aborted { why: _, restarted } => *restarted,
        _ => inside,
    }
}
