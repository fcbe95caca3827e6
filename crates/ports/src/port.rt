// The way of one process through the turnstile.
ghost use Rattle.std.specs.Prelude.{◌≡◌, []};
ghost use Rattle.turnstile.specs.Histories.{Begins};

use ids::{Op, Pid, Reply};
use machine::Machine;
use std::marker::Model;
use std::sync::Wait;
use turnstile::{Pass, Turnstile};
use workers::Port;

/// The way of one process through a turnstile. The turnstile's kernel had no entry when the
/// turnstile was made, so what was done through the port is what the process's own entries say.
/// Contracts see its pass.
#[derive(Drop)]
pub struct TurnstilePort<'a, K: Machine> {
    turnstile: &'a Turnstile<K>,
    pass: Pass<K>,
}

impl<'a, K: Machine> Model for TurnstilePort<'a, K> {
    ghost use Rattle.std.specs.Prelude.{◌≡◌, []};
    ghost use Rattle.turnstile.specs.Histories.{Begins};
    ghost use Rattle.turnstile.specs.Passes.{PassView};

    ghost Value = { PassView };

    ghost view = { λ p. p.pass };

    ghost invariant = { λ p. (p.pass.gate ≡ p.turnstile.now)
        × (p.pass.gate.start.entries ≡ [])
        × Begins p.pass.gate.start p.pass.seen };
}

impl<'a, K: Machine> TurnstilePort<'a, K> {
    /// The port of a pass, which goes to the turnstile that the pass is of.
    pub fn new(turnstile: &'a Turnstile<K>, pass: Pass<K>) -> TurnstilePort<'a, K>
        requires gate { pass.gate ≡ turnstile.now }
        requires fresh { turnstile.now.start.entries ≡ [] }
        requires begun { Begins pass.gate.start pass.seen }
        ensures { result ≡ pass }
    {
        TurnstilePort { turnstile, pass }
    }

    /// The pass.
    pub fn into_pass(self) -> Pass<K>
        ensures same { result ≡ self.entry }
        ensures begun { Begins self.entry.gate.start self.entry.seen }
    {
        self.pass
    }
}

impl<'a, K: Machine> Port for TurnstilePort<'a, K> {
    ghost use Rattle.ports.specs.Ports.{done_by};
    ghost use Rattle.turnstile.specs.Passes.{Gate};

    ghost Home = { Gate };

    ghost home = { λ p. p.gate };

    ghost number = { λ p. p.pid };

    ghost done = { done_by };

    fn pid(&self) -> Pid {
        self.pass.pid()
    }

    fn call<R: Wait>(&mut self, rt: &R, operation: Op) -> Reply {
        self.turnstile.call(rt, &mut self.pass, operation)
    }

    fn fork<R: Wait>(&mut self, rt: &R) -> Result<(Pid, Self), Reply> {
        match self.turnstile.fork(rt, &mut self.pass) {
            Ok((pid, pass)) => Ok((
                pid,
                TurnstilePort {
                    turnstile: self.turnstile,
                    pass,
                },
            )),
            Err(reply) => Err(reply),
        }
    }
}
