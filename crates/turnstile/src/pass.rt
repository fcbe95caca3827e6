// What one process carries from call to call.
ghost use Rattle.std.specs.Prelude.{◌≡◌};

use crate::rule::Role;
use atomic_table::Seat;
use ids::Pid;
use machine::Machine;
use std::marker::Model;

/// The right to make the steps of one process at one turnstile. Contracts see the process, and what
/// the pass has seen of the history.
#[derive(Drop)]
pub struct Pass<K: Machine> {
    pub(crate) pid: Pid,
    pub(crate) seat: Seat<Option<K>, Role>,
}

impl<K: Machine> Model for Pass<K> {
    ghost use Rattle.std.specs.Prelude.{◌≡◌, []};
    ghost use Rattle.turnstile.specs.Histories.{IsLegal};
    ghost use Rattle.turnstile.specs.Passes.{PassView, pass_view, pass_of};
    ghost use Rattle.turnstile.specs.declared.rule.Role.TheVariants.{Process};

    ghost Value = { PassView };

    ghost view = { λ p. pass_view p.seat.table_id (pass_of p.seat.me.0) };

    ghost invariant = { λ p. (p.seat.me ≡ (Process (pass_of p.seat.me.0), []))
        × (p.pid ≡ (pass_of p.seat.me.0).pid)
        × IsLegal (pass_of p.seat.me.0).seen };
}

impl<K: Machine> Pass<K> {
    /// The process whose steps it makes.
    pub fn pid(&self) -> Pid
        ensures { result ≡ self.now.pid }
    {
        self.pid
    }
}
