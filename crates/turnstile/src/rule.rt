//! The table of one word and one slot, what its seats know, and what each step collects.
use atomic_table::{Join, Play, Split, TableRule};
use history::History;
use machine::Machine;
use std::snapshot::Snapshot;

/// The state of a pass. No value of it is made.
pub struct PassState {
    /// Its process.
    pub pid: u64,
    /// A beginning of the history, with all of the process's own entries.
    pub seen: History,
    /// The history when the turnstile was made.
    pub start: History,
}

/// The state of a seat. No value of it is made. `specs/Rule.antt` draws its moves.
pub enum Role {
    /// It knows nothing.
    Nobody,
    /// It gives out the passes of the processes from this number on.
    Deals(u64, History),
    /// It is the pass of a process.
    Process(PassState),
    /// It has the kernel, whose history is what it has seen.
    Takes(PassState),
    /// It is a pass that keeps the number of the process that was made last in what it has seen,
    /// until that has a pass of its own.
    Bears(PassState),
    /// It is no process, and knows a beginning of the history.
    Knows(History),
    /// A pass that was told of another beginning of the history.
    Meets(PassState, History),
    /// It has the kernel for ever, with this history.
    Closes(History),
    /// It has the kernel for ever, and has collected a pass of which nothing is told yet.
    Checks(History, PassState),
}

/// The rule of the table.
pub struct OneLock;

impl<K: Machine> TableRule<Option<K>, Role, Snapshot<History>> for OneLock {
    ghost use Rattle.turnstile.specs.Histories.{IsLegal};
    ghost use Rattle.turnstile.specs.Rule.{Kept};
    ghost use Rattle.turnstile.specs.declared.rule.Role.TheVariants.{Deals};

    ghost holds = { λ key. Kept (λ k. (K.shown k).log) IsLegal key.value };

    ghost first = { λ key. Deals 0 key.value };
}

/// Takes the kernel where the word is free.
pub struct Take;

impl<K: Machine> Play<Option<K>, Role> for Take {
    ghost use Rattle.turnstile.specs.Histories.{IsLegal};
    ghost use Rattle.turnstile.specs.Rule.{took};

    ghost then = { took (λ k. (K.shown k).log) IsLegal };
}

/// Gives the kernel back.
pub struct Give;

impl<K: Machine> Play<Option<K>, Role> for Give {
    ghost use Rattle.turnstile.specs.Rule.{gave};

    ghost then = { gave (λ k. (K.shown k).log) };
}

/// Gives the kernel back, and keeps the number of the process that was made.
pub struct GiveBorn;

impl<K: Machine> Play<Option<K>, Role> for GiveBorn {
    ghost use Rattle.turnstile.specs.Rule.{gave_born};

    ghost then = { gave_born (λ k. (K.shown k).log) };
}

/// Cuts off the seat of the process that was made.
pub struct Born;

impl Split<Role> for Born {
    ghost use Rattle.turnstile.specs.Rule.{bore, born};

    ghost left = { bore };

    ghost right = { born };
}

/// Takes the kernel for ever.
pub struct Close;

impl<K: Machine> Play<Option<K>, Role> for Close {
    ghost use Rattle.turnstile.specs.Histories.{IsLegal};
    ghost use Rattle.turnstile.specs.Rule.{closed};

    ghost then = { closed (λ k. (K.shown k).log) IsLegal };
}

/// Tells that the closed history begins with what the collected pass had seen.
pub struct Check;

impl<K: Machine> Play<Option<K>, Role> for Check {
    ghost use Rattle.turnstile.specs.Rule.{checked};

    ghost then = { checked };
}

/// Cuts off the seat of the next process.
pub struct Deal;

impl Split<Role> for Deal {
    ghost use Rattle.turnstile.specs.Rule.{dealt_on, dealt};

    ghost left = { dealt_on };

    ghost right = { dealt };
}

/// The closing seat collects a pass.
pub struct Collect;

impl Join<Role> for Collect {
    ghost use Rattle.turnstile.specs.declared.rule.Role.TheVariants.{Nobody};
    ghost use Rattle.turnstile.specs.Rule.{collected};

    ghost both = { collected };

    ghost spent = { Nobody };
}

/// Cuts off what a pass has seen.
pub struct Copied;

impl Split<Role> for Copied {
    ghost use Rattle.turnstile.specs.Rule.{copied};

    ghost left = { λ v. v };

    ghost right = { copied };
}

/// A pass takes in what another has seen.
pub struct Inform;

impl Join<Role> for Inform {
    ghost use Rattle.turnstile.specs.declared.rule.Role.TheVariants.{Nobody};
    ghost use Rattle.turnstile.specs.Rule.{informed};

    ghost both = { informed };

    ghost spent = { Nobody };
}

/// Compares what a pass has seen with what it was told.
pub struct Compare;

impl<K: Machine> Play<Option<K>, Role> for Compare {
    ghost use Rattle.turnstile.specs.Rule.{compared};

    ghost then = { compared };
}
