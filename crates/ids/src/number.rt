// Numbers by which the kernel's objects go. Contracts see each as a natural number.
ghost use Rattle.std.specs.Prelude.{◌≡◌, ◌<◌, ◌↔◌, IfSome, IsSome};

use std::marker::Model;

/// A process: 1, 2, 3, .. in the order in which processes are made, and never used again.
#[derive(Clone, Copy, Debug, Default, PartialEq, Eq, PartialOrd, Ord)]
pub struct Pid(pub u32);

impl Model for Pid {
    ghost use Rattle.std.specs.Prelude.{ℕ};

    ghost Value = { ℕ };

    ghost view = { λ a. a.0 };

    ghost inverse = { λ n. record { 0 = n } };
}

/// An inode or a description: the two draw their numbers from one range.
#[derive(Clone, Copy, Debug, Default, PartialEq, Eq, PartialOrd, Ord)]
pub struct Num(pub usize);

impl Model for Num {
    ghost use Rattle.std.specs.Prelude.{ℕ};

    ghost Value = { ℕ };

    ghost view = { λ a. a.0 };

    ghost inverse = { λ n. record { 0 = n } };
}

/// A descriptor of a process. Open descriptors are below the kernel's number of them; an operation may
/// name any.
#[derive(Clone, Copy, Debug, Default, PartialEq, Eq, PartialOrd, Ord)]
pub struct Fd(pub u32);

impl Model for Fd {
    ghost use Rattle.std.specs.Prelude.{ℕ};

    ghost Value = { ℕ };

    ghost view = { λ a. a.0 };

    ghost inverse = { λ n. record { 0 = n } };
}

/// When a transaction began first: the place of that entry in the history.
#[derive(Clone, Copy, Debug, Default, PartialEq, Eq, PartialOrd, Ord)]
pub struct Age(pub u64);

impl Model for Age {
    ghost use Rattle.std.specs.Prelude.{ℕ};

    ghost Value = { ℕ };

    ghost view = { λ a. a.0 };

    ghost inverse = { λ n. record { 0 = n } };
}

/// The priority of a process, from 0 to 7. The higher one wins a conflict.
#[derive(Clone, Copy, Debug, PartialEq, Eq, PartialOrd, Ord)]
pub struct Priority {
    level: u8,
}

impl Model for Priority {
    ghost use Rattle.std.specs.Prelude.{ℕ, ◌<◌};

    ghost Value = { ℕ };

    ghost view = { λ p. p.level };

    ghost invariant = { λ p. p.level < 8 };

    ghost inverse = { λ n. record { level = n } };
}

impl Priority {
    /// The priority of this level, or `None` exactly above 7.
    pub fn new(level: u8) -> Option<Priority>
        ensures value { IfSome result (λ p. p ≡ level) }
        ensures exactly { IsSome result ↔ (level < 8) }
    {
        if level < 8 {
            Some(Priority { level })
        } else {
            None
        }
    }

    /// Its level, below 8.
    pub fn level(self) -> u8
        ensures value { result ≡ self }
        ensures small { result < 8 }
    {
        self.level
    }
}
