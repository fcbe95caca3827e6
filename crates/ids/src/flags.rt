// Sets of named bits. Contracts see a set as the sum of its bits.
ghost use Rattle.std.specs.Prelude.{◌≡◌, ⊤, codes, [], ◌∷◌};
ghost use Rattle.std.specs.Int.RustNames.{bit_or};
ghost use Rattle.ids.specs.Flags.{open_bits, is_reading, is_writing, is_creating, is_exclusive};
ghost use Rattle.ids.specs.Flags.{is_truncating, is_appending};
ghost use Rattle.ids.specs.Flags.{begin_bits, is_restarting, is_aborting_unsupported};

use bitflags::{Flag, Flags, bitflag_items};

/// How a file is opened (POSIX.1-2017, open).
#[derive(Clone, Copy, Debug, PartialEq, Eq)]
pub struct OpenFlags(u8);

bitflag_items! {
    impl OpenFlags: u8 {
        const READ = 1;
        const WRITE = 2;
        const CREAT = 4;
        const EXCL = 8;
        const TRUNC = 16;
        const APPEND = 32;
    }
}

impl Flags for OpenFlags {
    type Bits = u8;

    ghost exact = { ⊤ };

    ghost table = { (codes "READ", 1) ∷ (codes "WRITE", 2) ∷ (codes "CREAT", 4)
        ∷ (codes "EXCL", 8) ∷ (codes "TRUNC", 16) ∷ (codes "APPEND", 32) ∷ [] };

    ghost set_of = { λ f. f.0 };

    fn flags<'a>() -> &'a [Flag<OpenFlags>] {
        OpenFlags::FLAGS
    }

    fn bits(&self) -> u8 {
        self.0
    }

    fn from_bits_retain(bits: u8) -> OpenFlags {
        OpenFlags(bits)
    }
}

impl OpenFlags {
    /// No flag.
    pub fn none() -> OpenFlags
        ensures { open_bits result ≡ 0 }
    {
        OpenFlags(0)
    }

    /// These flags and those of another.
    pub fn with(self, other: OpenFlags) -> OpenFlags
        ensures { open_bits result ≡ bit_or (open_bits self) (open_bits other) }
    {
        let mut both = self;
        both.insert(other);
        both
    }

    /// Whether it is opened for reading.
    pub fn reads(self) -> bool
        ensures { result ≡ is_reading self }
    {
        self.contains(OpenFlags::READ)
    }

    /// Whether it is opened for writing.
    pub fn writes(self) -> bool
        ensures { result ≡ is_writing self }
    {
        self.contains(OpenFlags::WRITE)
    }

    /// Whether a missing file is made.
    pub fn creates(self) -> bool
        ensures { result ≡ is_creating self }
    {
        self.contains(OpenFlags::CREAT)
    }

    /// Whether the file must be missing.
    pub fn is_exclusive(self) -> bool
        ensures { result ≡ is_exclusive self }
    {
        self.contains(OpenFlags::EXCL)
    }

    /// Whether the file is cut to nothing.
    pub fn truncates(self) -> bool
        ensures { result ≡ is_truncating self }
    {
        self.contains(OpenFlags::TRUNC)
    }

    /// Whether each write goes to the end.
    pub fn appends(self) -> bool
        ensures { result ≡ is_appending self }
    {
        self.contains(OpenFlags::APPEND)
    }
}

/// How a transaction begins (TxOS, sys_xbegin).
#[derive(Clone, Copy, Debug, PartialEq, Eq)]
pub struct BeginFlags(u8);

bitflag_items! {
    impl BeginFlags: u8 {
        const RESTART = 1;
        const ABORT_UNSUPPORTED = 2;
    }
}

impl Flags for BeginFlags {
    type Bits = u8;

    ghost exact = { ⊤ };

    ghost table = { (codes "RESTART", 1) ∷ (codes "ABORT_UNSUPPORTED", 2) ∷ [] };

    ghost set_of = { λ f. f.0 };

    fn flags<'a>() -> &'a [Flag<BeginFlags>] {
        BeginFlags::FLAGS
    }

    fn bits(&self) -> u8 {
        self.0
    }

    fn from_bits_retain(bits: u8) -> BeginFlags {
        BeginFlags(bits)
    }
}

impl BeginFlags {
    /// No flag.
    pub fn none() -> BeginFlags
        ensures { begin_bits result ≡ 0 }
    {
        BeginFlags(0)
    }

    /// These flags and those of another.
    pub fn with(self, other: BeginFlags) -> BeginFlags
        ensures { begin_bits result ≡ bit_or (begin_bits self) (begin_bits other) }
    {
        let mut both = self;
        both.insert(other);
        both
    }

    /// Whether it begins anew after an abort.
    pub fn restarts(self) -> bool
        ensures { result ≡ is_restarting self }
    {
        self.contains(BeginFlags::RESTART)
    }

    /// Whether a call that transactions do not support aborts it.
    pub fn aborts_unsupported(self) -> bool
        ensures { result ≡ is_aborting_unsupported self }
    {
        self.contains(BeginFlags::ABORT_UNSUPPORTED)
    }
}
