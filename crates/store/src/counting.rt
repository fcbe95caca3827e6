//! How many numbers are in use, how many descriptions are open on a file, and how many descriptors name a
//! description.
ghost use Rattle.std.specs.Prelude.{◌≡◌, ◌<◌, ◌+◌, ◌^◌};
ghost use Rattle.store.specs.Places.{altered, holders_at, less_holders, less_openings};
ghost use Rattle.store.specs.Places.{more_holders, more_openings, openings_at, with_file};
ghost use Rattle.store.specs.Places.{with_opened};
ghost use Rattle.store.specs.Shown.{descriptions, inodes};

use crate::{Store, contents};
use ids::Num;

impl Store {
    /// How many numbers are in use: of inodes and of descriptions that are shown, of those to come, and of
    /// directories in which room is still promised. Contracts do not know it.
    pub fn in_use(&self) -> usize {
        self.headers.len()
    }

    /// How many descriptions are counted as open on a file.
    pub fn openings(&self, num: Num) -> u128
        ensures { result ≡ openings_at self.now num }
    {
        contents::openings_at(&self.headers, num.0)
    }

    /// Counts one description more, or one less, as open on a file; where the number is of none,
    /// nothing changes.
    pub fn add_opening(&mut self, num: Num)
        requires { openings_at self.old num + 1 < 2 ^ 128 }
        ensures counted { self.new ≡ altered (with_file more_openings) self.old num }
        ensures shown { inodes self.new ≡ inodes self.old }
        ensures open { descriptions self.new ≡ descriptions self.old }
    {
        contents::add_opening_at(&mut self.headers, num.0);
    }

    /// See [`Store::add_opening`].
    pub fn remove_opening(&mut self, num: Num)
        ensures counted { self.new ≡ altered (with_file less_openings) self.old num }
        ensures shown { inodes self.new ≡ inodes self.old }
        ensures open { descriptions self.new ≡ descriptions self.old }
    {
        contents::remove_opening_at(&mut self.headers, num.0);
    }

    /// How many descriptors are counted that name a description.
    pub fn holders(&self, num: Num) -> u128
        ensures { result ≡ holders_at self.now num }
    {
        contents::holders_at(&self.headers, num.0)
    }

    /// Counts one descriptor more, or one less, that names a description; where the number is of
    /// none, nothing changes.
    pub fn add_holder(&mut self, num: Num)
        requires { holders_at self.old num + 1 < 2 ^ 128 }
        ensures counted { self.new ≡ altered (with_opened more_holders) self.old num }
        ensures shown { inodes self.new ≡ inodes self.old }
        ensures open { descriptions self.new ≡ descriptions self.old }
    {
        contents::add_holder_at(&mut self.headers, num.0);
    }

    /// See [`Store::add_holder`].
    pub fn remove_holder(&mut self, num: Num)
        ensures counted { self.new ≡ altered (with_opened less_holders) self.old num }
        ensures shown { inodes self.new ≡ inodes self.old }
        ensures open { descriptions self.new ≡ descriptions self.old }
    {
        contents::remove_holder_at(&mut self.headers, num.0);
    }
}
