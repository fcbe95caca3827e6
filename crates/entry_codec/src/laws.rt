// Laws of the definitions.
ghost use Rattle.std.specs.Prelude.{◌≡◌, ◌++◌, List, ℕ};
ghost use Rattle.ids.specs.declared.entry.Entry.{Entry};
ghost use Rattle.entry_codec.specs.Entries.{AreEntries, IsEntry, entries_bytes, entry_bytes};

/// No entry's bytes begin another's, and entries of the same bytes are equal.
pub fn entries_are_told_apart()
    ensures { (e f : Entry) (rest more : List ℕ) → IsEntry e → IsEntry f
        → entry_bytes e ++ rest ≡ entry_bytes f ++ more → (e ≡ f) × (rest ≡ more) }
{}

/// Records of the same bytes have the same entries.
pub fn records_are_told_apart()
    ensures { (entries others : List Entry) → AreEntries entries → AreEntries others
        → entries_bytes entries ≡ entries_bytes others → entries ≡ others }
{}
