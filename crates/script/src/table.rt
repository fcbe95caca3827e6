// Words that name something.
ghost use Rattle.std.specs.Prelude.{◌≡◌};
ghost use Rattle.script.specs.Tables.{lookup};

// What a word names in a table.
pub(crate) fn lookup<T: Copy>(table: &[(&str, T)], word: &[u8]) -> Option<T>
    ensures { result ≡ lookup table.now word.now }
{
    for (name, meaning) in table {
        if word == name.as_bytes() {
            return Some(*meaning);
        }
    }
    None
}
