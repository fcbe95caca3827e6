// The descriptors that a store tells.
ghost use Rattle.std.specs.Prelude.{◌≤◌};

use ids::{Answer, Entry, Reply};

// Above both.
fn above(limit: u32, fd: u32) -> u32
    ensures { limit ≤ result }
{
    limit.max(fd.saturating_add(1))
}

// What is above so much, and above each descriptor that these entries tell.
pub(crate) fn above_all(limit: u32, entries: &[Entry]) -> u32 {
    let mut highest = limit;
    for entry in entries {
        match &entry.reply {
            Reply::Answer(Answer::Fd(fd)) => highest = above(highest, fd.0),
            Reply::Answer(Answer::Pair(reader, writer)) => {
                highest = above(above(highest, reader.0), writer.0);
            }
            _ => {}
        }
    }
    highest
}
