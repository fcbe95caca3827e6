// Whether a call is answered as it was told.
ghost use Rattle.std.specs.Prelude.{◌≡◌, Decides};
ghost use Rattle.model.specs.Entries.{Answers};

use crate::error::Stop;
use ids::{Answer, Name, Reply};

fn are_same_names(names: &[Name], others: &[Name]) -> bool
    ensures { Decides result (names.now ≡ others.now) }
{
    let [name, rest @ ..] = names else {
        return others.is_empty();
    };
    let [other, more @ ..] = others else {
        return false;
    };
    name.as_slice() == other.as_slice() && are_same_names(rest, more)
}

fn are_same_answers(answer: &Answer, other: &Answer) -> bool
    ensures { Decides result (answer.now ≡ other.now) }
{
    match (answer, other) {
        (Answer::Done, Answer::Done) => true,
        (Answer::Fd(fd), Answer::Fd(same)) => fd == same,
        (Answer::Count(count), Answer::Count(same)) => count == same,
        (Answer::Place(offset), Answer::Place(same)) => offset == same,
        (Answer::Bytes(bytes), Answer::Bytes(same)) => bytes.as_slice() == same.as_slice(),
        (Answer::Pair(reader, writer), Answer::Pair(same, too)) => {
            reader == same && writer == too
        }
        (Answer::Stat(stat), Answer::Stat(same)) => stat == same,
        (Answer::Names(names), Answer::Names(same)) => are_same_names(
            names.as_slice(),
            same.as_slice(),
        ),
        (Answer::Child(child), Answer::Child(same)) => child == same,
        _ => false,
    }
}

pub(crate) fn is_told(reply: &Reply, told: &Answer) -> bool
    ensures { Decides result (reply.now ≡ Answers told.now) }
{
    match reply {
        Reply::Answer(answer) => are_same_answers(answer, told),
        _ => false,
    }
}

// Why a record stops at a reply that is not what was told.
pub(crate) fn stop_by(reply: &Reply) -> Stop {
    match reply {
        Reply::HistoryFull => Stop::HistoryFull,
        Reply::NoMemory => Stop::NoMemory,
        _ => Stop::Otherwise,
    }
}
