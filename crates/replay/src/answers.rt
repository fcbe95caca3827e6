// Whether the plain kernel answers as the history says.
ghost use Rattle.std.specs.Prelude.{◌≡◌, Decides, Some};
ghost use Rattle.model.specs.Entries.{answer_in};

use crate::transaction::is_unsupported;
use ids::{Answer, Errno, Name, Reply};

fn are_same_names(names: &[Name], others: &[Name]) -> bool
    ensures { Decides result (names.now ≡ others.now) }
{
    let [name, rest @ ..] = names else {
        return others.is_empty();
    };
    let [other, more @ ..] = others else {
        return false;
    };
    name.as_slice() == other.as_slice() && are_same_names(rest, more)
}

fn are_same_answers(answer: &Answer, other: &Answer) -> bool
    ensures { Decides result (answer.now ≡ other.now) }
{
    match (answer, other) {
        (Answer::Done, Answer::Done) => true,
        (Answer::Fd(fd), Answer::Fd(same)) => fd == same,
        (Answer::Count(count), Answer::Count(same)) => count == same,
        (Answer::Place(offset), Answer::Place(same)) => offset == same,
        (Answer::Bytes(bytes), Answer::Bytes(same)) => bytes.as_slice() == same.as_slice(),
        (Answer::Pair(reader, writer), Answer::Pair(same, too)) => {
            reader == same && writer == too
        }
        (Answer::Stat(stat), Answer::Stat(same)) => stat == same,
        (Answer::Names(names), Answer::Names(same)) => are_same_names(
            names.as_slice(),
            same.as_slice(),
        ),
        (Answer::Child(child), Answer::Child(same)) => child == same,
        _ => false,
    }
}

// Whether a reply is this answer or refusal of an executed call.
pub(crate) fn is_reply(answer: &Result<Answer, Errno>, reply: &Reply) -> bool
    ensures { Decides result (answer_in reply.now ≡ Some answer.now) }
{
    match (answer, reply) {
        (Ok(answer), Reply::Answer(same)) => are_same_answers(answer, same),
        (Err(errno), Reply::Errno(same)) => !is_unsupported(*same) && errno == same,
        _ => false,
    }
}
