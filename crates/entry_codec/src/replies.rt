// Replies: put behind what is there, and read at the front of bytes.
ghost use Rattle.std.specs.Prelude.{◌≡◌, ◌++◌, OnOk};
ghost use Rattle.entry_codec.specs.Replies.{IsReply, reply_bytes};
ghost use Rattle.entry_codec.specs.Reading.{Gives};
ghost use Rattle.entry_codec.specs.ReadingReplies.{reply_at};

use crate::answers::{answer_of, put_answer};
use crate::causes::{cause_of, put_cause, put_why, why_of};
use crate::fault::{ReadError, Wrong, fault_at};
use crate::numbers::*;
use crate::parts::{byte_of, flag_of, put_byte, put_flag};
use crate::variants::{errno_number, errno_of};
use heap::Heap;
use ids::Reply;
use std::alloc::AllocError;

#[tactic(auto, unfolding(crate::specs::Replies::reply_bytes, crate::specs::Replies::IsReply))]
pub(crate) fn put_reply(out: &mut Vec<u8, Heap>, reply: &Reply) -> Result<(), AllocError>
    ensures put { OnOk result (out.new.items ≡ out.old.items ++ reply_bytes reply.now) }
    ensures fits { OnOk result (IsReply reply.now) }
{
    match reply {
        Reply::Answer(answer) => {
            put_byte(out, REPLY_ANSWER)?;
            put_answer(out, answer)
        }
        Reply::Errno(errno) => {
            put_byte(out, REPLY_ERRNO)?;
            put_byte(out, errno_number(*errno))
        }
        Reply::Begun => put_byte(out, REPLY_BEGUN),
        Reply::Committed => put_byte(out, REPLY_COMMITTED),
        Reply::GivenUp { restarted } => {
            put_byte(out, REPLY_GIVEN_UP)?;
            put_flag(out, *restarted)
        }
        Reply::Aborted { why, restarted } => {
            put_byte(out, REPLY_ABORTED)?;
            put_why(out, why)?;
            put_flag(out, *restarted)
        }
        Reply::Busy(cause) => {
            put_byte(out, REPLY_BUSY)?;
            put_cause(out, cause)
        }
        Reply::InTransaction => put_byte(out, REPLY_IN_TRANSACTION),
        Reply::NotInTransaction => put_byte(out, REPLY_NOT_IN_TRANSACTION),
        Reply::HistoryFull => put_byte(out, REPLY_HISTORY_FULL),
        Reply::NoMemory => put_byte(out, REPLY_NO_MEMORY),
        Reply::NoProcess => put_byte(out, REPLY_NO_PROCESS),
    }
}

#[tactic(auto, unfolding(crate::specs::ReadingReplies::reply_of))]
pub(crate) fn reply_of(heap: Heap, bytes: &[u8]) -> Result<(Reply, &[u8]), ReadError>
    ensures { Gives (λ x. (x.0, x.1.now)) result (reply_at bytes.now) }
{
    let (number, rest) = byte_of(bytes)?;
    match number {
        REPLY_ANSWER => match answer_of(heap, rest) {
            Ok((answer, rest)) => Ok((Reply::Answer(answer), rest)),
            Err(e) => Err(e),
        },
        REPLY_ERRNO => {
            let (errno, rest) = errno_of(rest)?;
            Ok((Reply::Errno(errno), rest))
        }
        REPLY_BEGUN => Ok((Reply::Begun, rest)),
        REPLY_COMMITTED => Ok((Reply::Committed, rest)),
        REPLY_GIVEN_UP => {
            let (restarted, rest) = flag_of(rest)?;
            Ok((Reply::GivenUp { restarted }, rest))
        }
        REPLY_ABORTED => {
            let (why, rest) = why_of(heap, rest)?;
            let (restarted, rest) = flag_of(rest)?;
            Ok((Reply::Aborted { why, restarted }, rest))
        }
        REPLY_BUSY => {
            let (cause, rest) = cause_of(heap, rest)?;
            Ok((Reply::Busy(cause), rest))
        }
        REPLY_IN_TRANSACTION => Ok((Reply::InTransaction, rest)),
        REPLY_NOT_IN_TRANSACTION => Ok((Reply::NotInTransaction, rest)),
        REPLY_HISTORY_FULL => Ok((Reply::HistoryFull, rest)),
        REPLY_NO_MEMORY => Ok((Reply::NoMemory, rest)),
        REPLY_NO_PROCESS => Ok((Reply::NoProcess, rest)),
        _ => Err(fault_at(Wrong::Variant, rest)),
    }
}
