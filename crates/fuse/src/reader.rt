// Requests from bytes.
ghost use Rattle.std.specs.Prelude.{◌≡◌, true, false};
ghost use Rattle.fuse.specs.Operations.{is_silent};
ghost use Rattle.fuse.specs.Requests.{IsParsed};
ghost use Rattle.fuse.specs.declared.fault.ParseFault.TheVariants.{NoMemory, Unanswered};

use crate::fault::{BodyFault, ParseFault};
use crate::number::{u32_at, u64_at};
use crate::operation::{is_silent, operation_in};
use crate::request::Request;
use heap::Heap;

// How many bytes stand before the body.
const HEADER_LENGTH: usize = 40;

// Why a request of this opcode is not read where memory is refused for it.
fn no_memory(opcode: u32, unique: u64) -> ParseFault
    ensures silent { is_silent opcode ≡ true → result ≡ Unanswered }
    ensures answered { is_silent opcode ≡ false → result ≡ NoMemory unique }
{
    if is_silent(opcode) {
        ParseFault::Unanswered
    } else {
        ParseFault::NoMemory { unique }
    }
}

/// The request that the bytes are, all of them, or their first fault. That memory was refused is
/// told only where they are a request.
#[tactic(auto, unfolding(crate::specs::Requests::request_in))]
pub fn parse(heap: Heap, bytes: &[u8]) -> Result<Request, ParseFault>
    ensures { IsParsed bytes.now result }
{
    if bytes.len() < HEADER_LENGTH {
        return Err(ParseFault::NoHeader);
    }
    let unique = u64_at(bytes, 8);
    if u32_at(bytes, 0) as usize != bytes.len() {
        return Err(ParseFault::WrongLength { unique });
    }
    let opcode = u32_at(bytes, 4);
    let (_, body) = bytes.split_at(HEADER_LENGTH);
    match operation_in(heap, opcode, body) {
        Ok(operation) => Ok(Request {
            unique,
            node: u64_at(bytes, 16),
            uid: u32_at(bytes, 24),
            gid: u32_at(bytes, 28),
            pid: u32_at(bytes, 32),
            operation,
        }),
        Err(BodyFault::Malformed) => Err(ParseFault::Malformed { unique }),
        Err(BodyFault::NoMemory) => Err(no_memory(opcode, unique)),
    }
}
