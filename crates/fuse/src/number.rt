// Numbers in bytes, the lowest byte first.
ghost use Rattle.std.specs.Prelude.{◌≡◌, ◌+◌, ◌≤◌, length};
ghost use Rattle.fuse.specs.Numbers.{u32_at, u64_at};

use byteorder::{ByteOrder, LittleEndian};

// The number in the four bytes from an offset on.
#[tactic(auto, unfolding(crate::specs::Numbers::u32_at))]
pub(crate) fn u32_at(bytes: &[u8], offset: usize) -> u32
    requires { offset + 4 ≤ length bytes.now }
    ensures { result ≡ u32_at bytes.now offset }
{
    LittleEndian::read_u32(&bytes[offset..])
}

// The number in the eight bytes from an offset on.
#[tactic(auto, unfolding(crate::specs::Numbers::u64_at))]
pub(crate) fn u64_at(bytes: &[u8], offset: usize) -> u64
    requires { offset + 8 ≤ length bytes.now }
    ensures { result ≡ u64_at bytes.now offset }
{
    LittleEndian::read_u64(&bytes[offset..])
}
