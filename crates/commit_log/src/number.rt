//! Numbers as eight bytes.
ghost use Rattle.std.specs.Prelude.{◌≡◌, ◌+◌, ◌≤◌, length};
ghost use Rattle.commit_log.specs.Frame.{number, part};

/// The eight bytes of a number, the lowest first.
#[tactic(auto, unfolding(crate::specs::Frame::number))]
pub(crate) fn bytes_of(value: u64) -> [u8; 8]
    ensures { result ≡ number value }
{
    value.to_le_bytes()
}

/// The number that these eight bytes are.
fn number_of(bytes: [u8; 8]) -> u64
    ensures { number result ≡ bytes }
{
    u64::from_le_bytes(bytes)
}

/// The number that eight bytes from this place on are.
#[tactic(auto, unfolding(crate::specs::Frame::part))]
pub(crate) fn number_at(bytes: &[u8], at: usize) -> u64
    requires { at + 8 ≤ length bytes.now }
    ensures { number result ≡ part bytes.now at 8 }
{
    let (_, behind) = bytes.split_at(at);
    let (eight, _) = behind.split_first_chunk::<8>().unwrap();
    number_of(*eight)
}
