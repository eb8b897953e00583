// What messages of several kinds begin with or contain, and the numbers that their code shares.
ghost use Rattle.std.specs.Prelude.{◌≡◌, ◌+◌, ◌≤◌};
ghost use Rattle.terms.specs.Numbers.{request_bytes};
ghost use Rattle.parts.specs.Reading.{int_at, request_of};

use terms::{REQUEST_BYTES, Request};

/// The counter that certifies what happens to orders: PREPAREs, COMMITs and VIEW-CHANGEs.
pub const ORDER_COUNTER: u32 = 0;
/// The counter that certifies CHECKPOINTs.
pub const CHECKPOINT_COUNTER: u32 = 1;
/// The counter that certifies NEW-VIEWs.
pub const VIEW_COUNTER: u32 = 2;

/// The type of a PREPARE.
pub const PREPARE: u32 = 1;
/// The type of a COMMIT.
pub const COMMIT: u32 = 2;
/// The type of a CHECKPOINT.
pub const CHECKPOINT: u32 = 3;
/// The type of a VIEW-CHANGE.
pub const VIEW_CHANGE: u32 = 4;
/// The type of a NEW-VIEW.
pub const NEW_VIEW: u32 = 5;

// The request whose bytes these are: five numbers.
#[tactic(auto, unfolding(crate::specs::Reading::request_of))]
pub(crate) fn request_of(bytes: &[u8; REQUEST_BYTES]) -> Request
    ensures { result ≡ request_of bytes.now }
{
    Request {
        client: int_at(bytes, 0),
        sequence: int_at(bytes, 4),
        code: int_at(bytes, 8),
        key: int_at(bytes, 12),
        value: int_at(bytes, 16),
    }
}

// The number at a place.
fn int_at(bytes: &[u8; REQUEST_BYTES], place: usize) -> u32
    requires { place + 4 ≤ request_bytes }
    ensures { result ≡ int_at bytes.now place }
{
    u32::from_be_bytes([
        bytes[place],
        bytes[place + 1],
        bytes[place + 2],
        bytes[place + 3],
    ])
}
