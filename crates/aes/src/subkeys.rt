// The doubling of a block by which RFC 4493 makes the subkeys.
ghost use Rattle.std.specs.Prelude.{◌≡◌};
ghost use Rattle.aes.specs.Cmac.{moved_left, shift_left, doubled};

use super::blocks::{Block, xor};
use std::array;

const CONST_RB: Block = [0, 0, 0, 0, 0, 0, 0, 0, 0, 0, 0, 0, 0, 0, 0, 0x87];

fn move_left(byte: u8, next: u8) -> u8
    ensures { result ≡ moved_left byte next }
{
    (byte << 1) | (next >> 7)
}

fn shift_left(block: Block) -> Block
    ensures { result ≡ shift_left block }
{
    array::from_fn(|i| move_left(block[i], block.get(i + 1).copied().unwrap_or(0)))
}

/// RFC 4493, the step of Generate_Subkey: a shift to the left by one bit, and where the top bit was set the sum with
/// const_Rb.
pub fn double_block(block: Block) -> Block
    ensures { result ≡ doubled block }
{
    let shifted = shift_left(block);
    if block[0] < 128 {
        shifted
    } else {
        xor(shifted, &CONST_RB)
    }
}
