// The blocks of a message as RFC 4493 chains them, and the padding of the last.
ghost use Rattle.std.specs.Prelude.{◌≡◌, ◌-◌, ◌*◌, ◌/◌, ◌<◌, length, drop};
ghost use Rattle.std.specs.List.{fold};
ghost use Rattle.std.specs.Simd.{first_chunks};
ghost use Rattle.aes.specs.Cipher.{cipher, xors};
ghost use Rattle.aes.specs.Cmac.{padding};

use super::blocks::{Block, xor};
use super::ciphers::Aes128;

/// RFC 4493, padding(x).
pub(crate) fn pad(bytes: &[u8]) -> Block
    requires { length bytes.now < 16 }
    ensures { result ≡ padding bytes.now }
{
    let mut block = [0; 16];
    block[..bytes.len()].copy_from_slice(bytes);
    block[bytes.len()] = 0x80;
    block
}

/// The blocks before the last, all of them whole, and the last.
pub(crate) fn before_last(bytes: &[u8]) -> (&[Block], &[u8])
    ensures front { result.0.now ≡ first_chunks 16 ((length bytes.now - 1) / 16) bytes.now }
    ensures last { result.1.now ≡ drop (16 * ((length bytes.now - 1) / 16)) bytes.now }
{
    let (front, last) = bytes.split_at(bytes.len().saturating_sub(1) / 16 * 16);
    let (blocks, _) = front.as_chunks();
    (blocks, last)
}

/// X after the blocks. Every encryption of a tag is made here, so that the cipher has one caller and is compiled into
/// this loop.
pub(crate) fn chain_blocks(aes: &Aes128, start: Block, blocks: &[Block]) -> Block
    ensures { result ≡ fold (λ x block. cipher aes.now.keys (xors x block)) start blocks.now }
{
    blocks.iter().fold(
        start,
        |x, block| -> Block
            ensures { result ≡ cipher aes.entry.now.keys (xors x block.entry.now) }
        { aes.encrypt(xor(x, block)) },
    )
}
