// Tags under a key, by HMAC (RFC 2104).
ghost use Rattle.std.specs.Prelude.{◌≡◌, ℕ, ◌≤◌, List, length};
ghost use Rattle.sha256.specs.Sha256.{H0, compressed};
ghost use Rattle.sha256.specs.Hmac.{zero_filled, xored, block_key, hmac};
ghost use Rattle.sha256.specs.Progress.{tag_under, tag_after};

use super::compression::compress;
use super::constants::INITIAL;
use super::hashing::{Sha256, digest};
use std::array;
use streams::Stream;

const IPAD: u8 = 0x36;

const OPAD: u8 = 0x5c;

/// A key that is ready: of each of the two hashes, the hash value after the block of the key.
#[derive(Clone, Copy)]
pub struct HmacKey {
    inner: [u32; 8],
    outer: [u32; 8],
}

/// A tag in progress: the inner hash, and the hash value that the outer one begins with.
#[derive(Clone, Copy)]
pub struct Hmac {
    inner: Sha256,
    outer: [u32; 8],
}

/// The bytes with zeros behind them.
fn zero_filled(bytes: &[u8]) -> [u8; 64]
    requires { length bytes.now ≤ 64 }
    ensures { result ≡ zero_filled bytes.now }
{
    let mut block = [0; 64];
    block[..bytes.len()].copy_from_slice(bytes);
    block
}

/// The key as one block.
#[tactic(auto, unfolding(crate::specs::Hmac::block_key))]
fn block_key(key: &[u8]) -> [u8; 64]
    ensures { result ≡ block_key key.now }
{
    if key.len() > 64 {
        zero_filled(&digest(key))
    } else {
        zero_filled(key)
    }
}

/// The hash value after the block of a key against a pad. The block is made byte by byte, since the library's `map` of
/// an array takes each byte through an `Option`.
fn after_pad(key: [u8; 64], pad: u8) -> [u32; 8]
    ensures { result ≡ compressed H0 (xored key pad) }
{
    compress(INITIAL, &array::from_fn(|i| key[i] ^ pad))
}

impl HmacKey {
    /// The key made ready, whatever its length.
    #[tactic(auto, using(crate::proofs::Keys::tags_from), unfolding(crate::specs::Hmac::hmac, crate::specs::Progress::tag_under))]
    pub fn new(key: &[u8]) -> HmacKey
        ensures { (m : List ℕ) → tag_under result m ≡ hmac key.now m }
    {
        let block = block_key(key);
        HmacKey {
            inner: after_pad(block, IPAD),
            outer: after_pad(block, OPAD),
        }
    }

    /// A tag under the key of which no byte has come.
    #[tactic(auto, unfolding(crate::specs::Progress::tag_under, crate::specs::Progress::tag_after))]
    pub fn start(&self) -> Hmac
        ensures { (rest : List ℕ) → tag_after result rest ≡ tag_under self.now rest }
    {
        Hmac {
            inner: Sha256::after_block(self.inner),
            outer: self.outer,
        }
    }

    /// The tag of a message under the key.
    pub fn tag(&self, bytes: &[u8]) -> [u8; 32]
        ensures { result ≡ tag_under self.now bytes.now }
    {
        self.start().with(bytes).finish()
    }
}

#[tactic(auto, unfolding(crate::specs::Progress::tag_after))]
impl Stream for Hmac {
    type Output = [u8; 32];

    ghost after = { tag_after };

    fn update(&mut self, bytes: &[u8]) {
        self.inner.update(bytes);
    }

    fn finish(self) -> [u8; 32] {
        let inner = self.inner.finish();
        Sha256::after_block(self.outer).with(&inner).finish()
    }
}
