// The tags of AES-CMAC (RFC 4493): of a message at once, and of one that comes in parts.
ghost use Rattle.std.specs.Prelude.{◌≡◌, ℕ, ◌+◌, ◌<◌, ◌≤◌, List, length, ◌==◌};
ghost use Rattle.aes.specs.Cipher.{cipher};
ghost use Rattle.aes.specs.Cmac.{cmac, cmac_from, m_last};
ghost use Rattle.aes.specs.Tags.{tag_under, tag_after, TakesIn};

use super::blocks::{Block, xor};
use super::chains::{before_last, chain_blocks, pad};
use super::ciphers::Aes128;
use super::states::Cmac;
use super::subkeys::double_block;
use streams::Stream;

/// A key with its round keys and its subkeys ready.
#[derive(Clone, Copy)]
pub struct CmacKey {
    aes: Aes128,
    k1: Block,
    k2: Block,
}

impl CmacKey {
    /// Makes a key ready: its round keys and, by Generate_Subkey of RFC 4493, its subkeys.
    #[tactic(auto, unfolding(crate::specs::Cipher::xors, crate::specs::Cmac::block_at, crate::specs::Cmac::chained, crate::specs::Tags::tag_under))]
    pub fn new(key: &[u8; 16]) -> CmacKey
        ensures { (m : List ℕ) → tag_under result m ≡ cmac key.now m }
    {
        let aes = Aes128::new(key);
        // L := AES-128(K, const_Zero)
        let l = chain_blocks(&aes, [0; 16], &[[0; 16]]);
        let k1 = double_block(l);
        let k2 = double_block(k1);
        CmacKey { aes, k1, k2 }
    }

    /// A message of which nothing has come yet.
    #[tactic(auto, unfolding(crate::specs::Tags::tag_under, crate::specs::Tags::tag_after))]
    pub fn start(&self) -> Cmac<'_>
        ensures { (rest : List ℕ) → tag_after result rest ≡ tag_under self.now rest }
    {
        Cmac {
            key: self,
            x: [0; 16],
            buf: [0; 16],
            fill: 0,
        }
    }

    /// The tag of a message, of any length.
    pub fn tag(&self, bytes: &[u8]) -> [u8; 16]
        ensures { result ≡ tag_under self.now bytes.now }
    {
        let (blocks, last) = before_last(bytes);
        let x = chain_blocks(&self.aes, [0; 16], blocks);
        self.close(x, last)
    }

    // The tag from X on, where at most one block is left.
    fn close(&self, x: Block, left: &[u8]) -> [u8; 16]
        requires { length left.now ≤ 16 }
        ensures { result ≡ cmac_from (cipher self.now.aes.keys) self.now.k1 self.now.k2 x left.now }
    {
        let last = self.last_block(left);
        chain_blocks(&self.aes, x, &[last])
    }

    // M_last, where M_n is the block.
    fn last_block(&self, block: &[u8]) -> Block
        requires { length block.now ≤ 16 }
        ensures { result ≡ m_last self.now.k1 self.now.k2 (length block.now == 16) block.now }
    {
        match Block::try_from(block) {
            Ok(whole) => xor(whole, &self.k1),
            Err(_) => xor(pad(block), &self.k2),
        }
    }
}

impl Stream for Cmac<'_> {
    type Output = [u8; 16];

    ghost after = { tag_after };

    fn update(&mut self, bytes: &[u8]) {
        let (front, behind) = bytes.split_at(bytes.len().min(16 - self.fill));
        self.hold(front);
        if !behind.is_empty() {
            self.pass(behind);
        }
    }

    fn finish(self) -> [u8; 16] {
        self.key.close(self.x, &self.buf[..self.fill])
    }
}

impl Cmac<'_> {
    // Holds bytes for which there is room.
    fn hold(&mut self, bytes: &[u8])
        requires { self.old.fill + length bytes.now ≤ 16 }
        ensures held { self.new.fill ≡ self.old.fill + length bytes.now }
        ensures more { TakesIn self.old bytes.now self.new }
    {
        let end = self.fill + bytes.len();
        self.buf[self.fill..end].copy_from_slice(bytes);
        self.fill = end;
    }

    // Takes in bytes behind a full block, and holds at least one of them.
    fn pass(&mut self, bytes: &[u8])
        requires { (self.old.fill ≡ 16) × (0 < length bytes.now) }
        ensures { TakesIn self.old bytes.now self.new }
    {
        let x = chain_blocks(&self.key.aes, self.x, &[self.buf]);
        let (blocks, last) = before_last(bytes);
        self.x = chain_blocks(&self.key.aes, x, blocks);
        self.fill = 0;
        self.hold(last);
    }
}
