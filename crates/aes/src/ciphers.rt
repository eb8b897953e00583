// AES-128 under a key whose round keys stand ready.
ghost use Rattle.std.specs.Prelude.{◌≡◌, if◌then◌else◌, ◌==◌};
ghost use Rattle.aes.specs.Cipher.{next_key, key_expansion, cipher};
ghost use Rattle.aes.specs.Field.{xtime};
ghost use Rattle.aes.specs.Laws.{Inverses};

use super::blocks::{Block, xor};
use super::bytes::double;
use super::expansion::next_key;
use super::rounds::{last_round, round};
use std::array;

/// The round keys of a key.
#[derive(Clone, Copy)]
pub struct Aes128 {
    keys: [Block; 11],
}

impl Aes128 {
    /// FIPS 197, KeyExpansion. The S-box, here and in the rounds, is made of the inverses in the field.
    pub fn new(key: &[u8; 16]) -> Aes128
        ensures keys { result.keys ≡ key_expansion key.now }
        ensures inverses { Inverses }
    {
        let mut last = *key;
        let mut rcon = 1;
        let keys = array::from_fn(
            |t| -> Block
                ensures key { last.exit ≡ (if t == 0 then last.entry else next_key last.entry rcon.entry) }
                ensures rcon { rcon.exit ≡ (if t == 0 then rcon.entry else xtime rcon.entry) }
                ensures this { result ≡ last.exit }
            {
                if t > 0 {
                    last = next_key(&last, rcon);
                    rcon = double(rcon);
                }
                last
            },
        );
        Aes128 { keys }
    }

    /// FIPS 197, Cipher.
    pub fn encrypt(&self, block: Block) -> Block
        ensures { result ≡ cipher self.now.keys block }
    {
        let keys = &self.keys[..];
        let s = keys[1..10].iter().fold(xor(block, &keys[0]), round);
        last_round(s, &keys[10])
    }
}
