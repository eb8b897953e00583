// The key expansion of FIPS 197: from one round key to the next, by words of four bytes.
ghost use Rattle.std.specs.Prelude.{◌≡◌};
ghost use Rattle.aes.specs.Cipher.{xors, rot_word, sub_word, next_key};

use super::blocks::{Block, Word, joined, words};
use super::bytes::sub;

// The sum of two words. Byte by byte as it stands here, a key expansion takes about a third of the instructions that it
// takes with the sum of any length.
fn xor_words(a: Word, b: Word) -> Word
    ensures { result ≡ xors a b }
{
    [a[0] ^ b[0], a[1] ^ b[1], a[2] ^ b[2], a[3] ^ b[3]]
}

fn rot_word(w: Word) -> Word
    ensures { result ≡ rot_word w }
{
    [w[1], w[2], w[3], w[0]]
}

fn sub_word(w: Word) -> Word
    ensures { result ≡ sub_word w }
{
    w.map(sub)
}

/// The next round key, where the first byte of its Rcon is `rcon`.
#[tactic(auto, unfolding(crate::specs::Cipher::xors, crate::specs::Cipher::next_key))]
pub(crate) fn next_key(key: &Block, rcon: u8) -> Block
    ensures { result ≡ next_key key.now rcon }
{
    let [k0, k1, k2, k3] = words(key);
    let temp = xor_words(sub_word(rot_word(k3)), [rcon, 0, 0, 0]);
    let w0 = xor_words(k0, temp);
    let w1 = xor_words(k1, w0);
    let w2 = xor_words(k2, w1);
    let w3 = xor_words(k3, w2);
    joined([w0, w1, w2, w3])
}
