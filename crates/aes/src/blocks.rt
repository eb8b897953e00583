// Blocks of sixteen bytes, which are four words: the sum of either, and the way from one to the other.
ghost use Rattle.std.specs.Prelude.{◌≡◌, ◌<◌, [], ◌∷◌, bit_xor, slice_index};
ghost use Rattle.aes.specs.Cipher.{xors, word, joined};

use std::array;

/// Sixteen bytes: what is encrypted, and in FIPS 197 the state and a round key, column after column.
pub type Block = [u8; 16];

/// Four bytes: a column of the state, or a word of a round key.
pub(crate) type Word = [u8; 4];

/// The sum, bit by bit.
pub(crate) fn xor<const N: usize>(a: [u8; N], b: &[u8; N]) -> [u8; N]
    ensures { result ≡ xors a.entry b.now }
{
    array::from_fn(
        |i| -> u8
            requires { i < N }
            ensures { result ≡ bit_xor (slice_index a i) (slice_index b.entry.now i) }
        { a[i] ^ b[i] },
    )
}

/// The words of a block.
pub(crate) fn words(block: &Block) -> [Word; 4]
    ensures { result ≡ word block.now 0 ∷ word block.now 1 ∷ word block.now 2 ∷ word block.now 3 ∷ [] }
{
    let (words, _) = block.as_chunks::<4>();
    [words[0], words[1], words[2], words[3]]
}

/// The block of four words.
pub(crate) fn joined(words: [Word; 4]) -> Block
    ensures { result ≡ joined words }
{
    array::from_fn(|i| words[i / 4][i % 4])
}
