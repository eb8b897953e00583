// The steps of a round of FIPS 197, over the state as sixteen bytes, column after column.
ghost use Rattle.std.specs.Prelude.{◌≡◌, slice_index};
ghost use Rattle.aes.specs.Cipher.{sub_bytes, shift_rows, mix_column, mix_columns, round as round_of, last_round};

use super::blocks::{Block, Word, joined, words, xor};
use super::bytes::{double, sub};

fn sub_bytes(s: Block) -> Block
    ensures { result ≡ sub_bytes s }
{
    s.map(sub)
}

fn shift_rows(s: Block) -> Block
    ensures { result ≡ shift_rows s }
{
    [
        s[0], s[5], s[10], s[15], s[4], s[9], s[14], s[3], s[8], s[13], s[2], s[7], s[12], s[1],
        s[6], s[11],
    ]
}

#[tactic(auto, unfolding(crate::specs::Cipher::mix_column))]
fn mix_column(column: Word) -> Word
    ensures { result ≡ mix_column (slice_index column 0) (slice_index column 1) (slice_index column 2) (slice_index column 3) }
{
    let [a, b, c, d] = column;
    [
        double(a) ^ (double(b) ^ b) ^ c ^ d,
        a ^ double(b) ^ (double(c) ^ c) ^ d,
        a ^ b ^ double(c) ^ (double(d) ^ d),
        (double(a) ^ a) ^ b ^ c ^ double(d),
    ]
}

fn mix_columns(s: Block) -> Block
    ensures { result ≡ mix_columns s }
{
    joined(words(&s).map(mix_column))
}

/// A round under its key.
pub(crate) fn round(s: Block, key: &Block) -> Block
    ensures { result ≡ round_of s key.now }
{
    xor(mix_columns(shift_rows(sub_bytes(s))), key)
}

/// The last round, which has no MixColumns.
pub(crate) fn last_round(s: Block, key: &Block) -> Block
    ensures { result ≡ last_round s key.now }
{
    xor(shift_rows(sub_bytes(s)), key)
}
