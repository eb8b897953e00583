// The compression of blocks into a hash value (FIPS 180-4, 6.2.2).
ghost use Rattle.std.specs.Prelude.{◌≡◌, ◌<◌};
ghost use Rattle.sha256.specs.Sha256.{word, words, scheduled, schedule, round, rounds, sums, compressed, digest_bytes};

use super::constants::K;
use super::functions::{big_sigma0, big_sigma1, choose, majority, small_sigma0, small_sigma1};
use std::array;

/// A word of a block.
#[tactic(auto, unfolding(crate::specs::Sha256::word))]
fn word(block: &[u8; 64], t: usize) -> u32
    requires { t < 16 }
    ensures { result ≡ word block.now t }
{
    u32::from_be_bytes([
        block[4 * t],
        block[4 * t + 1],
        block[4 * t + 2],
        block[4 * t + 3],
    ])
}

/// The sixteen words of a block.
fn words(block: &[u8; 64]) -> [u32; 16]
    ensures { result ≡ words block.now }
{
    array::from_fn(|t| word(block, t))
}

/// The word of the schedule that follows, from the words 2, 7, 15 and 16 places before it.
#[tactic(auto, unfolding(crate::specs::Sha256::scheduled))]
fn next_word(w2: u32, w7: u32, w15: u32, w16: u32) -> u32
    ensures { result ≡ scheduled w2 w7 w15 w16 }
{
    small_sigma1(w2)
        .wrapping_add(w7)
        .wrapping_add(small_sigma0(w15))
        .wrapping_add(w16)
}

/// The message schedule of a block.
fn message_schedule(block: &[u8; 64]) -> [u32; 64]
    ensures { result ≡ schedule block.now }
{
    let mut w = [0; 64];
    w[..16].copy_from_slice(&words(block));
    for t in 16..64 {
        w[t] = next_word(w[t - 2], w[t - 7], w[t - 15], w[t - 16]);
    }
    w
}

/// One round.
#[tactic(auto, unfolding(crate::specs::Sha256::round))]
fn one_round(s: [u32; 8], k: u32, w: u32) -> [u32; 8]
    ensures { result ≡ round s k w }
{
    let [a, b, c, d, e, f, g, h] = s;
    let t1 = h
        .wrapping_add(big_sigma1(e))
        .wrapping_add(choose(e, f, g))
        .wrapping_add(k)
        .wrapping_add(w);
    let t2 = big_sigma0(a).wrapping_add(majority(a, b, c));
    [t1.wrapping_add(t2), a, b, c, d.wrapping_add(t1), e, f, g]
}

/// Eight rounds, after which each working variable is back in its place: a row of constants, and a row of words.
#[tactic(auto, using(crate::proofs::Schedules::rounds_eight))]
fn eight_rounds(s: [u32; 8], rows: (&[u32; 8], &[u32; 8])) -> [u32; 8]
    ensures { result ≡ rounds s rows.entry.0.now rows.entry.1.now }
{
    let (k, w) = rows;
    let s = one_round(s, k[0], w[0]);
    let s = one_round(s, k[1], w[1]);
    let s = one_round(s, k[2], w[2]);
    let s = one_round(s, k[3], w[3]);
    let s = one_round(s, k[4], w[4]);
    let s = one_round(s, k[5], w[5]);
    let s = one_round(s, k[6], w[6]);
    one_round(s, k[7], w[7])
}

/// The working variables and the hash value, added word by word.
fn added(s: [u32; 8], h: [u32; 8]) -> [u32; 8]
    ensures { result ≡ sums s h }
{
    array::from_fn(|i| s[i].wrapping_add(h[i]))
}

/// The hash value after a block.
pub(crate) fn compress(h: [u32; 8], block: &[u8; 64]) -> [u32; 8]
    ensures { result ≡ compressed h block.now }
{
    let w = message_schedule(block);
    let (k_rows, _) = K.as_chunks::<8>();
    let (w_rows, _) = w.as_chunks::<8>();
    let s = k_rows.iter().zip(w_rows).fold(h, eight_rounds);
    added(s, h)
}

/// The digest that a hash value is.
pub(crate) fn digest_bytes(h: [u32; 8]) -> [u8; 32]
    ensures { result ≡ digest_bytes h }
{
    let mut digest = [0; 32];
    digest.copy_from_slice(h.map(u32::to_be_bytes).as_flattened());
    digest
}
