// Bytes in hexadecimal, shown for a person and read from a word.
ghost use Rattle.std.specs.Prelude.{◌≡◌, IfOk, if◌then◌else◌, nat_eq, Some, None, length, vec_items};
ghost use Rattle.std.specs.Option.{option_map};
ghost use Rattle.texts.specs.Hexes.{hex_byte, bytes_of, HexesRead};

use std::alloc::{AllocError, Global};
use std::fmt;
use std::marker::Model;

/// Shows bytes as two lower-case hexadecimal digits each.
#[derive(Clone, Copy, PartialEq, Eq, Debug)]
pub struct Hex<'a>(pub &'a [u8]);

impl fmt::Display for Hex<'_> {
    fn fmt<W: fmt::Write>(&self, f: &mut fmt::Formatter<W>) -> fmt::Result {
        let bytes = self.0;
        for byte in bytes {
            write!(f, "{byte:02x}")?;
        }
        Ok(())
    }
}

/// A word that writes bytes in hexadecimal: two digits to a byte, in either case, and nothing else.
#[derive(Drop)]
pub struct HexWord<'a> {
    pairs: &'a [[u8; 2]],
}

impl<'a> Model for HexWord<'a> {
    ghost use Rattle.std.specs.Prelude.{◌≡◌, ℕ, List, [], true, is_some};
    ghost use Rattle.std.specs.Option.{unwrap_or};
    ghost use Rattle.texts.specs.Hexes.{bytes_of_pairs};

    ghost Value = { List ℕ };

    ghost view = { λ w. unwrap_or (bytes_of_pairs w.pairs.now) [] };

    ghost invariant = { λ w. is_some (bytes_of_pairs w.pairs.now) ≡ true };
}

impl<'a> HexWord<'a> {
    /// The bytes that a word writes, if it writes some. Bytes written in hexadecimal read as themselves.
    #[tactic(auto, using(crate::proofs::Pairs::pairs))]
    pub fn of(word: &'a [u8]) -> Option<HexWord<'a>>
        ensures value { result ≡ bytes_of word.now }
        ensures written { HexesRead }
    {
        let (pairs, []) = word.as_chunks::<2>() else {
            return None;
        };
        for [high, low] in pairs {
            hex_byte(*high, *low)?;
        }
        Some(HexWord { pairs })
    }

    /// How many bytes the word writes.
    #[tactic(auto, using(crate::proofs::Pairs::one_for_each))]
    pub fn len(&self) -> usize
        ensures { result ≡ length self.now }
    {
        self.pairs.len()
    }

    /// The bytes.
    pub fn bytes(&self, heap: Global) -> Result<Vec<u8>, AllocError>
        ensures { IfOk result (λ bytes. vec_items bytes ≡ self.now) }
    {
        let mut bytes = vec![in heap; 0; self.len()]?;
        self.write(&mut bytes);
        Ok(bytes)
    }

    /// The bytes, if there are so many.
    pub fn array<const N: usize>(&self) -> Option<[u8; N]>
        ensures { result ≡ (if nat_eq (length self.now) N then Some self.now else None) }
    {
        if self.len() != N {
            return None;
        }
        let mut bytes = [0; N];
        self.write(&mut bytes);
        Some(bytes)
    }

    // Writes the bytes over as many others.
    fn write(&self, bytes: &mut [u8])
        requires { length bytes.old ≡ length self.now }
        ensures { bytes.new ≡ self.now }
    {
        for (i, [high, low]) in self.pairs.iter().enumerate() {
            bytes[i] = hex_byte(*high, *low).unwrap_or(0);
        }
    }
}

/// The bytes that a word writes in hexadecimal, if it writes some. Bytes written in hexadecimal read as themselves.
/// Each digit is read once, where a `HexWord` judges all digits before it reads them.
#[tactic(auto, using(crate::proofs::Decoding::decoding))]
pub fn read_hex(heap: Global, word: &[u8]) -> Result<Option<Vec<u8>>, AllocError>
    ensures value { IfOk result (λ bytes. option_map vec_items bytes ≡ bytes_of word.now) }
    ensures written { HexesRead }
{
    let (pairs, []) = word.as_chunks::<2>() else {
        return Ok(None);
    };
    let mut bytes = Vec::with_capacity(heap, pairs.len())?;
    for [high, low] in pairs {
        let Some(byte) = hex_byte(*high, *low) else {
            return Ok(None);
        };
        bytes.push_reserved(byte);
    }
    Ok(Some(bytes))
}

// The byte that two digits write.
fn hex_byte(high: u8, low: u8) -> Option<u8>
    ensures { result ≡ hex_byte high low }
{
    let high = char::from(high).to_digit(16)?;
    let low = char::from(low).to_digit(16)?;
    Some((16 * high + low) as u8)
}
