// Reading from the front of lent bytes: each call answers the value and the bytes behind it, and copies nothing.
ghost use Rattle.std.specs.Prelude.{◌≡◌, ◌*◌};
ghost use Rattle.std.specs.Option.{option_map};
ghost use Rattle.xdr.specs.Laws.{IntsExact, HypersExact, OpaquesExact, CountsExact, ListsExact, RowsExact, RowsJoin};
ghost use Rattle.xdr.specs.Reading.{value_and_rest, part_and_rest, opaque_from, count_from, rows_from};

use super::ints::Number;

/// Reads fixed opaque, whose length the caller's type names, or answers None where fewer bytes are left.
pub fn read_opaque<const N: usize>(bytes: &[u8]) -> Option<(&[u8; N], &[u8])>
    ensures value { option_map part_and_rest result ≡ opaque_from N bytes.now }
    ensures exact { OpaquesExact }
{
    bytes.split_first_chunk::<N>()
}

/// Reads the count of a list, or answers None where no int is left or the count is above the most that the list may
/// have.
pub fn read_count(bytes: &[u8], most: u32) -> Option<(u32, &[u8])>
    ensures value { option_map value_and_rest result ≡ count_from most bytes.now }
    ensures exact { CountsExact }
{
    u32::read(bytes).filter(|(count, _)| *count <= most)
}

/// Reads a counted list whose elements all have the same width, and answers the bytes of the elements together,
/// or None where the count is above the most that the list may have or the bytes end too early.
#[tactic(auto, using(crate::proofs::Rows::rows_exact, crate::proofs::Rows::rows_join))]
pub fn read_rows(bytes: &[u8], width: usize, most: u32) -> Option<(&[u8], &[u8])>
    ensures value { option_map part_and_rest result ≡ rows_from width most bytes.now }
    ensures exact { RowsExact }
    ensures joined { RowsJoin }
{
    let (count, rest) = read_count(bytes, most)?;
    split_rows(rest, width, count)
}

// Splits so many elements of one width off the front. A length that no slice can have is one that the bytes are short
// of.
fn split_rows(bytes: &[u8], width: usize, count: u32) -> Option<(&[u8], &[u8])>
    ensures { option_map part_and_rest result ≡ opaque_from (width * count) bytes.now }
{
    let length = width.checked_mul(count as usize)?;
    bytes.split_at_checked(length)
}

/// Unsigned ints and unsigned hypers are exact: the law that `Number::read` states of any number, by the name of each.
/// There is nothing to run.
#[tactic(auto, using(crate::proofs::Numbers::ints_exact, crate::proofs::Numbers::hypers_exact))]
pub fn numbers_exact()
    ensures ints { IntsExact }
    ensures hypers { HypersExact }
{}

/// Counted lists are exact whatever their elements are. There is nothing to run: the contract holds the law for every
/// type of element.
pub fn lists_exact<T>()
    ensures { ListsExact T }
{}
