// Unsigned ints and unsigned hypers: the two numbers of RFC 4506 that have a width of their own.
ghost use Rattle.std.specs.Prelude.{◌≡◌, ℕ, ◌^◌, ◌<◌, List, Option};
ghost use Rattle.std.specs.Option.{option_map};
ghost use Rattle.xdr.specs.Layout.{int, hyper};
ghost use Rattle.xdr.specs.Laws.{Exact};
ghost use Rattle.xdr.specs.Reading.{value_and_rest, int_from, hyper_from};
ghost use Rattle.std.proofs.Common.{rules};

use super::tables::Row;
use super::writer::Writer;

/// A number that can be written as a row and read back.
pub trait Number: Row {
    /// The numbers that there are.
    ghost fits: { Self → Type 0 };

    /// The number that begins a list of bytes, with the bytes behind it.
    ghost from: { List ℕ → Option (Self × List ℕ) };

    /// Reads a number, or answers None where fewer bytes are left than it has.
    /// The bytes are the only writing of the number that they read as.
    fn read(bytes: &[u8]) -> Option<(Self, &[u8])>
        ensures value { option_map value_and_rest result ≡ from bytes.now }
        ensures exact { Exact fits Self.layout from };
}

impl Row for u32 {
    ghost width = { 4 };

    ghost layout = { int };

    ghost wide = { Prim.search rules };

    fn put_row(&self, writer: &mut Writer<'_>) {
        let int = self.to_be_bytes();
        writer.put(&int);
    }
}

impl Number for u32 {
    ghost fits = { λ n. n < 2 ^ 32 };

    ghost from = { int_from };

    fn read(bytes: &[u8]) -> Option<(u32, &[u8])> {
        let (int, rest) = bytes.split_first_chunk()?;
        Some((u32::from_be_bytes(*int), rest))
    }
}

impl Row for u64 {
    ghost width = { 8 };

    ghost layout = { hyper };

    ghost wide = { Prim.search rules };

    fn put_row(&self, writer: &mut Writer<'_>) {
        let hyper = self.to_be_bytes();
        writer.put(&hyper);
    }
}

impl Number for u64 {
    ghost fits = { λ n. n < 2 ^ 64 };

    ghost from = { hyper_from };

    fn read(bytes: &[u8]) -> Option<(u64, &[u8])> {
        let (high, rest) = u32::read(bytes)?;
        let (low, rest) = u32::read(rest)?;
        Some((u64::from(high) << 32 | u64::from(low), rest))
    }
}
