// A glyph's row, and its written form.
ghost use Rattle.std.specs.Prelude.{◌≡◌};
ghost use Rattle.registers.specs.Rows.{new_row, measure_of, with_measure, row_bytes};
ghost use Rattle.std.proofs.Common.{rules};

use super::operations::Measure;
use xdr::{Row, Writer};

/// The bytes of a written row: three numbers.
pub const ROW_BYTES: usize = 12;

/// A glyph with its two numbers.
#[derive(Clone, Copy, PartialEq, Eq, Debug)]
pub struct GlyphRow {
    pub glyph: u32,
    pub advance: u32,
    pub bearing: u32,
}

impl GlyphRow {
    /// The row of a glyph of which nothing was set yet.
    pub fn new(glyph: u32) -> GlyphRow
        ensures { result ≡ new_row glyph }
    {
        GlyphRow {
            glyph,
            advance: 0,
            bearing: 0,
        }
    }

    /// One of the row's numbers.
    pub fn get(self, measure: Measure) -> u32
        ensures { result ≡ measure_of measure self }
    {
        match measure {
            Measure::Advance => self.advance,
            Measure::Bearing => self.bearing,
        }
    }

    /// The row with one of its numbers set.
    pub fn with(self, measure: Measure, value: u32) -> GlyphRow
        ensures { result ≡ with_measure measure value self }
    {
        match measure {
            Measure::Advance => GlyphRow {
                advance: value,
                ..self
            },
            Measure::Bearing => GlyphRow {
                bearing: value,
                ..self
            },
        }
    }
}

impl Row for GlyphRow {
    ghost width = { 12 };

    ghost layout = { row_bytes };

    ghost wide = { Prim.search rules };

    fn put_row(&self, writer: &mut Writer<'_>) {
        writer.put_rows(&[self.glyph, self.advance, self.bearing]);
    }
}
