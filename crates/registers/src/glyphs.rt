// The glyph register: an advance and a left bearing for each of up to 64 glyphs, ascending by glyph.
ghost use Rattle.std.specs.Prelude.{◌≡◌, ◌≤◌, true, List, [], length, is_ok, IfOk, if◌then◌else◌, vec_len, vec_capacity, MatchResult};
ghost use Rattle.registers.specs.declared.glyph_rows.GlyphRow.{GlyphRow};
ghost use Rattle.service.specs.Failures.{outcome_reply};
ghost use Rattle.registers.specs.GlyphLaws.{GlyphLaws};
ghost use Rattle.registers.specs.Glyphs.{places, has_place, put_outcome, set_reply, read_reply, after_set, glyph_reply, glyph_next, glyphs_written};
ghost use Rattle.registers.specs.Rows.{ascending, row_of, placed, Found, Missing};

use super::glyph_rows::{GlyphRow, ROW_BYTES};
use super::operations::{Measure, Operation};
use service::{Failure, Service, reply_of};
use std::alloc::{AllocError, Global};
use terms::Request;
use xdr::{Row, Writer};

/// The register has room for this many glyphs.
pub const PLACES: usize = 64;

// The written state is the number of rows, and then the rows.
const COUNT_BYTES: usize = 4;

// The largest advance or bearing that can be set.
const LARGEST_MEASURE: u32 = 65_535;

/// A register of glyph widths. Of every register it can be read that its rows ascend, that they are no more than there
/// are places, and that the memory for all places is reserved.
#[derive(Drop)]
pub struct GlyphRegister {
    rows: Vec<GlyphRow>,
    ghost ordered: { ascending rows.items ≡ true },
    ghost few: { vec_len rows ≤ places },
    ghost room: { places ≤ vec_capacity rows },
}

impl GlyphRegister {
    /// An empty register. Its memory is reserved here, so that no request can want for it.
    #[tactic(auto, using(crate::proofs::Reading::glyph_laws))]
    pub fn new(heap: Global) -> Result<GlyphRegister, AllocError>
        ensures start { IfOk result (λ s. s.rows.items ≡ []) }
        ensures laws { GlyphLaws }
    {
        let rows = Vec::with_capacity(heap, PLACES)?;
        Ok(GlyphRegister { rows })
    }

    /// The rows, ascending by glyph, and as many as there are places at most.
    pub fn rows(&self) -> &[GlyphRow]
        ensures rows { result.now ≡ self.now.rows.items }
        ensures ordered { ascending self.now.rows.items ≡ true }
        ensures few { length self.now.rows.items ≤ places }
    {
        self.rows.as_slice()
    }

    // Where a glyph's row stands, or where it would stand.
    fn find(&self, glyph: u32) -> Result<usize, usize>
        ensures { MatchResult result (Found self.now.rows.items glyph) (Missing self.now.rows.items glyph) }
    {
        self.rows.binary_search_by_key(&glyph, |row| row.glyph)
    }

    // A glyph's row, if it has one.
    fn row(&self, glyph: u32) -> Option<GlyphRow>
        ensures { result ≡ row_of self.now.rows.items glyph }
    {
        let place = self.find(glyph).ok()?;
        Some(self.rows[place])
    }

    fn read(&self, glyph: u32, measure: Measure) -> Result<u32, Failure>
        ensures { outcome_reply result ≡ read_reply measure (row_of self.now.rows.items glyph) }
    {
        let row = self.row(glyph).ok_or(Failure::NotAvailable)?;
        Ok(row.get(measure))
    }

    #[tactic(auto, using(crate::proofs::Sets::set_glyph, crate::proofs::Sets::set_refused))]
    fn set(&mut self, glyph: u32, measure: Measure, value: u32) -> Result<u32, Failure>
        ensures answer { outcome_reply result ≡ set_reply self.old.rows.items glyph value }
        ensures after { self.new.rows.items ≡ after_set self.old.rows.items measure glyph value }
    {
        if value > LARGEST_MEASURE {
            return Err(Failure::NotTaken);
        }
        let row = self.row(glyph).unwrap_or(GlyphRow::new(glyph));
        self.put(row.with(measure, value))?;
        Ok(value)
    }

    // Puts a row where its glyph belongs, over the row that the glyph had, if there is a place.
    #[tactic(auto, using(crate::proofs::Places::placed_ascends))]
    fn put(&mut self, row: GlyphRow) -> Result<(), Failure>
        ensures answer { result ≡ put_outcome (has_place self.old.rows.items row.glyph) }
        ensures after { self.new.rows.items ≡ (if is_ok result then placed self.old.rows.items row else self.old.rows.items) }
    {
        match self.find(row.glyph) {
            Ok(place) => self.rows[place] = row,
            Err(place) => {
                if self.rows.len() >= PLACES {
                    return Err(Failure::NotAvailable);
                }
                // The memory was reserved when the register was made, so this cannot fail.
                self.rows.insert(place, row).unwrap();
            }
        }
        Ok(())
    }

    // Carries out a request.
    fn carry_out(&mut self, request: Request) -> Result<u32, Failure>
        ensures answer { outcome_reply result ≡ glyph_reply self.old.rows.items request }
        ensures after { self.new.rows.items ≡ glyph_next self.old.rows.items request }
    {
        match Operation::try_from(request.code)? {
            Operation::Set(measure) => self.set(request.key, measure, request.value),
            Operation::Read(measure) => self.read(request.key, measure),
        }
    }
}

impl Service for GlyphRegister {
    ghost State = { List GlyphRow };

    ghost state = { λ s. s.rows.items };

    ghost next = { glyph_next };

    ghost reply = { glyph_reply };

    ghost written = { glyphs_written };

    fn apply(&mut self, request: Request) -> (u32, u32) {
        reply_of(self.carry_out(request))
    }

    #[tactic(auto, using(crate::proofs::Written::written_length))]
    fn written_len(&self) -> usize {
        COUNT_BYTES + ROW_BYTES * self.rows.len()
    }

    #[tactic(auto, using(crate::proofs::Written::written_length, crate::proofs::Written::none_written, crate::proofs::Written::rows_fit, crate::proofs::Written::all_written))]
    fn write(&self, out: &mut [u8]) -> Option<usize> {
        if out.len() < self.written_len() {
            return None;
        }
        let mut writer = Writer::new(out);
        (self.rows.len() as u32).put_row(&mut writer);
        writer.put_rows(&self.rows);
        Some(writer.position())
    }
}
