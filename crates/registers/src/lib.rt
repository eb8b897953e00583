// The two registers: glyph widths and the release line.
#![tactic(auto)]

mod glyph_rows;
mod glyphs;
mod operations;
mod release;

pub use glyph_rows::GlyphRow;
pub use glyphs::{GlyphRegister, PLACES};
pub use operations::Measure;
pub use release::ReleaseLine;
