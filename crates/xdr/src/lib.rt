// Numbers, opaque bytes, counted lists and tables as RFC 4506 lays them out.
#![tactic(auto)]

mod ints;
mod reading;
mod tables;
mod writer;

pub use ints::Number;
pub use reading::{lists_exact, numbers_exact, read_count, read_opaque, read_rows};
pub use tables::Row;
pub use writer::Writer;
