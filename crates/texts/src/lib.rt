// Text read from bytes: lines, words, and the numbers and bytes that words write.
#![tactic(auto)]

mod cutting;
mod hexes;
mod lines;
mod numerals;

pub use cutting::{next_line, next_word};
pub use hexes::{Hex, HexWord, read_hex};
pub use lines::Lines;
pub use numerals::{read_long, read_number};
