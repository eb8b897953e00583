// A text read line by line.
ghost use Rattle.std.specs.Prelude.{◌≡◌};
ghost use Rattle.std.specs.Iterator.{item_count};
ghost use Rattle.texts.specs.Lines.{lines_left, NextLine};

use super::cutting::next_line;

/// The lines of a text that are still to come, each with its number from 1.
#[derive(Clone, Copy)]
pub struct Lines<'a> {
    rest: &'a [u8],
    number: u64,
}

impl<'a> Lines<'a> {
    /// All lines of a text.
    pub fn of(text: &'a [u8]) -> Lines<'a>
        ensures rest { result.rest.now ≡ text.now }
        ensures number { result.number ≡ 0 }
    {
        Lines {
            rest: text,
            number: 0,
        }
    }

    /// The number of the line that was read last, from 1; 0 before the first.
    pub fn number(&self) -> u64
        ensures { result ≡ self.now.number }
    {
        self.number
    }
}

impl<'a> Iterator for Lines<'a> {
    type Item = (u64, &'a [u8]);

    ghost next_gives = { NextLine };

    ghost remaining = { item_count lines_left };

    fn next(&mut self) -> Option<(u64, &'a [u8])> {
        let (line, rest) = next_line(self.rest)?;
        self.rest = rest;
        self.number = self.number.saturating_add(1);
        Some((self.number, line))
    }
}
