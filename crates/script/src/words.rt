// A line read word by word, with the place where the reading stands.
ghost use Rattle.std.specs.Prelude.{◌≡◌};
ghost use Rattle.std.specs.Iterator.{item_count};
ghost use Rattle.texts.specs.Cutting.{words_of};
ghost use Rattle.script.specs.Words.{NextWord, fault_at, behind_first, number_at, long_at, with_end};

use super::faults::{Expected, Fault};
use std::marker::Model;
use texts::{next_word, read_long, read_number};

// What is left of a line, and the place of its first word in the whole line.
#[derive(Drop)]
pub(crate) struct Words<'a> {
    rest: &'a [u8],
    place: u32,
}

impl<'a> Model for Words<'a> {
    ghost use Rattle.texts.specs.Cutting.{words_of};
    ghost use Rattle.script.specs.Words.{Left};

    ghost Value = { Left };

    ghost view = { λ w. record { place = w.place; words = words_of w.rest.now } };
}

impl<'a> Iterator for Words<'a> {
    type Item = &'a [u8];

    ghost next_gives = { NextWord };

    ghost remaining = { item_count (λ w. w.words) };

    fn next(&mut self) -> Option<&'a [u8]> {
        self.place = self.place.saturating_add(1);
        let (word, rest) = next_word(self.rest)?;
        self.rest = rest;
        Some(word)
    }
}

impl<'a> Words<'a> {
    // All words of a line.
    pub(crate) fn of(line: &'a [u8]) -> Words<'a>
        ensures { result ≡ record { place = 1; words = words_of line.now } }
    {
        Words {
            rest: line,
            place: 1,
        }
    }

    // The fault that the next word is not what was expected.
    pub(crate) fn fault(&self, expected: Expected) -> Fault
        ensures { result ≡ fault_at self.now.place expected }
    {
        Fault {
            word: self.place,
            expected,
        }
    }

    // The next word, which must be a number.
    pub(crate) fn number(&mut self) -> Result<u32, Fault>
        ensures value { result ≡ number_at self.old }
        ensures rest { self.new ≡ behind_first self.old }
    {
        let fault = self.fault(Expected::Number);
        self.next().and_then(|word| read_number(word)).ok_or(fault)
    }

    // The next word, which must be a long number.
    pub(crate) fn long(&mut self) -> Result<u64, Fault>
        ensures value { result ≡ long_at self.old }
        ensures rest { self.new ≡ behind_first self.old }
    {
        let fault = self.fault(Expected::Long);
        self.next().and_then(|word| read_long(word)).ok_or(fault)
    }

    // What the line said, if it has no more words.
    pub(crate) fn end_with<T: Drop>(&mut self, said: T) -> Result<T, Fault>
        ensures { result ≡ with_end self.old said }
    {
        let fault = self.fault(Expected::EndOfLine);
        match self.next() {
            Some(_) => Err(fault),
            None => Ok(said),
        }
    }
}
