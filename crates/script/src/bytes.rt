// The bytes that an entry names.
ghost use Rattle.std.specs.Prelude.{◌≡◌};
ghost use Rattle.script.specs.Bytes.{bytes_named, bytes_at};
ghost use Rattle.script.specs.Words.{behind_first};

use super::faults::{Expected, Fault};
use super::words::Words;
use texts::{HexWord, read_number};

/// Bytes that an entry names.
#[derive(Drop)]
pub enum Bytes<'a> {
    /// Those that stand in the line.
    Here(HexWord<'a>),
    /// Those that the entry on the line of this number wrote.
    Line(u32),
}

impl<'a> Bytes<'a> {
    // The bytes that a word names: `@LINE`, `-` for none, or hexadecimal digits.
    #[tactic(auto, using(crate::proofs::Spelling::spelling, texts::proofs::Pairs::no_digits, std::proofs::lemmas::List::take_rest))]
    fn named(word: &'a [u8]) -> Option<Bytes<'a>>
        ensures { result ≡ bytes_named word.now }
    {
        match word {
            [b'@', line @ ..] => Some(Bytes::Line(read_number(line)?)),
            b"-" => Some(Bytes::Here(HexWord::of(&[])?)),
            _ => Some(Bytes::Here(HexWord::of(word)?)),
        }
    }

    // The bytes that the next word of a line names.
    pub(crate) fn next_of(words: &mut Words<'a>) -> Result<Bytes<'a>, Fault>
        ensures value { result ≡ bytes_at words.old }
        ensures rest { words.new ≡ behind_first words.old }
    {
        let fault = words.fault(Expected::Bytes);
        words.next().and_then(Bytes::named).ok_or(fault)
    }
}
