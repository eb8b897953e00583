// The key of a counter.
ghost use Rattle.std.specs.Prelude.{◌≡◌, IfOk};
ghost use Rattle.script.specs.Keys.{key_at, bytes_of_key};
ghost use Rattle.script.specs.Words.{behind_first, read_at};

use super::faults::{Expected, Fault};
use super::words::Words;
use std::fmt;
use texts::HexWord;

/// The key of a counter of one of the two kinds. It is shown by its kind alone.
#[derive(Clone, Copy, PartialEq, Eq)]
pub enum Key {
    Hmac([u8; 32]),
    Cmac([u8; 16]),
}

impl fmt::Display for Key {
    fn fmt<W: fmt::Write>(&self, f: &mut fmt::Formatter<W>) -> fmt::Result {
        f.write_str(match self {
            Key::Hmac(_) => "hmac",
            Key::Cmac(_) => "cmac",
        })
    }
}

impl fmt::Debug for Key {
    fn fmt<W: fmt::Write>(&self, f: &mut fmt::Formatter<W>) -> fmt::Result {
        fmt::Display::fmt(self, f)
    }
}

impl Key {
    // The kind and the key that the next two words of a line name.
    #[tactic(auto, using(crate::proofs::Spelling::spelling), unfolding(crate::specs::Words::spelt, crate::specs::Keys::key_at))]
    pub(crate) fn next_of(words: &mut Words) -> Result<Key, Fault>
        ensures value { result ≡ key_at words.old }
        ensures rest { IfOk result (λ _. words.new ≡ behind_first (behind_first words.old)) }
    {
        let fault = words.fault(Expected::CounterKind);
        match words.next() {
            Some(b"hmac") => Ok(Key::Hmac(next_key(words, Expected::HmacKey)?)),
            Some(b"cmac") => Ok(Key::Cmac(next_key(words, Expected::CmacKey)?)),
            _ => Err(fault),
        }
    }
}

// The next word of a line, which must write so many bytes.
fn next_key<const N: usize>(words: &mut Words, expected: Expected) -> Result<[u8; N], Fault>
    ensures value { result ≡ read_at expected (bytes_of_key N) words.old }
    ensures rest { words.new ≡ behind_first words.old }
{
    let fault = words.fault(expected);
    words.next().and_then(read_key).ok_or(fault)
}

// The bytes that a word writes, if there are so many.
fn read_key<const N: usize>(word: &[u8]) -> Option<[u8; N]>
    ensures { result ≡ bytes_of_key N word.now }
{
    HexWord::of(word)?.array()
}
