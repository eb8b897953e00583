// The lengths that an entry of a group may end with: those of the buffers that a call is lent.
ghost use Rattle.std.specs.Prelude.{◌≡◌};
ghost use Rattle.script.specs.Lengths.{length_of, out_of, scratch_of, lengths_of};

use super::faults::{Expected, Fault};
use super::words::Words;

/// How long the two buffers are that a call is lent, where the entry says so.
#[derive(Clone, Copy, PartialEq, Eq, Debug)]
pub struct Lengths {
    pub out: Option<u32>,
    pub scratch: Option<u32>,
}

// A length behind its name and nothing behind it, or nothing at all.
#[tactic(auto, unfolding(crate::specs::Lengths::length_of, crate::specs::Words::spelt))]
fn read_length(words: &mut Words, name: &[u8], expected: Expected) -> Result<Option<u32>, Fault>
    ensures { result ≡ length_of name.now expected words.old }
{
    let fault = words.fault(expected);
    match words.next() {
        None => Ok(None),
        Some(word) if word == name => {
            let length = words.number()?;
            words.end_with(Some(length))
        }
        Some(_) => Err(fault),
    }
}

// `out` with its length, or nothing.
pub(crate) fn read_out(words: &mut Words) -> Result<Option<u32>, Fault>
    ensures { result ≡ out_of words.old }
{
    read_length(words, b"out", Expected::Out)
}

// `scratch` with its length, or nothing.
fn read_scratch(words: &mut Words) -> Result<Option<u32>, Fault>
    ensures { result ≡ scratch_of words.old }
{
    read_length(words, b"scratch", Expected::Scratch)
}

// The two in either order, each at most once, and nothing behind them.
#[tactic(auto, unfolding(crate::specs::Lengths::lengths_of, crate::specs::Words::spelt))]
pub(crate) fn read_lengths(words: &mut Words) -> Result<Lengths, Fault>
    ensures { result ≡ lengths_of words.old }
{
    let fault = words.fault(Expected::Length);
    match words.next() {
        None => Ok(Lengths {
            out: None,
            scratch: None,
        }),
        Some(word) if word == b"out".as_slice() => {
            let out = Some(words.number()?);
            let scratch = read_scratch(words)?;
            Ok(Lengths { out, scratch })
        }
        Some(word) if word == b"scratch".as_slice() => {
            let scratch = Some(words.number()?);
            let out = read_out(words)?;
            Ok(Lengths { out, scratch })
        }
        Some(_) => Err(fault),
    }
}
