// The calls of a replica as the entries of a group ask for them.
ghost use Rattle.std.specs.Prelude.{◌≡◌};
ghost use Rattle.script.specs.GroupCalls.{asked_of, taken_of, called_of, marked_of};

use super::bytes::Bytes;
use super::entries::next_request;
use super::faults::Fault;
use super::lengths::{Lengths, read_lengths, read_out};
use super::words::Words;
use terms::Request;

/// A request that the replica at a seat is to propose.
#[derive(Clone, Copy, PartialEq, Eq, Debug)]
pub struct Asked {
    pub seat: u32,
    pub request: Request,
    /// The length of the buffer that is lent.
    pub out: Option<u32>,
}

/// Bytes that the replica at a seat is to read.
#[derive(Drop)]
pub struct Taken<'a> {
    pub seat: u32,
    pub bytes: Bytes<'a>,
}

/// A call that says no more than the seat.
#[derive(Clone, Copy, PartialEq, Eq, Debug)]
pub struct Called {
    pub seat: u32,
    /// The length of the buffer that is lent.
    pub out: Option<u32>,
}

/// A mark that the replica at a seat is to set.
#[derive(Clone, Copy, PartialEq, Eq, Debug)]
pub struct Marked {
    pub seat: u32,
    pub lengths: Lengths,
}

// A seat, a request and a length.
#[tactic(auto, unfolding(crate::specs::GroupCalls::asked_of))]
pub(crate) fn read_asked(words: &mut Words) -> Result<Asked, Fault>
    ensures { result ≡ asked_of words.old }
{
    let seat = words.number()?;
    let request = next_request(words)?;
    let out = read_out(words)?;
    Ok(Asked { seat, request, out })
}

// A seat and bytes, and nothing behind them.
#[tactic(auto, unfolding(crate::specs::GroupCalls::taken_of))]
pub(crate) fn read_taken<'a>(words: &mut Words<'a>) -> Result<Taken<'a>, Fault>
    ensures { result ≡ taken_of words.old }
{
    let seat = words.number()?;
    let bytes = Bytes::next_of(words)?;
    words.end_with(Taken { seat, bytes })
}

// A seat and a length.
#[tactic(auto, unfolding(crate::specs::GroupCalls::called_of))]
pub(crate) fn read_called(words: &mut Words) -> Result<Called, Fault>
    ensures { result ≡ called_of words.old }
{
    let seat = words.number()?;
    let out = read_out(words)?;
    Ok(Called { seat, out })
}

// A seat and two lengths.
#[tactic(auto, unfolding(crate::specs::GroupCalls::marked_of))]
pub(crate) fn read_marked(words: &mut Words) -> Result<Marked, Fault>
    ensures { result ≡ marked_of words.old }
{
    let seat = words.number()?;
    let lengths = read_lengths(words)?;
    Ok(Marked { seat, lengths })
}
