// The entries of a group: what a script asks of its replicas, and of the counters that are in other hands.
ghost use Rattle.std.specs.Prelude.{◌≡◌};
ghost use Rattle.texts.specs.Cutting.{words_of};
ghost use Rattle.script.specs.GroupEntries.{group_entry_of, said_of, seat_of, used_of, seat_certify_of, line_of, GroupEntriesReadBack, TurnedMarksReadBack};

use super::counter_entries::{Certify, next_kind, read_certify};
use super::faults::{Expected, Fault};
use super::group_calls::{
    Asked, Called, Marked, Taken, read_asked, read_called, read_marked, read_taken,
};
use super::verbs::Verb;
use super::words::Words;
use counter::Kind;

/// A use of a seat's counter before the first call.
#[derive(Clone, Copy, PartialEq, Eq, Debug)]
pub struct UsedCounter {
    pub seat: u32,
    pub kind: Kind,
    /// The number of the counter.
    pub number: u32,
    /// Its new value.
    pub value: u64,
}

/// A certificate that is asked of the counter of a seat.
#[derive(Drop)]
pub struct SeatCertify<'a> {
    pub seat: u32,
    pub certify: Certify<'a>,
}

/// One step of a group's run.
#[derive(Drop)]
pub enum GroupEntry<'a> {
    /// The seat that is in other hands.
    Other(u32),
    Used(UsedCounter),
    Ask(Asked),
    Take(Taken<'a>),
    Vote(Called),
    /// The seat whose replica is to carry out.
    Carry(u32),
    Mark(Marked),
    Suspect(Called),
    Open(Called),
    /// The seat whose replica is to be shown.
    Show(u32),
    Certify(SeatCertify<'a>),
    /// The number of the line whose bytes are to be delivered.
    Deliver(u64),
    Pump,
}

/// The group's entry that a line is, nothing for a line without words, or the first fault from the left.
/// Every entry that is written with single spaces reads as itself, and a mark also with its two lengths turned.
#[tactic(auto, using(crate::proofs::GroupBacks::group_entries_read_back, crate::proofs::GroupBacks::turned_marks_read_back))]
pub fn read_group_entry(line: &[u8]) -> Result<Option<GroupEntry<'_>>, Fault>
    ensures value { result ≡ group_entry_of (words_of line.now) }
    ensures back { GroupEntriesReadBack }
    ensures turned { TurnedMarksReadBack }
{
    let mut words = Words::of(line);
    let fault = words.fault(Expected::GroupEntry);
    let Some(word) = words.next() else {
        return Ok(None);
    };
    let verb = Verb::of(word).ok_or(fault)?;
    Ok(Some(read_said(verb, &mut words)?))
}

// What the words behind a verb say.
#[tactic(auto, unfolding(crate::specs::GroupEntries::said_of))]
fn read_said<'a>(verb: Verb, words: &mut Words<'a>) -> Result<GroupEntry<'a>, Fault>
    ensures { result ≡ said_of verb words.old }
{
    Ok(match verb {
        Verb::Other => GroupEntry::Other(read_seat(words)?),
        Verb::Used => GroupEntry::Used(read_used(words)?),
        Verb::Ask => GroupEntry::Ask(read_asked(words)?),
        Verb::Take => GroupEntry::Take(read_taken(words)?),
        Verb::Vote => GroupEntry::Vote(read_called(words)?),
        Verb::Carry => GroupEntry::Carry(read_seat(words)?),
        Verb::Mark => GroupEntry::Mark(read_marked(words)?),
        Verb::Suspect => GroupEntry::Suspect(read_called(words)?),
        Verb::Open => GroupEntry::Open(read_called(words)?),
        Verb::Show => GroupEntry::Show(read_seat(words)?),
        Verb::Certify => GroupEntry::Certify(read_seat_certify(words)?),
        Verb::Deliver => GroupEntry::Deliver(read_line(words)?),
        Verb::Pump => words.end_with(GroupEntry::Pump)?,
    })
}

// A seat, and nothing behind it.
#[tactic(auto, unfolding(crate::specs::GroupEntries::seat_of))]
fn read_seat(words: &mut Words) -> Result<u32, Fault>
    ensures { result ≡ seat_of words.old }
{
    let seat = words.number()?;
    words.end_with(seat)
}

// A seat, a kind, a counter and its new value, and nothing behind them.
#[tactic(auto, unfolding(crate::specs::GroupEntries::used_of))]
fn read_used(words: &mut Words) -> Result<UsedCounter, Fault>
    ensures { result ≡ used_of words.old }
{
    let seat = words.number()?;
    let kind = next_kind(words)?;
    let number = words.number()?;
    let value = words.long()?;
    words.end_with(UsedCounter {
        seat,
        kind,
        number,
        value,
    })
}

// A seat and what its counter is to certify, and nothing behind them.
#[tactic(auto, unfolding(crate::specs::GroupEntries::seat_certify_of))]
fn read_seat_certify<'a>(words: &mut Words<'a>) -> Result<SeatCertify<'a>, Fault>
    ensures { result ≡ seat_certify_of words.old }
{
    let seat = words.number()?;
    let certify = read_certify(words)?;
    Ok(SeatCertify { seat, certify })
}

// The number of a line, and nothing behind it.
#[tactic(auto, unfolding(crate::specs::GroupEntries::line_of))]
fn read_line(words: &mut Words) -> Result<u64, Fault>
    ensures { result ≡ line_of words.old }
{
    let line = words.long()?;
    words.end_with(line)
}
