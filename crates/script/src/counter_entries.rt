// The entries of a trusted counter: what a script asks of it, and what it checks.
ghost use Rattle.std.specs.Prelude.{◌≡◌};
ghost use Rattle.texts.specs.Cutting.{words_of};
ghost use Rattle.script.specs.CounterEntries.{kind_of, kind_at, counter_entry_of, certify_of, value_of, claim_of, CounterEntriesReadBack};
ghost use Rattle.script.specs.Words.{behind_first};

use super::bytes::Bytes;
use super::faults::{Expected, Fault};
use super::words::Words;
use counter::Kind;

/// A certificate that is asked for.
#[derive(Drop)]
pub struct Certify<'a> {
    pub kind: Kind,
    /// The number of the counter.
    pub number: u32,
    /// Its new value.
    pub value: u64,
    pub message: Bytes<'a>,
}

/// A tag that is shown, and the statement that it is shown for. Any numbers may stand in it.
#[derive(Drop)]
pub struct Claim<'a> {
    pub kind: u32,
    pub seat: u32,
    pub number: u32,
    pub new: u64,
    pub old: u64,
    pub message: Bytes<'a>,
    pub tag: Bytes<'a>,
}

/// One step of a counter's run.
#[derive(Drop)]
pub enum CounterEntry<'a> {
    Certify(Certify<'a>),
    /// The value of the counter of this number.
    Value(u32),
    Check(Claim<'a>),
}

/// The counter's entry that a line is, nothing for a line without words, or the first fault from the left.
/// Every entry that is written with single spaces reads as itself.
#[tactic(auto, using(crate::proofs::CounterBacks::counter_entries_read_back), unfolding(crate::specs::Words::spelt))]
pub fn read_counter_entry(line: &[u8]) -> Result<Option<CounterEntry<'_>>, Fault>
    ensures value { result ≡ counter_entry_of (words_of line.now) }
    ensures back { CounterEntriesReadBack }
{
    let mut words = Words::of(line);
    let fault = words.fault(Expected::CounterEntry);
    match words.next() {
        None => Ok(None),
        Some(word) if word == b"certify".as_slice() => {
            Ok(Some(CounterEntry::Certify(read_certify(&mut words)?)))
        }
        Some(word) if word == b"value".as_slice() => {
            Ok(Some(CounterEntry::Value(read_value(&mut words)?)))
        }
        Some(word) if word == b"check".as_slice() => {
            Ok(Some(CounterEntry::Check(read_claim(&mut words)?)))
        }
        Some(_) => Err(fault),
    }
}

// The kind, the counter, its new value and the message, and nothing behind them.
#[tactic(auto, unfolding(crate::specs::CounterEntries::certify_of))]
pub(crate) fn read_certify<'a>(words: &mut Words<'a>) -> Result<Certify<'a>, Fault>
    ensures { result ≡ certify_of words.old }
{
    let kind = next_kind(words)?;
    let number = words.number()?;
    let value = words.long()?;
    let message = Bytes::next_of(words)?;
    words.end_with(Certify {
        kind,
        number,
        value,
        message,
    })
}

// The kind of certificates that the next word of a line names.
pub(crate) fn next_kind(words: &mut Words) -> Result<Kind, Fault>
    ensures value { result ≡ kind_at words.old }
    ensures rest { words.new ≡ behind_first words.old }
{
    let fault = words.fault(Expected::Kind);
    words.next().and_then(read_kind).ok_or(fault)
}

// The kind of certificates that a word names.
#[tactic(auto, using(crate::proofs::Spelling::spelling))]
fn read_kind(word: &[u8]) -> Option<Kind>
    ensures { result ≡ kind_of word.now }
{
    match word {
        b"continuing" => Some(Kind::Continuing),
        b"independent" => Some(Kind::Independent),
        _ => None,
    }
}

// The number of a counter, and nothing behind it.
#[tactic(auto, unfolding(crate::specs::CounterEntries::value_of))]
fn read_value(words: &mut Words) -> Result<u32, Fault>
    ensures { result ≡ value_of words.old }
{
    let number = words.number()?;
    words.end_with(number)
}

// The statement and the tag that is shown for it, and nothing behind them.
#[tactic(auto, unfolding(crate::specs::CounterEntries::claim_of))]
fn read_claim<'a>(words: &mut Words<'a>) -> Result<Claim<'a>, Fault>
    ensures { result ≡ claim_of words.old }
{
    let kind = words.number()?;
    let seat = words.number()?;
    let number = words.number()?;
    let new = words.long()?;
    let old = words.long()?;
    let message = Bytes::next_of(words)?;
    let tag = Bytes::next_of(words)?;
    words.end_with(Claim {
        kind,
        seat,
        number,
        new,
        old,
        message,
        tag,
    })
}
