// The entries of a register: what a script asks of it, one after the other.
ghost use Rattle.std.specs.Prelude.{◌≡◌, IfOk};
ghost use Rattle.texts.specs.Cutting.{words_of};
ghost use Rattle.script.specs.Entries.{entry_of, request_of, request_at, behind_request, EntriesReadBack};

use super::faults::{Expected, Fault};
use super::words::Words;
use terms::Request;

/// One step of a run.
#[derive(Clone, Copy, PartialEq, Eq, Debug)]
pub enum Entry {
    Apply(Request),
}

/// The entry that a line is, nothing for a line without words, or the first fault from the left.
/// Every entry that is written in decimal with single spaces reads as itself.
#[tactic(auto, using(crate::proofs::Spelling::spelling, crate::proofs::Backs::entries_read_back))]
pub fn read_entry(line: &[u8]) -> Result<Option<Entry>, Fault>
    ensures value { result ≡ entry_of (words_of line.now) }
    ensures back { EntriesReadBack }
{
    let mut words = Words::of(line);
    let fault = words.fault(Expected::Entry);
    match words.next() {
        None => Ok(None),
        Some(b"apply") => Ok(Some(Entry::Apply(read_request(&mut words)?))),
        Some(_) => Err(fault),
    }
}

// The five numbers of a request, and nothing behind them.
#[tactic(auto, unfolding(crate::specs::Entries::request_of))]
fn read_request(words: &mut Words) -> Result<Request, Fault>
    ensures { result ≡ request_of words.old }
{
    let request = next_request(words)?;
    words.end_with(request)
}

// The request that the next five words of a line write.
#[tactic(auto, unfolding(crate::specs::Entries::request_at))]
pub(crate) fn next_request(words: &mut Words) -> Result<Request, Fault>
    ensures value { result ≡ request_at words.old }
    ensures rest { IfOk result (λ _. words.new ≡ behind_request words.old) }
{
    let client = words.number()?;
    let sequence = words.number()?;
    let code = words.number()?;
    let key = words.number()?;
    let value = words.number()?;
    Ok(Request {
        client,
        sequence,
        code,
        key,
        value,
    })
}
