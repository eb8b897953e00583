// The entries of mail: what a script asks to be read.
ghost use Rattle.std.specs.Prelude.{◌≡◌};
ghost use Rattle.texts.specs.Cutting.{words_of};
ghost use Rattle.script.specs.MailEntries.{mail_entry_of, mail_of, MailEntriesReadBack};

use super::bytes::Bytes;
use super::faults::{Expected, Fault};
use super::words::Words;

/// One step of a run of mail.
#[derive(Drop)]
pub enum MailEntry<'a> {
    /// Bytes that are to be read.
    Read(Bytes<'a>),
}

/// The mail's entry that a line is, nothing for a line without words, or the first fault from the left.
/// Every entry that is written with single spaces reads as itself.
#[tactic(auto, using(crate::proofs::MailBacks::mail_entries_read_back), unfolding(crate::specs::Words::spelt))]
pub fn read_mail_entry(line: &[u8]) -> Result<Option<MailEntry<'_>>, Fault>
    ensures value { result ≡ mail_entry_of (words_of line.now) }
    ensures back { MailEntriesReadBack }
{
    let mut words = Words::of(line);
    let fault = words.fault(Expected::MailEntry);
    match words.next() {
        None => Ok(None),
        Some(word) if word == b"read".as_slice() => {
            Ok(Some(MailEntry::Read(read_mail(&mut words)?)))
        }
        Some(_) => Err(fault),
    }
}

// The bytes of mail, and nothing behind them.
#[tactic(auto, unfolding(crate::specs::MailEntries::mail_of))]
fn read_mail<'a>(words: &mut Words<'a>) -> Result<Bytes<'a>, Fault>
    ensures { result ≡ mail_of words.old }
{
    let bytes = Bytes::next_of(words)?;
    words.end_with(bytes)
}
