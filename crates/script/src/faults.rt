// What was expected where a line cannot be read.
use thiserror::Error;

/// What a word should be. It is shown as the end of a sentence about the word.
#[derive(Clone, Copy, PartialEq, Eq, Debug, Error)]
pub enum Expected {
    #[error("should be \"register SERVICE\", \"counter N SEAT KIND KEY\", \"mail\" or \"group N KIND KEY SERVICE\"")]
    Header,
    #[error("should be a service: glyphs, release, sessions glyphs or sessions release")]
    Service,
    /// A service that can stand below sessions.
    #[error("should be a service below sessions: glyphs or release")]
    PlainService,
    /// A kind of counters.
    #[error("should be a kind of counters: hmac or cmac")]
    CounterKind,
    #[error("should be a key of 64 hexadecimal digits")]
    HmacKey,
    #[error("should be a key of 32 hexadecimal digits")]
    CmacKey,
    /// An entry for a register.
    #[error("should be \"apply CLIENT SEQUENCE CODE KEY VALUE\"")]
    Entry,
    /// An entry for a counter.
    #[error("should be \"certify KIND NUMBER VALUE BYTES\", \"value NUMBER\" or \"check KIND SEAT NUMBER NEW OLD BYTES TAG\"")]
    CounterEntry,
    /// An entry for mail.
    #[error("should be \"read BYTES\"")]
    MailEntry,
    /// An entry for a group.
    #[error("should be other, used, ask, take, vote, carry, mark, suspect, open, show, certify, deliver or pump")]
    GroupEntry,
    /// The length of the buffer that is written.
    #[error("should be \"out LENGTH\", or not be there")]
    Out,
    /// The length of the buffer that a state is written into.
    #[error("should be \"scratch LENGTH\", or not be there")]
    Scratch,
    /// One of the two lengths.
    #[error("should be \"out LENGTH\" or \"scratch LENGTH\", or not be there")]
    Length,
    /// A kind of certificates.
    #[error("should be a kind of certificates: continuing or independent")]
    Kind,
    #[error("should be a number from 0 to 4294967295")]
    Number,
    #[error("should be a number from 0 to 18446744073709551615")]
    Long,
    #[error("should be bytes in hexadecimal, - for none, or @LINE for those that a line wrote")]
    Bytes,
    #[error("should not be there: the line ends before it")]
    EndOfLine,
}

/// Why a line cannot be read: the place of a word, from 1, and what should stand there. The place behind the last word
/// is meant where the line ends too early.
#[derive(Clone, Copy, PartialEq, Eq, Debug, Error)]
#[error("word {word} {expected}")]
pub struct Fault {
    pub word: u32,
    pub expected: Expected,
}
