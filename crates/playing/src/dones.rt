// Calls that were made, as the lines of a record tell them.
use super::letters::Letter;
use super::records::Refused;
use cluster::{Answer, Call};
use std::fmt;
use terms::Refusal;
use texts::Hex;

/// A call on the replica, or on the counter, at a seat, and how it ended.
#[derive(Drop)]
pub struct Done {
    /// The word by which a script asks for the call.
    pub word: &'static str,
    pub seat: u32,
    pub outcome: Result<Answer, Refusal>,
    /// The message that the call wrote, or the tag that the counter gave. Neither is empty.
    pub bytes: Vec<u8>,
}

impl Done {
    /// What the call wrote, if it wrote something.
    pub fn letter(self) -> Option<Letter> {
        let Done { seat, bytes, .. } = self;
        if bytes.is_empty() {
            return None;
        }
        Some(Letter { seat, bytes })
    }
}

impl fmt::Display for Done {
    fn fmt<W: fmt::Write>(&self, f: &mut fmt::Formatter<W>) -> fmt::Result {
        let word = self.word;
        let seat = self.seat;
        let bytes = Hex(self.bytes.as_slice());
        write!(f, "{word} {seat} ")?;
        match self.outcome {
            Ok(Answer::Ordered(order, _)) => write!(f, "order {order} bytes {bytes}"),
            Ok(Answer::Viewed(view, _)) => write!(f, "view {view} bytes {bytes}"),
            Ok(Answer::Took(number)) => write!(f, "type {number}"),
            Ok(Answer::CarriedOut(order, (status, value))) => {
                write!(f, "order {order} status {status} value {value}")
            }
            Ok(Answer::Certified(_)) => write!(f, "tag {bytes}"),
            Err(refusal) => write!(f, "{}", Refused(refusal)),
        }
    }
}

/// The word by which a script asks for a call.
pub fn word_of(call: &Call) -> &'static str {
    match call {
        Call::Ask(_) => "ask",
        Call::Take(_) => "take",
        Call::Vote => "vote",
        Call::CarryOut => "carry",
        Call::Mark => "mark",
        Call::Suspect => "suspect",
        Call::Open => "open",
    }
}
