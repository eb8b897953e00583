// Every numbered refusal of the group's calls.
ghost use Rattle.std.specs.Prelude.{◌≡◌};
ghost use Rattle.terms.specs.Refusals.{refusal_number};

use thiserror::Error;

/// Why a call stopped. A refused call changes nothing: no replica, no counter, no register and no buffer.
/// Where several would fit, the lowest number is given.
#[derive(Clone, Copy, PartialEq, Eq, Debug, Error)]
pub enum Refusal {
    #[error("a group cannot have this many seats")]
    GroupSize = 1,
    #[error("the group has no such seat")]
    NoSuchSeat = 2,
    #[error("the buffer for the message is too short")]
    OutTooShort = 3,
    #[error("the scratch buffer is too short for the written state")]
    ScratchTooShort = 4,
    #[error("the bytes are no message")]
    NoMessage = 5,
    #[error("the view is closed")]
    ViewClosed = 6,
    #[error("the message is of another view")]
    WrongView = 7,
    #[error("the view is open")]
    ViewOpen = 8,
    #[error("this is for the other role, leader or follower")]
    WrongRole = 9,
    #[error("the message is the replica's own")]
    OwnMessage = 10,
    #[error("a sender has no seat in the group")]
    NoSuchSender = 11,
    #[error("the order number does not fit")]
    WrongOrder = 12,
    #[error("the order number lies beyond the window")]
    BeyondWindow = 13,
    #[error("the numbers are used up")]
    NumbersExhausted = 14,
    #[error("a tag does not match")]
    BadTag = 15,
    #[error("such a message is held already")]
    AlreadyHeld = 16,
    #[error("the vote is for another request")]
    OtherRequest = 17,
    #[error("a VIEW-CHANGE is not complete")]
    IncompleteViewChange = 18,
    #[error("a low mark lies above the replica's own")]
    LowAhead = 19,
    #[error("a VIEW-CHANGE leaves out what was accepted")]
    HistoryMissing = 20,
    #[error("the NEW-VIEW does not follow from a quorum")]
    UnfoundedNewView = 21,
    #[error("there is nothing to do, or no quorum for it")]
    NothingToDo = 22,
    #[error("the counter would refuse the certificate")]
    CounterRefuses = 23,
    #[error("there is no counter of this number")]
    NoSuchCounter = 24,
    #[error("the counter does not allow this value")]
    ValueNotAllowed = 25,
}

impl Refusal {
    /// The refusal's number, by which every document and record names it.
    pub fn number(self) -> u32
        ensures { result ≡ refusal_number self }
    {
        self as u32
    }
}
