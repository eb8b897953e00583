// Why a request is not carried out, and the replies that say so.
ghost use Rattle.std.specs.Prelude.{◌≡◌};
ghost use Rattle.service.specs.Failures.{failure_status, failure_reply, outcome_reply};

use thiserror::Error;

/// Why a service does not carry a request out. The number of each is the status of its reply.
#[derive(Clone, Copy, PartialEq, Eq, Debug, Error)]
pub enum Failure {
    /// The service has no such code, or does not take the value.
    #[error("no such code, or the value is too large")]
    NotTaken = 1,
    /// What is asked for is not there, there is no place for it, or it would not rise.
    #[error("unknown, no place left, or not above")]
    NotAvailable = 2,
    /// Sessions serve no such client.
    #[error("no such client")]
    NoSuchClient = 3,
    /// The client's sequence is 0, or below its last.
    #[error("an old sequence, or 0")]
    OldSequence = 4,
}

impl Failure {
    /// All failures, by ascending status.
    pub const ALL: [Failure; 4] = [
        Failure::NotTaken,
        Failure::NotAvailable,
        Failure::NoSuchClient,
        Failure::OldSequence,
    ];

    /// The status of a reply that says so.
    pub fn status(self) -> u32
        ensures { result ≡ failure_status self }
    {
        self as u32
    }
}

impl From<Failure> for (u32, u32) {
    ghost from_gives = { λ failure reply. reply ≡ failure_reply failure };

    fn from(failure: Failure) -> (u32, u32) {
        (failure.status(), 0)
    }
}

/// The reply of a service in which a request succeeds with a value, or fails.
pub fn reply_of(outcome: Result<u32, Failure>) -> (u32, u32)
    ensures { result ≡ outcome_reply outcome }
{
    match outcome {
        Ok(value) => (0, value),
        Err(failure) => failure.into(),
    }
}
