// The ways in which a timing ends early, each with its sentence.
use std::alloc::AllocError;
use std::io;
use terms::Refusal;
use thiserror::Error;

/// The ways in which a timing ends early, each with its sentence.
#[derive(Debug, Drop, Error)]
pub enum Stop {
    /// The arguments are none of those that are understood.
    #[error("expected no arguments, or sha256, hmac, cmac or cmac-tags and a count, or requests, hmac or cmac, seats and a count")]
    Arguments,
    /// A call that orders a request was refused.
    #[error("a call was refused: {0}")]
    Refused(#[from] Refusal),
    /// A request was carried out, and its reply was not the one for success.
    #[error("a request came back with status {0}")]
    Status(u32),
    #[error("cannot read the clock or print: {0}")]
    Io(#[from] io::Error),
    #[error("out of memory")]
    Memory(#[from(alloc)] AllocError),
}
