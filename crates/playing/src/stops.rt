// The ways in which a run ends early, each with its sentence.
use script::Fault;
use std::alloc::AllocError;
use std::io;
use terms::Refusal;
use thiserror::Error;

/// Why a run ended early. What it printed before stays printed.
#[derive(Debug, Drop, Error)]
pub enum Stop {
    #[error("expected at most one argument, the script's path")]
    Arguments,
    /// The script's bytes cannot be had.
    #[error("cannot read the script: {0}")]
    Unread(io::Error),
    /// A line, by its number, means nothing.
    #[error("line {0}: {1}")]
    Line(u64, Fault),
    /// What the header on a line, by its number, asks for cannot be made.
    #[error("line {0}: {1}")]
    Refused(u64, Refusal),
    /// An entry on a line names the bytes that another line wrote, and there are none.
    #[error("line {0}: line {1} wrote no bytes")]
    NothingWritten(u64, u64),
    /// An entry on a line names a seat that has no replica.
    #[error("line {0}: no replica at seat {1}")]
    NoReplica(u64, u32),
    /// An entry on a line takes a seat for one in other hands.
    #[error("line {0}: seat {1} is not in other hands")]
    NotInOtherHands(u64, u32),
    /// An entry on a line says how a seat begins, and a call was made already.
    #[error("line {0}: other and used stand before the first call")]
    Begun(u64),
    /// The replicas still move behind the most rounds that there can be.
    #[error("line {0}: the replicas do not come to rest")]
    Restless(u64),
    #[error("cannot print the record: {0}")]
    Unprinted(#[from] io::Error),
    #[error("out of memory")]
    Memory(#[from(alloc)] AllocError),
}
