// The ways in which the program ends early, and what may be wrong with a line.
use std::alloc::AllocError;
use std::io;
use thiserror::Error;

/// The ways in which the program ends early, and what may be wrong with a line.
#[derive(Debug, Drop, Error)]
pub enum Stop {
    /// A line, by its number, is at fault.
    #[error("line {0} {1}")]
    Line(u64, Fault),
    #[error("cannot read or print: {0}")]
    Io(#[from] io::Error),
    #[error("out of memory")]
    Memory(#[from(alloc)] AllocError),
}

/// What is wrong with a line.
#[derive(Clone, Copy, PartialEq, Eq, Debug, Error)]
pub enum Fault {
    #[error("cannot be read")]
    Unread,
    #[error("gives another result than the published one")]
    Differs,
}

/// Why a line is not run to its end. It is kept apart from a `Stop`, which is wide, so that a line of which nothing is
/// to be said costs little.
#[derive(Debug, Drop, Error)]
pub enum LineStop {
    #[error("{0}")]
    Fault(#[from] Fault),
    #[error("out of memory")]
    Memory(#[from(alloc)] AllocError),
}

impl LineStop {
    /// What it means for the program, at a line of this number.
    pub fn at(self, number: u64) -> Stop {
        match self {
            LineStop::Fault(fault) => Stop::Line(number, fault),
            LineStop::Memory(error) => Stop::Memory(error),
        }
    }
}
