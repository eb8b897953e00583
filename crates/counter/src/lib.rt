// What a trusted counter means, for every crate that uses one: kinds of certificates, statements, checkers, counters
// and seats.
#![tactic(auto)]

mod contract;
mod kinds;
mod seats;
mod statements;

pub use contract::{COUNTERS, Checker, Counter};
pub use kinds::Kind;
pub use seats::Seat;
pub use statements::{HEAD_BYTES, Statement};
