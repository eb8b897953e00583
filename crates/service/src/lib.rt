// What a register does with requests, and the sessions that stand over any register.
#![tactic(auto)]

mod contract;
mod failures;
mod kept;
mod sessions;

pub use contract::Service;
pub use failures::{Failure, reply_of};
pub use kept::Kept;
pub use sessions::{CLIENTS, Sessions};
