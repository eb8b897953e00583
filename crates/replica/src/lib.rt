// The replica: seven calls, each of which comes to what the rules say, for any trusted counter and any service.
#![tactic(auto)]

mod accepting;
mod ask;
mod carry_out;
mod issuing;
mod mark;
mod open;
mod reading;
mod replica;
mod settling;
mod signing;
mod standing;
mod suspect;
mod take;
mod vote;

pub use holdings::{Entry, Noted};
pub use replica::Replica;
pub use standing::{Role, Standing};
