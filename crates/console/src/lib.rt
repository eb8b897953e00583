// What the programs share: all of an input, and how a run that ended is told.
#![tactic(auto)]

mod inputs;
mod outcomes;

pub use inputs::read_all;
pub use outcomes::told;
