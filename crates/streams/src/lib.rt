// Messages that come in parts: what takes them in, and what it gives at the end.
#![tactic(auto)]

mod contract;

pub use contract::Stream;
