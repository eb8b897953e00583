// A group in one process: real replicas at the seats that keep to the rules, and bare counters at the others.
#![tactic(auto)]

mod cluster;
mod entries;
mod members;

pub use cluster::Cluster;
pub use entries::{Answer, Call, Entry};
pub use members::Member;
