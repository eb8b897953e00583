// What a message has to show before it is believed: its tags, its senders, and that a VIEW-CHANGE in it is complete.
#![tactic(auto)]

mod changes;
mod evident;
mod lists;

pub use changes::{changes_ascend, complete, last_of};
pub use evident::Evident;
