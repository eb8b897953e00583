// PREPARE, COMMIT and CHECKPOINT as parts of delivered bytes, and what every kind of message is made of.
#![tactic(auto)]

mod checkpoint;
mod commit;
mod delivered;
mod fields;
mod nested;
mod prepare;

pub use checkpoint::{Checkpoint, CheckpointIter, Checkpoints};
pub use commit::Commit;
pub use delivered::{Delivered, before, read_whole, split_type, untagged};
pub use fields::{
    CHECKPOINT, CHECKPOINT_COUNTER, COMMIT, NEW_VIEW, ORDER_COUNTER, PREPARE, VIEW_CHANGE,
    VIEW_COUNTER,
};
pub use nested::Nested;
pub use prepare::{Prepare, PrepareIter, Prepares};
