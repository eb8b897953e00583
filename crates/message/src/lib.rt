// VIEW-CHANGE, NEW-VIEW and any message, as parts of delivered bytes.
#![tactic(auto)]

mod message;
mod new_view;
mod view_change;

pub use message::Message;
pub use new_view::NewView;
pub use parts::{
    CHECKPOINT_COUNTER, Checkpoint, CheckpointIter, Checkpoints, Commit, Delivered, ORDER_COUNTER,
    Prepare, PrepareIter, Prepares, VIEW_COUNTER,
};
pub use view_change::{ViewChange, ViewChangeIter, ViewChanges};
