// The five messages before they are tagged, and how they are written into a lent buffer.
#![tactic(auto)]

mod changes;
mod checkpoint;
mod commit;
mod draft;
mod fields;
mod lists;
mod new_view;
mod prepare;
mod tagged;
mod view_change;

pub use checkpoint::CheckpointDraft;
pub use commit::CommitDraft;
pub use draft::{Draft, write, write_untagged};
pub use new_view::NewViewDraft;
pub use prepare::PrepareDraft;
pub use tagged::Tagged;
pub use view_change::ViewChangeDraft;
