// The rules of the replica as definitions (in `specs/`), and what is proved of them: after every run of a group its
// correct replicas agree.
#![tactic(auto)]

mod promises;
mod witnesses;

pub use promises::{
    answers_tell, group_agrees, later_views_bring, low_marks_tell, refusals_leave_all,
};
pub use witnesses::runs_there_are;
