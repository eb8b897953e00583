// What a replica gathers from VIEW-CHANGEs: what was known of the last view, and what is proposed again.
#![tactic(auto)]

mod choice;
mod gathering;
mod marks;
mod new_views;
mod proposals;

pub use choice::keep_lowest;
pub use gathering::in_turn;
pub use marks::{highest_from, highest_low};
pub use new_views::foundation;
pub use proposals::{Untagged, proposed_again, same_proposals};
