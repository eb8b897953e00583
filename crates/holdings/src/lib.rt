// What a replica holds of orders, of views and of seats, in room that is there from the start.
#![tactic(auto)]

mod changes;
mod checkpoints;
mod entries;
mod noted;
mod records;
mod rooms;

pub use changes::Suspicions;
pub use checkpoints::{Claim, Claims, Proof};
pub use entries::{Entry, Proposals};
pub use noted::{Noted, Notes};
pub use records::Record;
pub use rooms::{MOST_ENTRIES, MOST_NOTES, MOST_PROOFS, SEATS};
