// How much room there is for each kind of thing that a replica holds.
use terms::{LARGEST_GROUP, LARGEST_QUORUM, NOTED_VIEWS, WINDOW};

/// A place for each seat.
pub const SEATS: usize = LARGEST_GROUP as usize;
/// Entries of the record: a window of them.
pub const MOST_ENTRIES: usize = WINDOW as usize;
/// CHECKPOINTs that prove a low mark: a quorum of them.
pub const MOST_PROOFS: usize = LARGEST_QUORUM as usize;
/// Accepted views.
pub const MOST_NOTES: usize = NOTED_VIEWS as usize;
