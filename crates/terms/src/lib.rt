// The words that every other crate shares: the group and its numbers, views and orders, requests and refusals.
#![tactic(auto)]

mod constants;
mod pairs;
mod refusals;
mod requests;
mod sizes;

pub use constants::{
    CHECKPOINT_BYTES, CHECKPOINT_INTERVAL, COMMIT_BYTES, DIGEST_BYTES, LARGEST_GROUP,
    LARGEST_QUORUM, LONGEST_NEW_VIEW, LONGEST_VIEW_CHANGE, Limits, NOTED_VIEWS, OUT_BYTES,
    PREPARE_BYTES, REQUEST_BYTES, SHORTEST_NEW_VIEW, SHORTEST_VIEW_CHANGE, SMALLEST_GROUP,
    TAG_BYTES, WINDOW, limits_in_force,
};
pub use pairs::{Order, View, pair, pair_order, pair_view};
pub use refusals::Refusal;
pub use requests::Request;
pub use sizes::GroupSize;
