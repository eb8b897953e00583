// Entries of the record: proposals, each with the votes for it.
ghost use Rattle.std.specs.Prelude.{◌≡◌, nat_lt};
ghost use Rattle.drafts.specs.Says.{kept_prepare};
ghost use Rattle.protocol.specs.Standing.{has_vote, vote_count, with_vote, with_vote_of, without_votes};
ghost use Rattle.holdings.specs.Kept.{kept_entry, voted};

use super::rooms::{MOST_ENTRIES, SEATS};
use arrayvec::ArrayVec;
use drafts::{PrepareDraft, Tagged};
use terms::Order;

/// A proposal, and for each seat whether its vote is held.
#[derive(Clone, Copy, PartialEq, Eq, Debug, Default)]
pub struct Entry {
    pub proposal: Tagged<PrepareDraft>,
    votes: [bool; SEATS],
}

/// Proposals, the lowest order first: a window of them.
pub type Proposals = ArrayVec<Tagged<PrepareDraft>, { MOST_ENTRIES }>;

impl Entry {
    /// A proposal with the vote of one seat.
    pub fn with_vote_of(seat: u32, proposal: Tagged<PrepareDraft>) -> Entry
        ensures { kept_entry result ≡ with_vote_of seat (kept_prepare proposal) }
    {
        let mut entry = Entry::without_votes(proposal);
        entry.add_vote(seat);
        entry
    }

    /// A proposal without votes.
    pub fn without_votes(proposal: Tagged<PrepareDraft>) -> Entry
        ensures { kept_entry result ≡ without_votes (kept_prepare proposal) }
    {
        Entry {
            proposal,
            votes: [false; SEATS],
        }
    }

    /// The order of the proposal.
    pub fn order(&self) -> Order
        ensures { result ≡ self.now.proposal.draft.order }
    {
        self.proposal.draft.order
    }

    /// Whether the proposal is above an order.
    pub fn is_above(&self, order: Order) -> bool
        ensures { result ≡ nat_lt order.0 self.now.proposal.draft.order.0 }
    {
        self.order() > order
    }

    /// Whether the vote of a seat is held.
    pub fn has_vote(&self, seat: u32) -> bool
        ensures { result ≡ has_vote seat (kept_entry self.now) }
    {
        self.votes.get(seat as usize).copied().unwrap_or(false)
    }

    /// How many votes are held.
    pub fn vote_count(&self) -> usize
        ensures { result ≡ vote_count (kept_entry self.now) }
    {
        self.votes.iter().filter(|vote| **vote).count()
    }

    // Adds the vote of a seat if it is for the order of the proposal.
    pub(crate) fn add_vote_for(&mut self, order: Order, seat: u32)
        ensures { self.new ≡ voted seat order.0 self.old }
    {
        if self.order() == order {
            self.add_vote(seat);
        }
    }

    // Adds the vote of a seat.
    fn add_vote(&mut self, seat: u32)
        ensures proposal { self.new.proposal ≡ self.old.proposal }
        ensures votes { self.new.votes ≡ with_vote seat self.old.votes }
    {
        let seat = seat as usize;
        if seat < SEATS {
            self.votes[seat] = true;
        }
    }
}
