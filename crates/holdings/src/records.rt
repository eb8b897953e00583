// The record: the proposals of one view above the low mark, each with the votes for it.
ghost use Rattle.std.specs.Prelude.{◌≡◌, ◌+◌, ◌≤◌, true, IfSome, [], ◌∷◌, ◌++◌, ◌==◌, length, map, filter, find, nat_lt};
ghost use Rattle.std.specs.Option.{option_map};
ghost use Rattle.terms.specs.Numbers.{window};
ghost use Rattle.drafts.specs.Says.{kept_prepare};
ghost use Rattle.protocol.specs.Changes.{last_order};
ghost use Rattle.protocol.specs.Standing.{entry_at, vote_added, with_vote_of, without_votes, proposals};
ghost use Rattle.holdings.specs.Kept.{kept_entry, kept_entries, voted};
ghost use Rattle.holdings.specs.Recorded.{ascends};

use super::entries::{Entry, Proposals};
use super::rooms::MOST_ENTRIES;
use arrayvec::ArrayVec;
use drafts::{PrepareDraft, Tagged};
use std::marker::Model;
use terms::{Order, View};

/// The view of the proposals, the low mark, and the proposals above it, the lowest order first.
#[derive(Drop)]
pub struct Record {
    from: View,
    low: Order,
    entries: ArrayVec<Entry, { MOST_ENTRIES }>,
}

impl Model for Record {
    ghost use Rattle.std.specs.Prelude.{◌≡◌, true};
    ghost use Rattle.protocol.specs.Standing.{proposals};
    ghost use Rattle.holdings.specs.Kept.{kept_entries};
    ghost use Rattle.holdings.specs.Recorded.{Recorded, ascends};

    ghost Value = { Recorded };

    ghost view = { λ r. record { from = r.from.0; low = r.low.0; entries = kept_entries r.entries.items } };

    ghost invariant = { λ r. ascends r.low.0 (proposals (kept_entries r.entries.items)) ≡ true };
}

impl Record {
    /// The record of view 0 at low mark 0, without proposals.
    pub fn new() -> Record
        ensures { result ≡ record { from = 0; low = 0; entries = [] } }
    {
        Record {
            from: View(0),
            low: Order(0),
            entries: ArrayVec::new(),
        }
    }

    /// The view of the proposals.
    pub fn from(&self) -> View
        ensures { result.0 ≡ self.now.from }
    {
        self.from
    }

    /// The low mark.
    pub fn low(&self) -> Order
        ensures { result.0 ≡ self.now.low }
    {
        self.low
    }

    /// The entries, the lowest order first.
    pub fn entries(&self) -> &[Entry]
        ensures { kept_entries result.now ≡ self.now.entries }
    {
        self.entries.as_slice()
    }

    /// The order of the last entry, or the low mark if there is none.
    pub fn end(&self) -> Order
        ensures { result.0 ≡ last_order self.now.low (proposals self.now.entries) }
    {
        end_of(self.low, self.entries.as_slice())
    }

    /// The entry of a number, if that is an order which has one.
    pub fn entry_at(&self, order: u64) -> Option<Entry>
        ensures value { option_map kept_entry result ≡ entry_at order self.now.entries }
        ensures order { IfSome result (λ e. e.proposal.draft.order.0 ≡ order) }
    {
        of_order(self.entries.as_slice(), order)
    }

    /// The first entry above an order.
    pub fn first_above(&self, order: u32) -> Option<Entry>
        ensures { option_map kept_entry result ≡ find (λ e. nat_lt order e.proposal.order) self.now.entries }
    {
        first_above(self.entries.as_slice(), Order(order))
    }

    /// Adds a proposal behind the last one, with the vote of one seat.
    #[tactic(auto, using(crate::proofs::Ascending::room_for_one, crate::proofs::Ascending::ascends_next, crate::proofs::Ascending::kept_more))]
    pub fn push(&mut self, seat: u32, proposal: Tagged<PrepareDraft>)
        requires next { proposal.draft.order.0 ≡ last_order self.old.low (proposals self.old.entries) + 1 }
        requires room { proposal.draft.order.0 ≤ self.old.low + window }
        ensures { self.new ≡ record self.old { entries = self.old.entries ++ with_vote_of seat (kept_prepare proposal) ∷ [] } }
    {
        self.entries.push(Entry::with_vote_of(seat, proposal));
    }

    /// Adds the vote of a seat for an order.
    pub fn add_vote(&mut self, seat: u32, order: Order)
        ensures { self.new ≡ record self.old { entries = vote_added seat order.0 self.old.entries } }
    {
        add_vote(self.entries.as_mut_slice(), seat, order);
    }

    /// Moves the low mark. Entries up to it fall away.
    pub fn lower(&mut self, order: Order)
        ensures { self.new ≡ record self.old { low = order.0; entries = filter (λ e. nat_lt order.0 e.proposal.order) self.old.entries } }
    {
        self.low = order;
        drop_up_to(&mut self.entries, order);
    }

    /// The proposals without their votes.
    #[tactic(auto, using(crate::proofs::Finding::proposals_kept))]
    pub fn proposals(&self) -> Proposals
        ensures value { map kept_prepare result.items ≡ proposals self.now.entries }
        ensures in_line { ascends self.now.low (map kept_prepare result.items) ≡ true }
    {
        proposals_of(self.entries.as_slice())
    }

    /// Takes the proposals of a view, without votes.
    #[tactic(auto, using(crate::proofs::Ascending::unvoted_proposals))]
    pub fn unvoted(&mut self, from: View, list: &Proposals)
        requires { ascends self.old.low (map kept_prepare list.now.items) ≡ true }
        ensures { self.new ≡ record self.old { from = from.0; entries = map without_votes (map kept_prepare list.now.items) } }
    {
        self.from = from;
        self.entries = without_votes(list.as_slice());
    }

    /// Takes the proposals of a view that are above the low mark, with the vote of its leader.
    pub fn supported(&mut self, from: View, leader: u32, list: &Proposals)
        requires { ascends 0 (map kept_prepare list.now.items) ≡ true }
        ensures { self.new ≡ record self.old { from = from.0; entries = map (with_vote_of leader) (filter (λ p. nat_lt self.old.low p.order) (map kept_prepare list.now.items)) } }
    {
        self.from = from;
        self.entries = with_votes_of(leader, list.as_slice());
        drop_up_to(&mut self.entries, self.low);
    }
}

// The order of the last entry, or the low mark if there is none.
#[tactic(auto, using(crate::proofs::Ascending::last_is))]
fn end_of(low: Order, entries: &[Entry]) -> Order
    ensures { result.0 ≡ last_order low.0 (proposals (kept_entries entries.now)) }
{
    match entries.last() {
        Some(entry) => entry.order(),
        None => low,
    }
}

// The entry of a number, if that is an order which has one.
fn of_order(entries: &[Entry], order: u64) -> Option<Entry>
    ensures value { result ≡ find (λ e. e.proposal.draft.order.0 == order) entries.now }
    ensures order { IfSome result (λ e. e.proposal.draft.order.0 ≡ order) }
{
    entries
        .iter()
        .copied()
        .find(|entry| u64::from(entry.order().0) == order)
}

// The first entry above an order.
fn first_above(entries: &[Entry], order: Order) -> Option<Entry>
    ensures { result ≡ find (λ e. nat_lt order.0 e.proposal.draft.order.0) entries.now }
{
    entries.iter().copied().find(|entry| entry.is_above(order))
}

// Adds the vote of a seat for an order.
fn add_vote(entries: &mut [Entry], seat: u32, order: Order)
    ensures { entries.new ≡ map (voted seat order.0) entries.old }
{
    for entry in entries {
        entry.add_vote_for(order, seat);
    }
}

// Keeps the entries above an order.
fn drop_up_to(entries: &mut ArrayVec<Entry, { MOST_ENTRIES }>, order: Order)
    ensures { kept_entries entries.new.items ≡ filter (λ e. nat_lt order.0 e.proposal.order) (kept_entries entries.old.items) }
{
    entries.retain(|entry| entry.is_above(order));
}

// The proposals of entries.
fn proposals_of(entries: &[Entry]) -> Proposals
    requires few { length entries.now ≤ window }
    ensures { map kept_prepare result.items ≡ map (λ e. kept_prepare e.proposal) entries.now }
{
    let mut list = ArrayVec::new();
    for entry in entries {
        list.push(entry.proposal);
    }
    list
}

// Entries of proposals, without votes.
fn without_votes(list: &[Tagged<PrepareDraft>]) -> ArrayVec<Entry, { MOST_ENTRIES }>
    requires few { length list.now ≤ window }
    ensures { kept_entries result.items ≡ map without_votes (map kept_prepare list.now) }
{
    let mut entries = ArrayVec::new();
    for proposal in list {
        entries.push(Entry::without_votes(*proposal));
    }
    entries
}

// Entries of proposals, with the vote of one seat.
fn with_votes_of(seat: u32, list: &[Tagged<PrepareDraft>]) -> ArrayVec<Entry, { MOST_ENTRIES }>
    requires few { length list.now ≤ window }
    ensures { kept_entries result.items ≡ map (with_vote_of seat) (map kept_prepare list.now) }
{
    let mut entries = ArrayVec::new();
    for proposal in list {
        entries.push(Entry::with_vote_of(seat, *proposal));
    }
    entries
}
