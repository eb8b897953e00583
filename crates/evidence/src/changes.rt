// When a VIEW-CHANGE is complete, and in what order senders come.
ghost use Rattle.std.specs.Prelude.{◌≡◌, ◌==◌, map};
ghost use Rattle.std.specs.List.{list_all};
ghost use Rattle.parts.specs.Messages.{Checkpoint};
ghost use Rattle.message.specs.Messages.{ViewChange};
ghost use Rattle.protocol.specs.Changes.{last_of, follow, ascend, one_digest, proves, shows_votes, complete};

use message::{Checkpoints, Prepares, ViewChange, ViewChanges};
use terms::{CHECKPOINT_INTERVAL, GroupSize, Order, View, pair, pair_order, pair_view};

/// Whether a VIEW-CHANGE tells all that it owes, in a group.
pub fn complete(change: &ViewChange, group: GroupSize) -> bool
    ensures { result ≡ complete group.seats change.now }
{
    change.previous < pair(change.target, Order(0))
        && change.from < change.target
        && change.low.0 % CHECKPOINT_INTERVAL == 0
        && proves(&change.proof, change.low, group)
        && follow(&change.entries, change.from, change.low)
        && shows_votes(change)
}

/// The order of the last PREPARE in a VIEW-CHANGE, or its low mark if there is none.
pub fn last_of(change: &ViewChange) -> Order
    ensures { result.0 ≡ last_of change.now }
{
    let mut last = change.low;
    for prepare in change.entries.iter() {
        last = prepare.order;
    }
    last
}

/// Whether VIEW-CHANGEs come by ascending senders.
pub fn changes_ascend(changes: &ViewChanges) -> bool
    ensures { result ≡ ascend 0 (map (λ (c : ViewChange). c.sender) changes.now) }
{
    let mut least = 0;
    for change in changes.iter() {
        let sender = u64::from(change.sender);
        if sender < least {
            return false;
        }
        least = sender + 1;
    }
    true
}

// Whether CHECKPOINTs come by ascending senders.
fn checkpoints_ascend(checkpoints: &Checkpoints) -> bool
    ensures { result ≡ ascend 0 (map (λ (c : Checkpoint). c.sender) checkpoints.now) }
{
    let mut least = 0;
    for checkpoint in checkpoints.iter() {
        let sender = u64::from(checkpoint.sender);
        if sender < least {
            return false;
        }
        least = sender + 1;
    }
    true
}

// Whether CHECKPOINTs have one digest.
fn one_digest(checkpoints: &Checkpoints) -> bool
    ensures { result ≡ one_digest checkpoints.now }
{
    let mut others = checkpoints.iter();
    let Some(first) = others.next() else {
        return true;
    };
    others.all(|other| first.digest == other.digest)
}

// Whether CHECKPOINTs are all of one order.
fn all_of_order(checkpoints: &Checkpoints, order: Order) -> bool
    ensures { result ≡ list_all (λ (c : Checkpoint). c.order == order.0) checkpoints.now }
{
    checkpoints
        .iter()
        .all(|checkpoint| checkpoint.order == order)
}

// Whether CHECKPOINTs prove a low mark in a group.
fn proves(checkpoints: &Checkpoints, low: Order, group: GroupSize) -> bool
    ensures { result ≡ proves group.seats low.0 checkpoints.now }
{
    if low == Order(0) {
        return checkpoints.len() == 0;
    }
    checkpoints.len() == group.quorum() as usize
        && all_of_order(checkpoints, low)
        && one_digest(checkpoints)
        && checkpoints_ascend(checkpoints)
}

// Whether PREPAREs are of a view, and for the orders from a low mark on without a gap.
fn follow(prepares: &Prepares, view: View, low: Order) -> bool
    ensures { result ≡ follow view.0 low.0 prepares.now }
{
    let mut next = u64::from(low.0) + 1;
    for prepare in prepares.iter() {
        let order = u64::from(prepare.order.0);
        if prepare.view != view || order != next {
            return false;
        }
        next = order + 1;
    }
    true
}

// Whether a vote that the previous value shows is not left out.
fn shows_votes(change: &ViewChange) -> bool
    ensures { result ≡ shows_votes change.now }
{
    let voted = pair_order(change.previous);
    let view = pair_view(change.previous);
    voted == Order(0) || (view <= change.from && (change.from != view || voted <= last_of(change)))
}
