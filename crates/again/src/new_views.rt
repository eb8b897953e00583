// Whether a NEW-VIEW is founded on its VIEW-CHANGEs.
ghost use Rattle.std.specs.Prelude.{◌≡◌, ◌≤◌, ◌==◌, true, IfSome, length, map};
ghost use Rattle.std.specs.List.{list_all};
ghost use Rattle.std.specs.Option.{option_map};
ghost use Rattle.terms.specs.Numbers.{largest_quorum, window};
ghost use Rattle.drafts.specs.Says.{kept_prepare};
ghost use Rattle.protocol.specs.Changes.{ascend};
ghost use Rattle.protocol.specs.Standing.{held};
ghost use Rattle.holdings.specs.Recorded.{ascends};
ghost use Rattle.again.specs.Foundation.{foundation, kept_foundation};

use super::marks::highest_low;
use super::proposals::{proposed_again, same_proposals};
use arrayvec::ArrayVec;
use drafts::Tagged;
use holdings::Proposals;
use message::{NewView, Prepares, ViewChange, ViewChanges};
use std::array;
use terms::{GroupSize, LARGEST_QUORUM, Order, View};

const QUORUM_PLACES: usize = LARGEST_QUORUM as usize;

/// The low and the PREPAREs of a NEW-VIEW, if it is founded: if it shows a quorum of VIEW-CHANGEs by ascending seats for
/// its view, and proposes again just what they ask for.
#[tactic(auto, using(crate::proofs::Founding::few_prepares, crate::proofs::Founding::prepares_ascend))]
pub fn foundation(group: GroupSize, new_view: &NewView<'_>) -> Option<(Order, Proposals)>
    ensures value { option_map kept_foundation result ≡ foundation group.seats new_view.now }
    ensures in_turn { IfSome result (λ f. ascends 0 (map kept_prepare f.1.items) ≡ true) }
{
    if new_view.changes.len() != group.quorum() as usize {
        return None;
    }
    let changes = placed(&new_view.changes);
    let again = proposed_again(new_view.view, &changes);
    if !senders_ascend(&changes)
        || !all_for(new_view.view, &changes)
        || !same_proposals(&new_view.prepares, again.as_slice())
    {
        return None;
    }
    Some((highest_low(&changes), kept(&new_view.prepares)))
}

// PREPAREs with their tags, to keep.
fn kept(prepares: &Prepares<'_>) -> Proposals
    requires { length prepares.now ≤ window }
    ensures { map kept_prepare result.items ≡ prepares.now }
{
    let mut list = ArrayVec::new();
    for prepare in prepares.iter() {
        list.push(Tagged::from(&prepare));
    }
    list
}

// The VIEW-CHANGEs of a NEW-VIEW in places.
fn placed<'a>(changes: &ViewChanges<'a>) -> [Option<ViewChange<'a>>; QUORUM_PLACES]
    requires { length changes.now ≤ largest_quorum }
    ensures { held result ≡ changes.now }
{
    array::from_fn(|place| changes.get(place))
}

// Whether they are of different seats, the lowest seat first.
#[tactic(auto, using(crate::proofs::Lists::next_place))]
fn senders_ascend(changes: &[Option<ViewChange<'_>>]) -> bool
    ensures { result ≡ ascend 0 (map (λ c. c.sender) (held changes.now)) }
{
    let mut bound = 0;
    for place in changes {
        let Some(change) = place else {
            continue;
        };
        let sender = u64::from(change.sender);
        if sender < bound {
            return false;
        }
        bound = sender + 1;
    }
    true
}

// Whether all of them ask for a view.
#[tactic(auto, using(crate::proofs::Lists::next_place))]
fn all_for(view: View, changes: &[Option<ViewChange<'_>>]) -> bool
    ensures { result ≡ list_all (λ c. c.target == view.0) (held changes.now) }
{
    for place in changes {
        let Some(change) = place else {
            continue;
        };
        if change.target != view {
            return false;
        }
    }
    true
}
