// The PREPAREs that are known above a low mark, of each order the first one.
ghost use Rattle.std.specs.Prelude.{◌≡◌, ◌≤◌, ◌==◌, ◌++◌, map, find};
ghost use Rattle.std.specs.Option.{option_map};
ghost use Rattle.terms.specs.Numbers.{window};
ghost use Rattle.drafts.specs.Says.{kept_prepare};
ghost use Rattle.protocol.specs.Again.{in_turn, prepare_at, entries_from};
ghost use Rattle.protocol.specs.Standing.{held};

use arrayvec::ArrayVec;
use drafts::{PrepareDraft, Tagged};
use holdings::Proposals;
use message::ViewChange;
use terms::{Order, View, WINDOW};

/// The PREPAREs for low + 1 onward without a gap: of each order the first one among a replica's own and the entries of
/// one from view in VIEW-CHANGEs, up to the first order that has none.
pub fn in_turn(
    low: Order,
    own: &[Tagged<PrepareDraft>],
    from: View,
    changes: &[Option<ViewChange<'_>>],
) -> Proposals
    ensures { map kept_prepare result.items ≡ in_turn window low.0 (map kept_prepare own.now ++ entries_from from.0 (held changes.now)) }
{
    at_most_in_turn(WINDOW, low, own, from, changes)
}

// At most so many of them.
#[tactic(auto, using(crate::proofs::Turns::turns))]
fn at_most_in_turn(
    most: u32,
    low: Order,
    own: &[Tagged<PrepareDraft>],
    from: View,
    changes: &[Option<ViewChange<'_>>],
) -> Proposals
    requires { most ≤ window }
    ensures { map kept_prepare result.items ≡ in_turn most low.0 (map kept_prepare own.now ++ entries_from from.0 (held changes.now)) }
{
    let mut prepares = ArrayVec::new();
    for behind in 0..most {
        let order = u64::from(low.0) + u64::from(behind) + 1;
        let Some(prepare) = prepare_at(order, own, from, changes) else {
            return prepares;
        };
        prepares.push(prepare);
    }
    prepares
}

// The first PREPARE of an order.
#[tactic(auto, using(crate::proofs::Finding::own_first))]
fn prepare_at(
    order: u64,
    own: &[Tagged<PrepareDraft>],
    from: View,
    changes: &[Option<ViewChange<'_>>],
) -> Option<Tagged<PrepareDraft>>
    ensures { option_map kept_prepare result ≡ prepare_at order (map kept_prepare own.now ++ entries_from from.0 (held changes.now)) }
{
    if let Some(prepare) = own_at(order, own) {
        return Some(prepare);
    }
    told_at(order, from, changes)
}

// The first one of a replica's own.
fn own_at(order: u64, own: &[Tagged<PrepareDraft>]) -> Option<Tagged<PrepareDraft>>
    ensures { result ≡ find (λ t. t.draft.order.0 == order) own.now }
{
    own.iter()
        .copied()
        .find(|prepare| u64::from(prepare.draft.order.0) == order)
}

// The first one that VIEW-CHANGEs of one from view tell.
#[tactic(auto, using(crate::proofs::Lists::next_place, crate::proofs::Finding::told))]
fn told_at(
    order: u64,
    from: View,
    changes: &[Option<ViewChange<'_>>],
) -> Option<Tagged<PrepareDraft>>
    ensures { option_map kept_prepare result ≡ prepare_at order (entries_from from.0 (held changes.now)) }
{
    for place in changes {
        let Some(change) = place else {
            continue;
        };
        if change.from != from {
            continue;
        }
        if let Some(prepare) = entry_at(order, change) {
            return Some(prepare);
        }
    }
    None
}

// The first one among the entries of a VIEW-CHANGE.
#[tactic(auto, using(crate::proofs::Finding::found, crate::proofs::Lists::next_item))]
fn entry_at(order: u64, change: &ViewChange<'_>) -> Option<Tagged<PrepareDraft>>
    ensures { option_map kept_prepare result ≡ prepare_at order change.now.entries }
{
    for place in 0..change.entries.len() {
        let entry = change.entries.get(place)?;
        if u64::from(entry.order.0) == order {
            return Some(Tagged::from(&entry));
        }
    }
    None
}
