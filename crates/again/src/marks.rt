// The highest low mark and the highest from view that VIEW-CHANGEs tell.
ghost use Rattle.std.specs.Prelude.{◌≡◌};
ghost use Rattle.protocol.specs.Changes.{highest_low, highest_from};
ghost use Rattle.protocol.specs.Standing.{held};

use message::ViewChange;
use terms::{Order, View};

/// The highest low mark, or 0 where there are no VIEW-CHANGEs.
#[tactic(auto, using(crate::proofs::Lists::next_place))]
pub fn highest_low(changes: &[Option<ViewChange<'_>>]) -> Order
    ensures { result.0 ≡ highest_low (held changes.now) }
{
    let mut highest = 0;
    for place in changes {
        let Some(change) = place else {
            continue;
        };
        highest = change.low.0.max(highest);
    }
    Order(highest)
}

/// The highest view of entries, or 0 where there are no VIEW-CHANGEs.
#[tactic(auto, using(crate::proofs::Lists::next_place))]
pub fn highest_from(changes: &[Option<ViewChange<'_>>]) -> View
    ensures { result.0 ≡ highest_from (held changes.now) }
{
    let mut highest = 0;
    for place in changes {
        let Some(change) = place else {
            continue;
        };
        highest = change.from.0.max(highest);
    }
    View(highest)
}
