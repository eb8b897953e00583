// Which VIEW-CHANGEs a NEW-VIEW shows: those of the lowest seats.
ghost use Rattle.std.specs.Prelude.{◌≡◌, take};
ghost use Rattle.protocol.specs.Standing.{held};

use message::ViewChange;

/// Keeps the first so many VIEW-CHANGEs, and empties the places behind them.
#[tactic(auto, using(crate::proofs::Choosing::choosing))]
pub fn keep_lowest(changes: &mut [Option<ViewChange<'_>>], most: u32)
    ensures { held changes.new ≡ take most (held changes.old) }
{
    let mut kept = 0;
    for place in changes.iter_mut() {
        if place.is_none() {
            continue;
        }
        if kept < most {
            kept += 1;
            continue;
        }
        *place = None;
    }
}
