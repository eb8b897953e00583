// What a replica does with a NEW-VIEW, one that it took or one that it wrote itself.
ghost use Rattle.std.specs.Prelude.{◌≡◌, map, true};
ghost use Rattle.drafts.specs.Says.{kept_prepare};
ghost use Rattle.holdings.specs.Recorded.{ascends};
ghost use Rattle.protocol.specs.Changes.{last_order};
ghost use Rattle.replica.specs.Standings.{standing_of, accepted_with};

use super::replica::Replica;
use counter::Counter;
use drafts::{PrepareDraft, Tagged};
use holdings::{Noted, Proposals};
use service::Service;
use terms::{Order, View};

impl<C: Counter, S: Service> Replica<C, S> {
    // Accepts the NEW-VIEW of a view with this low and these PREPAREs.
    pub(crate) fn accept(&mut self, view: View, low: Order, prepares: &Proposals)
        requires { ascends 0 (map kept_prepare prepares.now.items) ≡ true }
        ensures { standing_of C.size C.seat C.rule C.values S.state self.new ≡ accepted_with (standing_of C.size C.seat C.rule C.values S.state self.old) view.0 low.0 (map kept_prepare prepares.now.items) }
    {
        let top = last_order(low, prepares.as_slice());
        self.notes.note(Noted { view, low, top });
        let leader = self.group().leader(view);
        self.record.supported(view, leader, prepares);
        if view >= self.view {
            self.view = view;
            self.suspicions.clear();
        }
    }
}

// The order of the last PREPARE, or low if there is none.
#[tactic(auto, using(crate::proofs::Orders::last_is))]
fn last_order(low: Order, prepares: &[Tagged<PrepareDraft>]) -> Order
    ensures { result.0 ≡ last_order low.0 (map kept_prepare prepares.now) }
{
    match prepares.last() {
        Some(prepare) => prepare.draft.order,
        None => low,
    }
}
