// What take, carry out and mark end with: the low mark moves if it can.
ghost use Rattle.std.specs.Prelude.{◌≡◌};
ghost use Rattle.protocol.specs.Standing.{settled, mark_owed};
ghost use Rattle.replica.specs.Standings.{standing_of};

use super::replica::Replica;
use counter::Counter;
use service::Service;
use terms::{CHECKPOINT_INTERVAL, Order};

impl<C: Counter, S: Service> Replica<C, S> {
    // Moves the low mark to a checkpoint that the replica has reached and a quorum agrees on. Entries up to it fall away.
    #[tactic(auto, unfolding(protocol::specs::Standing::settled))]
    pub(crate) fn settle(&mut self)
        ensures { standing_of C.size C.seat C.rule C.values S.state self.new ≡ settled (standing_of C.size C.seat C.rule C.values S.state self.old) }
    {
        let quorum = self.group().quorum();
        if let Some((order, proof)) = self.claims.settled(self.low(), self.count, quorum) {
            self.record.lower(order);
            self.proof = proof;
        }
    }

    // Whether the count is a checkpoint that the replica has not told of yet.
    pub(crate) fn owes_mark(&self) -> bool
        ensures { result ≡ mark_owed (standing_of C.size C.seat C.rule C.values S.state self.now) }
    {
        self.count > 0
            && self.count % CHECKPOINT_INTERVAL == 0
            && self.claims.below(self.seat(), Order(self.count))
    }
}
