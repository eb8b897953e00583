// carry out: the request after the count is applied once a quorum voted for it.
ghost use Rattle.std.specs.Prelude.{◌≡◌};
ghost use Rattle.protocol.specs.CarryOut.{carried_out};
ghost use Rattle.protocol.specs.Meanings.{meaning};
ghost use Rattle.replica.specs.Standings.{standing_of, ordered, seen_alone};
ghost use Rattle.sha256.specs.Sha256.{sha256};

use super::replica::Replica;
use super::standing::Standing;
use counter::Counter;
use service::Service;
use terms::{Order, Refusal};

impl<C: Counter, S: Service> Replica<C, S> {
    /// Applies the next agreed request to the service, and answers its order and the reply: status and value.
    #[tactic(auto, unfolding(protocol::specs::CarryOut::carried_out))]
    pub fn carry_out(&mut self) -> Result<(Order, (u32, u32)), Refusal>
        ensures { (ordered result, standing_of C.size C.seat C.rule C.values S.state self.new) ≡ seen_alone (carried_out (meaning S.next S.reply S.written sha256) (standing_of C.size C.seat C.rule C.values S.state self.old)) }
    {
        let Standing::Open = self.standing() else {
            return Err(Refusal::ViewClosed);
        };
        let Some(entry) = self.record.entry_at(u64::from(self.count) + 1) else {
            return Err(Refusal::NothingToDo);
        };
        if entry.vote_count() < self.group().quorum() as usize || self.owes_mark() {
            return Err(Refusal::NothingToDo);
        }
        let reply = self.service.apply(entry.proposal.draft.request);
        self.count = entry.order().0;
        self.settle();
        Ok((entry.order(), reply))
    }
}
