// vote: a follower votes for the first entry above what its counter shows.
ghost use Rattle.std.specs.Prelude.{◌≡◌};
ghost use Rattle.protocol.specs.Standing.{shown};
ghost use Rattle.protocol.specs.Vote.{voted};
ghost use Rattle.replica.specs.Standings.{standing_of, ordered, seen};

use super::issuing::{grants, has_room, issue};
use super::replica::Replica;
use super::standing::{Role, Standing};
use counter::{Counter, Kind};
use drafts::CommitDraft;
use message::ORDER_COUNTER;
use service::Service;
use terms::{Order, Refusal, pair, pair_order, pair_view};

impl<C: Counter, S: Service> Replica<C, S> {
    /// Votes for what the leader proposed, writes the COMMIT for the others, and answers its order and how many bytes
    /// it has.
    #[tactic(auto, unfolding(protocol::specs::Vote::voted))]
    pub fn vote(&mut self, out: &mut [u8]) -> Result<(Order, usize), Refusal>
        ensures { (ordered result, standing_of C.size C.seat C.rule C.values S.state self.new, out.new) ≡ seen (voted (standing_of C.size C.seat C.rule C.values S.state self.old) out.old) }
    {
        if !has_room(out) {
            return Err(Refusal::OutTooShort);
        }
        let Standing::Open = self.standing() else {
            return Err(Refusal::ViewClosed);
        };
        let Role::Follower = self.role() else {
            return Err(Refusal::WrongRole);
        };
        let shown = self.shown();
        let Some(entry) = self.record.first_above(shown) else {
            return Err(Refusal::NothingToDo);
        };
        let order = entry.order();
        let value = pair(self.view, order);
        if !grants(&self.counter, Kind::Independent, ORDER_COUNTER, value) {
            return Err(Refusal::CounterRefuses);
        }
        let draft = CommitDraft {
            sender: self.seat(),
            view: self.view,
            order,
            request: entry.proposal.draft.request,
        };
        let (_, bytes) = issue(
            &mut self.counter,
            &draft,
            Kind::Independent,
            ORDER_COUNTER,
            value,
            out,
        );
        self.record.add_vote(self.counter.seat(), order);
        Ok((order, bytes))
    }

    // What the counter of orders shows for this view: 0 if it stands in another one.
    fn shown(&self) -> u32
        ensures { result ≡ shown (standing_of C.size C.seat C.rule C.values S.state self.now) }
    {
        match self.counter.value(ORDER_COUNTER) {
            Ok(value) if pair_view(value) == self.view => pair_order(value).0,
            _ => 0,
        }
    }
}
