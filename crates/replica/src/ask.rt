// ask: the leader proposes a request for the order after its record's end, and votes for it.
ghost use Rattle.std.specs.Prelude.{◌≡◌};
ghost use Rattle.std.specs.Result.{result_map_both};
ghost use Rattle.protocol.specs.Ask.{asked};
ghost use Rattle.replica.specs.Standings.{standing_of, order_after, ordered, seen};

use super::issuing::{grants, has_room, issue};
use super::replica::Replica;
use super::standing::{Role, Standing};
use counter::{Counter, Kind};
use drafts::{PrepareDraft, Tagged};
use message::ORDER_COUNTER;
use service::Service;
use terms::{Order, Refusal, Request, WINDOW, pair};

impl<C: Counter, S: Service> Replica<C, S> {
    /// Proposes a request, writes the PREPARE for the others, and answers its order and how many bytes it has.
    #[tactic(auto, unfolding(protocol::specs::Ask::asked))]
    pub fn ask(&mut self, request: Request, out: &mut [u8]) -> Result<(Order, usize), Refusal>
        ensures { (ordered result, standing_of C.size C.seat C.rule C.values S.state self.new, out.new) ≡ seen (asked (standing_of C.size C.seat C.rule C.values S.state self.old) request out.old) }
    {
        if !has_room(out) {
            return Err(Refusal::OutTooShort);
        }
        let Standing::Open = self.standing() else {
            return Err(Refusal::ViewClosed);
        };
        let Role::Leader = self.role() else {
            return Err(Refusal::WrongRole);
        };
        let order = self.next_order()?;
        let value = pair(self.view, order);
        if !grants(&self.counter, Kind::Independent, ORDER_COUNTER, value) {
            return Err(Refusal::CounterRefuses);
        }
        let draft = PrepareDraft {
            view: self.view,
            order,
            request,
        };
        let (tag, bytes) = issue(
            &mut self.counter,
            &draft,
            Kind::Independent,
            ORDER_COUNTER,
            value,
            out,
        );
        self.record.push(self.counter.seat(), Tagged { draft, tag });
        Ok((order, bytes))
    }

    // The order after the end, if it lies in the window and 32 bits hold it.
    fn next_order(&self) -> Result<Order, Refusal>
        ensures { result_map_both (λ o. o.0) (λ e. e) result ≡ order_after (standing_of C.size C.seat C.rule C.values S.state self.now) }
    {
        let end = self.end();
        if u64::from(end.0) >= u64::from(self.low().0) + u64::from(WINDOW) {
            return Err(Refusal::BeyondWindow);
        }
        let order = end.0.checked_add(1).ok_or(Refusal::NumbersExhausted)?;
        Ok(Order(order))
    }
}
