// suspect: a replica gives its view up and asks for the next one.
ghost use Rattle.std.specs.Prelude.{◌≡◌, ◌+◌, ◌≤◌, true, length, map, slice_index};
ghost use Rattle.terms.specs.Numbers.{longest_new_view};
ghost use Rattle.terms.specs.Pairs.{paired};
ghost use Rattle.counter.specs.Certificates.{allows};
ghost use Rattle.counter.specs.declared.kinds.Kind.TheVariants.{Continuing};
ghost use Rattle.parts.specs.Statements.{order_counter};
ghost use Rattle.message.specs.Decoding.{encode};
ghost use Rattle.message.specs.declared.message.Message.TheVariants.{ViewChange};
ghost use Rattle.drafts.specs.Says.{kept_prepare};
ghost use Rattle.holdings.specs.Recorded.{ascends};
ghost use Rattle.protocol.specs.Standing.{proposals, quorum_held};
ghost use Rattle.protocol.specs.Suspect.{suspected, gathered, merged};
ghost use Rattle.replica.specs.Standings.{standing_of, change_with, left_with, viewed, seen};
ghost use Rattle.xdr.specs.Layout.{pasted};

use super::issuing::{grants, has_room, issue};
use super::replica::Replica;
use super::standing::Standing;
use again::{highest_from, in_turn};
use counter::{Counter, Kind};
use drafts::ViewChangeDraft;
use holdings::Proposals;
use message::ORDER_COUNTER;
use service::Service;
use terms::{Order, Refusal, View, pair};

impl<C: Counter, S: Service> Replica<C, S> {
    /// Gives the view up, writes the VIEW-CHANGE for the others, and answers the view that it asks for and how many
    /// bytes the VIEW-CHANGE has.
    #[tactic(auto, using(crate::proofs::Leaving::change_so, crate::proofs::Leaving::left_so), unfolding(protocol::specs::Suspect::suspected))]
    pub fn suspect(&mut self, out: &mut [u8]) -> Result<(View, usize), Refusal>
        ensures { (viewed result, standing_of C.size C.seat C.rule C.values S.state self.new, out.new) ≡ seen (suspected (standing_of C.size C.seat C.rule C.values S.state self.old) out.old) }
    {
        if !has_room(out) {
            return Err(Refusal::OutTooShort);
        }
        let Some(target) = self.view.0.checked_add(1).map(View) else {
            return Err(Refusal::NumbersExhausted);
        };
        if self.standing() == Standing::Closed && !self.holds_quorum() {
            return Err(Refusal::NothingToDo);
        }
        let value = pair(target, Order(0));
        if !grants(&self.counter, Kind::Continuing, ORDER_COUNTER, value) {
            return Err(Refusal::CounterRefuses);
        }
        let (from, entries) = self.gathered();
        let bytes = self.leave(target, from, &entries, out);
        Ok((target, bytes))
    }

    // Certifies and writes the VIEW-CHANGE that tells this of a view, and gives the own view up.
    #[tactic(auto, using(crate::proofs::Orders::short_enough))]
    fn leave(&mut self, target: View, from: View, entries: &Proposals, out: &mut [u8]) -> usize
        requires next { target.0 ≡ self.old.view.0 + 1 }
        requires granted { allows Continuing (slice_index (C.values self.old.counter) order_counter) (paired target.0 0) ≡ true }
        requires in_line { ascends self.old.record.low (map kept_prepare entries.now.items) ≡ true }
        requires room { longest_new_view ≤ length out.old }
        ensures bytes { result ≡ length (encode (ViewChange (change_with (standing_of C.size C.seat C.rule C.values S.state self.old) from.0 (map kept_prepare entries.now.items)))) }
        ensures replica { standing_of C.size C.seat C.rule C.values S.state self.new ≡ left_with (standing_of C.size C.seat C.rule C.values S.state self.old) from.0 (map kept_prepare entries.now.items) }
        ensures out { out.new ≡ pasted out.old 0 (encode (ViewChange (change_with (standing_of C.size C.seat C.rule C.values S.state self.old) from.0 (map kept_prepare entries.now.items)))) }
    {
        let draft = ViewChangeDraft {
            sender: self.counter.seat(),
            target,
            previous: self.counter.value(ORDER_COUNTER).unwrap_or(0),
            from,
            low: self.record.low(),
            proof: self.proof.as_slice(),
            entries: entries.as_slice(),
        };
        let (_, bytes) = issue(
            &mut self.counter,
            &draft,
            Kind::Continuing,
            ORDER_COUNTER,
            pair(target, Order(0)),
            out,
        );
        self.view = target;
        self.record.unvoted(from, entries);
        self.suspicions.clear();
        self.suspicions.hold(self.counter.seat(), &out[..bytes]);
        bytes
    }

    // Whether VIEW-CHANGEs of a quorum are held.
    pub(crate) fn holds_quorum(&self) -> bool
        ensures { result ≡ quorum_held (standing_of C.size C.seat C.rule C.values S.state self.now) }
    {
        self.suspicions.count() >= self.group().quorum() as usize
    }

    // What the replica tells in its VIEW-CHANGE: its record, and in a closed view all that it knows of the last view that
    // it knows of.
    fn gathered(&self) -> (View, Proposals)
        ensures in_line { ascends self.now.record.low (map kept_prepare result.1.items) ≡ true }
        ensures from { result.0.0 ≡ (gathered (standing_of C.size C.seat C.rule C.values S.state self.now)).from }
        ensures entries { map kept_prepare result.1.items ≡ proposals (gathered (standing_of C.size C.seat C.rule C.values S.state self.now)).entries }
    {
        match self.standing() {
            Standing::Open => (self.record.from(), self.record.proposals()),
            Standing::Closed => self.merged(),
        }
    }

    // The highest from view of the record and of the VIEW-CHANGEs that are held, and what is known of it above the low
    // mark: the replica's own entries first, then those that the others told.
    #[tactic(auto, using(holdings::proofs::Ascending::unvoted_proposals, again::proofs::Orders::in_turn_ascends), unfolding(protocol::specs::Suspect::merged))]
    fn merged(&self) -> (View, Proposals)
        ensures in_line { ascends self.now.record.low (map kept_prepare result.1.items) ≡ true }
        ensures from { result.0.0 ≡ (merged (standing_of C.size C.seat C.rule C.values S.state self.now)).from }
        ensures entries { map kept_prepare result.1.items ≡ proposals (merged (standing_of C.size C.seat C.rule C.values S.state self.now)).entries }
    {
        let changes = self.suspicions.read();
        let from = self.record.from();
        let highest = from.max(highest_from(&changes));
        let own = if from == highest {
            self.record.proposals()
        } else {
            Proposals::new()
        };
        let known = in_turn(self.low(), own.as_slice(), highest, &changes);
        (highest, known)
    }
}
