// mark: at a checkpoint that is not yet marked, a replica tells the digest of its written state.
ghost use Rattle.std.specs.Prelude.{◌≡◌, ◌≤◌, true, length, slice_index};
ghost use Rattle.terms.specs.Numbers.{longest_new_view};
ghost use Rattle.counter.specs.Certificates.{allows};
ghost use Rattle.counter.specs.declared.kinds.Kind.TheVariants.{Continuing};
ghost use Rattle.parts.specs.Statements.{checkpoint_counter};
ghost use Rattle.message.specs.Decoding.{encode};
ghost use Rattle.message.specs.declared.message.Message.TheVariants.{Checkpoint};
ghost use Rattle.protocol.specs.Mark.{marked, own_mark, after_mark};
ghost use Rattle.protocol.specs.Meanings.{meaning};
ghost use Rattle.protocol.specs.Standing.{settled};
ghost use Rattle.replica.specs.Standings.{standing_of, ordered, seen};
ghost use Rattle.sha256.specs.Sha256.{sha256};
ghost use Rattle.xdr.specs.Layout.{pasted};

use super::issuing::{grants, has_room, issue};
use super::replica::Replica;
use counter::{Counter, Kind};
use drafts::{CheckpointDraft, Tagged};
use message::CHECKPOINT_COUNTER;
use service::Service;
use sha256::digest;
use terms::{Order, Refusal};

impl<C: Counter, S: Service> Replica<C, S> {
    /// Writes the service's state into the scratch and the CHECKPOINT with its digest for the others, and answers the
    /// order and how many bytes the CHECKPOINT has.
    #[tactic(auto, using(crate::proofs::Scratch::state_at_front), unfolding(protocol::specs::Mark::marked))]
    pub fn mark(&mut self, scratch: &mut [u8], out: &mut [u8]) -> Result<(Order, usize), Refusal>
        ensures { (ordered result, standing_of C.size C.seat C.rule C.values S.state self.new, (scratch.new, out.new)) ≡ seen (marked (meaning S.next S.reply S.written sha256) (standing_of C.size C.seat C.rule C.values S.state self.old) scratch.old out.old) }
    {
        if !has_room(out) {
            return Err(Refusal::OutTooShort);
        }
        if scratch.len() < self.service.written_len() {
            return Err(Refusal::ScratchTooShort);
        }
        if !self.owes_mark() {
            return Err(Refusal::NothingToDo);
        }
        if !grants(&self.counter, Kind::Continuing, CHECKPOINT_COUNTER, 0) {
            return Err(Refusal::CounterRefuses);
        }
        let Some(length) = self.service.write(scratch) else {
            return Err(Refusal::ScratchTooShort);
        };
        let order = Order(self.count);
        let bytes = self.tell(&scratch[..length], out);
        Ok((order, bytes))
    }

    // Certifies and writes the CHECKPOINT of the written state, and holds it.
    #[tactic(auto, using(sha256::proofs::Digests::sha256_length))]
    fn tell(&mut self, written: &[u8], out: &mut [u8]) -> usize
        requires written { written.now ≡ S.written (S.state self.old.service) }
        requires granted { allows Continuing (slice_index (C.values self.old.counter) checkpoint_counter) 0 ≡ true }
        requires room { longest_new_view ≤ length out.old }
        ensures bytes { result ≡ length (encode (Checkpoint (own_mark (meaning S.next S.reply S.written sha256) (standing_of C.size C.seat C.rule C.values S.state self.old)))) }
        ensures replica { standing_of C.size C.seat C.rule C.values S.state self.new ≡ settled (after_mark (meaning S.next S.reply S.written sha256) (standing_of C.size C.seat C.rule C.values S.state self.old)) }
        ensures out { out.new ≡ pasted out.old 0 (encode (Checkpoint (own_mark (meaning S.next S.reply S.written sha256) (standing_of C.size C.seat C.rule C.values S.state self.old)))) }
    {
        let draft = CheckpointDraft {
            sender: self.seat(),
            order: Order(self.count()),
            digest: digest(written),
        };
        let (tag, bytes) = issue(
            &mut self.counter,
            &draft,
            Kind::Continuing,
            CHECKPOINT_COUNTER,
            0,
            out,
        );
        self.claims.hold(Tagged { draft, tag });
        self.settle();
        bytes
    }
}
