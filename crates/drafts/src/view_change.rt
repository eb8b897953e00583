// VIEW-CHANGE before it is tagged.
ghost use Rattle.std.specs.Prelude.{◌^◌, ◌<◌};

use super::checkpoint::CheckpointDraft;
use super::draft::Draft;
use super::lists::put_list;
use super::prepare::PrepareDraft;
use super::tagged::Tagged;
use parts::VIEW_CHANGE;
use terms::{
    CHECKPOINT_BYTES, LARGEST_QUORUM, Order, PREPARE_BYTES, SHORTEST_VIEW_CHANGE, TAG_BYTES, View,
    WINDOW,
};
use xdr::{Row, Writer};

/// A suspicion of the leader, the view that is asked for, and what its sender knows.
#[derive(Clone, Copy, PartialEq, Eq, Debug)]
pub struct ViewChangeDraft<'a> {
    pub sender: u32,
    /// The view that it asks for.
    pub target: View,
    /// The value that its sender's counter had before.
    pub previous: u64,
    /// The view of its entries.
    pub from: View,
    /// Its low mark, and the CHECKPOINTs that prove it.
    pub low: Order,
    pub proof: &'a [Tagged<CheckpointDraft>],
    pub entries: &'a [Tagged<PrepareDraft>],
    pub ghost narrow: { sender < 2 ^ 32 × target.0 < 2 ^ 32 × previous < 2 ^ 64 × from.0 < 2 ^ 32 × low.0 < 2 ^ 32 },
}

impl ViewChangeDraft<'_> {
    ghost use Rattle.std.specs.Prelude.{◌≡◌, length};
    ghost use Rattle.xdr.specs.Writing.{Room, wrote};
    ghost use Rattle.drafts.specs.Says.{view_change_head};

    // Writes what stands before its lists.
    #[tactic(auto, using(crate::proofs::Puts::puts))]
    fn put_head(&self, writer: &mut Writer<'_>)
        requires { Room writer.old (length (view_change_head self.now)) }
        ensures { writer.new ≡ wrote writer.old (view_change_head self.now) }
    {
        writer.put_rows(&[VIEW_CHANGE, self.sender, self.target.0]);
        self.previous.put_row(writer);
        writer.put_rows(&[self.from.0, self.low.0]);
    }
}

impl Draft for ViewChangeDraft<'_> {
    ghost use Rattle.std.specs.Prelude.{refl};
    ghost use Rattle.message.specs.Encoding.{untagged_view_change};
    ghost use Rattle.message.specs.declared.message.Message.TheVariants.{ViewChange};
    ghost use Rattle.drafts.specs.Says.{view_change_with};

    ghost message = { λ d tag. ViewChange (view_change_with d tag) };

    ghost tag_apart = { λ d. unfold untagged_view_change in record { bytes = λ tag. refl; limits = λ tag. refl; last = λ tag. refl } };

    #[tactic(auto, using(crate::proofs::Holding::view_changes, crate::proofs::Limits::view_change_fits))]
    fn untagged_len(&self) -> Option<usize> {
        if self.proof.len() > LARGEST_QUORUM as usize || self.entries.len() > WINDOW as usize {
            return None;
        }
        let proof = CHECKPOINT_BYTES * self.proof.len();
        let entries = PREPARE_BYTES * self.entries.len();
        Some(SHORTEST_VIEW_CHANGE - TAG_BYTES + proof + entries)
    }

    #[tactic(auto, using(crate::proofs::Holding::view_changes))]
    fn put(&self, writer: &mut Writer<'_>) {
        self.put_head(writer);
        put_list(self.proof, writer);
        put_list(self.entries, writer);
    }
}
