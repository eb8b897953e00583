// CHECKPOINT before it is tagged.
ghost use Rattle.std.specs.Prelude.{◌≡◌, ◌^◌, ◌<◌, length};
ghost use Rattle.terms.specs.Numbers.{digest_bytes};

use super::draft::Draft;
use parts::{CHECKPOINT, Checkpoint};
use terms::{CHECKPOINT_BYTES, DIGEST_BYTES, Order, TAG_BYTES};
use xdr::Writer;

/// The digest of a replica's register behind the request of an order.
#[derive(Clone, Copy, PartialEq, Eq, Debug)]
pub struct CheckpointDraft {
    pub sender: u32,
    pub order: Order,
    pub digest: [u8; DIGEST_BYTES],
    pub ghost narrow: { sender < 2 ^ 32 × order.0 < 2 ^ 32 },
    pub ghost whole: { length digest ≡ digest_bytes },
}

/// A place for a draft that holds none yet.
impl Default for CheckpointDraft {
    fn default() -> CheckpointDraft {
        CheckpointDraft {
            sender: 0,
            order: Order::default(),
            digest: [0; DIGEST_BYTES],
        }
    }
}

/// What a CHECKPOINT that was read says.
impl From<&Checkpoint<'_>> for CheckpointDraft {
    ghost use Rattle.drafts.specs.Says.{checkpoint_with};

    ghost from_gives = { λ checkpoint draft. checkpoint_with draft checkpoint.now.tag ≡ checkpoint.now };

    #[tactic(auto, unfolding(parts::specs::Fits::CheckpointStands))]
    fn from(checkpoint: &Checkpoint<'_>) -> CheckpointDraft {
        CheckpointDraft {
            sender: checkpoint.sender,
            order: checkpoint.order,
            digest: *checkpoint.digest,
        }
    }
}

impl Draft for CheckpointDraft {
    ghost use Rattle.std.specs.Prelude.{refl};
    ghost use Rattle.parts.specs.Encoding.{untagged_checkpoint};
    ghost use Rattle.message.specs.declared.message.Message.TheVariants.{Checkpoint};
    ghost use Rattle.drafts.specs.Says.{checkpoint_with};

    ghost message = { λ d tag. Checkpoint (checkpoint_with d tag) };

    ghost tag_apart = { λ d. unfold untagged_checkpoint in record { bytes = λ tag. refl; limits = λ tag. refl; last = λ tag. refl } };

    #[tactic(auto, unfolding(parts::specs::Encoding::untagged_checkpoint, crate::specs::Laws::FitsTagged))]
    fn untagged_len(&self) -> Option<usize> {
        Some(CHECKPOINT_BYTES - TAG_BYTES)
    }

    #[tactic(auto, using(crate::proofs::Puts::puts), unfolding(parts::specs::Encoding::untagged_checkpoint))]
    fn put(&self, writer: &mut Writer<'_>) {
        writer.put_rows(&[CHECKPOINT, self.sender, self.order.0]);
        writer.put(&self.digest);
    }
}
