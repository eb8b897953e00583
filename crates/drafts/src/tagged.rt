// Drafts that are kept with their tags, and the rows in which other messages hold them.
ghost use Rattle.std.specs.Prelude.{◌≡◌, length};
ghost use Rattle.terms.specs.Numbers.{tag_bytes};

use super::checkpoint::CheckpointDraft;
use super::draft::Draft;
use super::prepare::PrepareDraft;
use parts::{Checkpoint, Prepare};
use std::alloc::AllocError;
use terms::TAG_BYTES;
use xdr::{Row, Writer};

/// A draft with its tag: so a replica keeps the PREPAREs and CHECKPOINTs that it was sent.
#[derive(Copy, PartialEq, Eq, Debug)]
pub struct Tagged<D> {
    pub draft: D,
    pub tag: [u8; TAG_BYTES],
    pub ghost whole: { length tag ≡ tag_bytes },
}

// By hand: it is not derived for a struct with a ghost field and a type parameter.
impl<D: Copy> Clone for Tagged<D> {
    ghost use Rattle.std.specs.Prelude.{⊤};

    ghost is_clone = { λ kept copy. copy ≡ kept };

    ghost is_infallible = { λ kept. ⊤ };

    fn clone(&self) -> Result<Tagged<D>, AllocError> {
        Ok(*self)
    }
}

/// A place for a draft with a tag that holds none yet.
impl<D: Default> Default for Tagged<D> {
    fn default() -> Tagged<D> {
        Tagged {
            draft: D::default(),
            tag: [0; TAG_BYTES],
        }
    }
}

/// A PREPARE that was read, to keep.
impl From<&Prepare<'_>> for Tagged<PrepareDraft> {
    ghost use Rattle.drafts.specs.Says.{kept_prepare};

    ghost from_gives = { λ prepare kept. kept_prepare kept ≡ prepare.now };

    #[tactic(auto, unfolding(parts::specs::Fits::PrepareStands))]
    fn from(prepare: &Prepare<'_>) -> Tagged<PrepareDraft> {
        Tagged {
            draft: PrepareDraft::from(prepare),
            tag: *prepare.tag,
        }
    }
}

/// A CHECKPOINT that was read, to keep.
impl From<&Checkpoint<'_>> for Tagged<CheckpointDraft> {
    ghost use Rattle.drafts.specs.Says.{kept_checkpoint};

    ghost from_gives = { λ checkpoint kept. kept_checkpoint kept ≡ checkpoint.now };

    #[tactic(auto, unfolding(parts::specs::Fits::CheckpointStands))]
    fn from(checkpoint: &Checkpoint<'_>) -> Tagged<CheckpointDraft> {
        Tagged {
            draft: CheckpointDraft::from(checkpoint),
            tag: *checkpoint.tag,
        }
    }
}

impl Row for Tagged<PrepareDraft> {
    ghost use Rattle.parts.specs.Encoding.{encode_prepare};
    ghost use Rattle.terms.specs.Numbers.{prepare_bytes};
    ghost use Rattle.drafts.specs.Says.{kept_prepare};
    ghost use Rattle.drafts.specs.Lengths.{length-prepare};

    ghost width = { prepare_bytes };

    ghost layout = { λ t. encode_prepare (kept_prepare t) };

    ghost wide = { λ t. length-prepare (kept_prepare t) t.whole };

    #[tactic(auto, using(crate::proofs::Rows::kept_prepares))]
    fn put_row(&self, writer: &mut Writer<'_>) {
        self.draft.put(writer);
        writer.put(&self.tag);
    }
}

impl Row for Tagged<CheckpointDraft> {
    ghost use Rattle.parts.specs.Encoding.{encode_checkpoint};
    ghost use Rattle.terms.specs.Numbers.{checkpoint_bytes};
    ghost use Rattle.drafts.specs.Says.{kept_checkpoint};
    ghost use Rattle.drafts.specs.Lengths.{length-checkpoint};

    ghost width = { checkpoint_bytes };

    ghost layout = { λ t. encode_checkpoint (kept_checkpoint t) };

    ghost wide = { λ t. length-checkpoint (kept_checkpoint t) t.draft.whole t.whole };

    #[tactic(auto, using(crate::proofs::Puts::puts), unfolding(parts::specs::Encoding::untagged_checkpoint))]
    fn put_row(&self, writer: &mut Writer<'_>) {
        self.draft.put(writer);
        writer.put(&self.tag);
    }
}
