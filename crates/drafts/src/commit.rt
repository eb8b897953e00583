// COMMIT before it is tagged.
ghost use Rattle.std.specs.Prelude.{◌^◌, ◌<◌};
ghost use Rattle.parts.specs.Fits.{RequestFits};

use super::draft::Draft;
use super::fields::put_request;
use parts::COMMIT;
use terms::{COMMIT_BYTES, Order, Request, TAG_BYTES, View};
use xdr::Writer;

/// A follower's vote for a request that its leader proposed.
#[derive(Clone, Copy, PartialEq, Eq, Debug)]
pub struct CommitDraft {
    pub sender: u32,
    pub view: View,
    pub order: Order,
    pub request: Request,
    pub ghost narrow: { sender < 2 ^ 32 × view.0 < 2 ^ 32 × order.0 < 2 ^ 32 × RequestFits request },
}

impl Draft for CommitDraft {
    ghost use Rattle.std.specs.Prelude.{refl};
    ghost use Rattle.parts.specs.Encoding.{untagged_commit};
    ghost use Rattle.message.specs.declared.message.Message.TheVariants.{Commit};
    ghost use Rattle.drafts.specs.Says.{commit_with};

    ghost message = { λ d tag. Commit (commit_with d tag) };

    ghost tag_apart = { λ d. unfold untagged_commit in record { bytes = λ tag. refl; limits = λ tag. refl; last = λ tag. refl } };

    #[tactic(auto, unfolding(parts::specs::Encoding::untagged_commit, parts::specs::Encoding::encode_request, crate::specs::Laws::FitsTagged))]
    fn untagged_len(&self) -> Option<usize> {
        Some(COMMIT_BYTES - TAG_BYTES)
    }

    #[tactic(auto, using(crate::proofs::Puts::puts), unfolding(parts::specs::Encoding::untagged_commit, parts::specs::Encoding::encode_request))]
    fn put(&self, writer: &mut Writer<'_>) {
        writer.put_rows(&[COMMIT, self.sender, self.view.0, self.order.0]);
        put_request(self.request, writer);
    }
}
