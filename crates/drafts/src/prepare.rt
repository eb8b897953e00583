// PREPARE before it is tagged.
ghost use Rattle.std.specs.Prelude.{◌^◌, ◌<◌};
ghost use Rattle.parts.specs.Fits.{RequestFits};

use super::draft::Draft;
use super::fields::put_request;
use parts::{PREPARE, Prepare};
use terms::{Order, PREPARE_BYTES, Request, TAG_BYTES, View};
use xdr::Writer;

/// A leader's proposal of a request for an order.
#[derive(Clone, Copy, PartialEq, Eq, Debug)]
pub struct PrepareDraft {
    pub view: View,
    pub order: Order,
    pub request: Request,
    pub ghost narrow: { view.0 < 2 ^ 32 × order.0 < 2 ^ 32 × RequestFits request },
}

/// A place for a draft that holds none yet.
impl Default for PrepareDraft {
    fn default() -> PrepareDraft {
        PrepareDraft {
            view: View::default(),
            order: Order::default(),
            request: Request::default(),
        }
    }
}

/// What a PREPARE that was read says.
impl From<&Prepare<'_>> for PrepareDraft {
    ghost use Rattle.std.specs.Prelude.{◌≡◌};
    ghost use Rattle.drafts.specs.Says.{prepare_with};

    ghost from_gives = { λ prepare draft. prepare_with draft prepare.now.tag ≡ prepare.now };

    #[tactic(auto, unfolding(parts::specs::Fits::PrepareStands))]
    fn from(prepare: &Prepare<'_>) -> PrepareDraft {
        PrepareDraft {
            view: prepare.view,
            order: prepare.order,
            request: prepare.request(),
        }
    }
}

impl Draft for PrepareDraft {
    ghost use Rattle.std.specs.Prelude.{refl};
    ghost use Rattle.parts.specs.Encoding.{untagged_prepare};
    ghost use Rattle.message.specs.declared.message.Message.TheVariants.{Prepare};
    ghost use Rattle.drafts.specs.Says.{prepare_with};

    ghost message = { λ d tag. Prepare (prepare_with d tag) };

    ghost tag_apart = { λ d. unfold untagged_prepare in record { bytes = λ tag. refl; limits = λ tag. refl; last = λ tag. refl } };

    #[tactic(auto, unfolding(parts::specs::Encoding::untagged_prepare, parts::specs::Encoding::encode_request, crate::specs::Laws::FitsTagged))]
    fn untagged_len(&self) -> Option<usize> {
        Some(PREPARE_BYTES - TAG_BYTES)
    }

    #[tactic(auto, using(crate::proofs::Puts::puts), unfolding(parts::specs::Encoding::untagged_prepare, parts::specs::Encoding::encode_request))]
    fn put(&self, writer: &mut Writer<'_>) {
        writer.put_rows(&[PREPARE, self.view.0, self.order.0]);
        put_request(self.request, writer);
    }
}
