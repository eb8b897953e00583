// NEW-VIEW before it is tagged.
ghost use Rattle.std.specs.Prelude.{◌^◌, ◌<◌};

use super::changes::{changes_len, put_changes};
use super::draft::Draft;
use super::lists::put_list;
use super::prepare::PrepareDraft;
use super::tagged::Tagged;
use message::ViewChange;
use parts::NEW_VIEW;
use terms::{PREPARE_BYTES, SHORTEST_NEW_VIEW, TAG_BYTES, View, WINDOW};
use xdr::Writer;

/// A quorum that asks for a view, and what its leader proposes again.
#[derive(Clone, Copy)]
pub struct NewViewDraft<'a> {
    pub view: View,
    /// The quorum that asks for the view, in places of which some may be empty.
    pub changes: &'a [Option<ViewChange<'a>>],
    pub prepares: &'a [Tagged<PrepareDraft>],
    pub ghost narrow: { view.0 < 2 ^ 32 },
}

impl Draft for NewViewDraft<'_> {
    ghost use Rattle.std.specs.Prelude.{refl};
    ghost use Rattle.message.specs.Encoding.{untagged_new_view};
    ghost use Rattle.message.specs.declared.message.Message.TheVariants.{NewView};
    ghost use Rattle.drafts.specs.Says.{new_view_with};

    ghost message = { λ d tag. NewView (new_view_with d tag) };

    ghost tag_apart = { λ d. unfold untagged_new_view in record { bytes = λ tag. refl; limits = λ tag. refl; last = λ tag. refl } };

    #[tactic(auto, using(crate::proofs::Holding::new_views, crate::proofs::Limits::new_view_fits))]
    fn untagged_len(&self) -> Option<usize> {
        if self.prepares.len() > WINDOW as usize {
            return None;
        }
        let changes = changes_len(self.changes)?;
        let prepares = PREPARE_BYTES * self.prepares.len();
        Some(SHORTEST_NEW_VIEW - TAG_BYTES + changes + prepares)
    }

    #[tactic(auto, using(crate::proofs::Holding::new_views))]
    fn put(&self, writer: &mut Writer<'_>) {
        writer.put_rows(&[NEW_VIEW, self.view.0]);
        put_changes(self.changes, writer);
        put_list(self.prepares, writer);
    }
}
