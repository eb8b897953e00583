// NEW-VIEW: the leader of a new view shows a quorum that asks for it, and proposes again what they show.
use super::view_change::ViewChanges;
use counter::{Kind, Statement};
use parts::{Delivered, NEW_VIEW, Prepares, VIEW_COUNTER, before, untagged};
use std::marker::Model;
use terms::{GroupSize, TAG_BYTES, View};
use xdr::{Number, read_opaque};

/// A NEW-VIEW, as a part of delivered bytes.
#[derive(Drop)]
pub struct NewView<'a> {
    pub view: View,
    /// The quorum that asks for the view.
    pub changes: ViewChanges<'a>,
    pub prepares: Prepares<'a>,
    pub tag: &'a [u8; TAG_BYTES],
    bytes: &'a [u8],
}

impl<'a> Model for NewView<'a> {
    ghost use Rattle.message.specs.Messages.{NewView};

    ghost Value = { NewView };

    ghost use Rattle.message.specs.Fits.{NewViewStands};

    ghost view = { λ n. record { view = n.view.0; changes = n.changes; prepares = n.prepares; tag = n.tag.now } };

    ghost invariant = { λ n. NewViewStands n.bytes.now (record { view = n.view.0; changes = n.changes; prepares = n.prepares; tag = n.tag.now }) };
}

impl<'a> Delivered<'a> for NewView<'a> {
    ghost use Rattle.std.specs.Prelude.{◌≡◌};
    ghost use Rattle.parts.specs.Encoding.{new_view_type};
    ghost use Rattle.message.specs.Encoding.{encode_new_view};
    ghost use Rattle.message.specs.Fits.{NewViewFits};
    ghost use Rattle.message.specs.Reading.{new_view_rest};
    ghost use Rattle.message.specs.Statements.{new_view_says};

    ghost number = { new_view_type };

    ghost fits = { NewViewFits };

    ghost layout = { encode_new_view };

    ghost rest_from = { new_view_rest };

    ghost says = { new_view_says };

    fn type_number() -> u32
        ensures { result ≡ new_view_type }
    {
        NEW_VIEW
    }

    #[tactic(auto, using(crate::proofs::Exactness::new_views_exact, crate::proofs::Fronts::new_view_front), unfolding(crate::specs::Reading::new_view_rest))]
    fn read_rest(bytes: &'a [u8], rest: &'a [u8]) -> Option<(NewView<'a>, &'a [u8])> {
        let (view, rest) = u32::read(rest)?;
        let (changes, rest) = ViewChanges::read(rest)?;
        let (prepares, rest) = Prepares::read(rest)?;
        let (tag, rest) = read_opaque(rest)?;
        let new_view = NewView {
            view: View(view),
            changes,
            prepares,
            tag,
            bytes: before(bytes, rest),
        };
        Some((new_view, rest))
    }

    #[tactic(auto, unfolding(crate::specs::Fits::NewViewStands))]
    fn bytes(&self) -> &'a [u8] {
        self.bytes
    }

    #[tactic(auto, using(parts::proofs::Fronts::without_tag), unfolding(crate::specs::Fits::NewViewStands))]
    fn statement(&self, group: GroupSize) -> Statement<'a> {
        Statement {
            kind: Kind::Independent.number(),
            seat: group.leader(self.view),
            number: VIEW_COUNTER,
            new: u64::from(self.view.0),
            old: 0,
            message: untagged(self.bytes),
        }
    }
}
