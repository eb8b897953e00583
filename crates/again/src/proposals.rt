// What the leader of a new view proposes again.
ghost use Rattle.std.specs.Prelude.{◌≡◌, [], map};
ghost use Rattle.drafts.specs.Says.{prepare_with, kept_prepare};
ghost use Rattle.protocol.specs.Again.{proposed_again, moved_to};
ghost use Rattle.protocol.specs.Standing.{held};
ghost use Rattle.protocol.specs.Take.{same_proposal, same_proposals};

use super::gathering::in_turn;
use super::marks::{highest_from, highest_low};
use arrayvec::ArrayVec;
use drafts::{PrepareDraft, Tagged};
use holdings::MOST_ENTRIES;
use message::ViewChange;
use parts::{Prepare, Prepares};
use terms::View;

/// What is proposed again: one request at most for each order of the window.
pub type Untagged = ArrayVec<PrepareDraft, { MOST_ENTRIES }>;

/// What a NEW-VIEW for a view proposes again: the entries of the highest from view among its VIEW-CHANGEs, above their
/// highest low mark. They are not tagged yet.
#[tactic(auto, unfolding(protocol::specs::Again::proposed_again))]
pub fn proposed_again(view: View, changes: &[Option<ViewChange<'_>>]) -> Untagged
    ensures { map (λ d. prepare_with d []) result.items ≡ proposed_again view.0 (held changes.now) }
{
    let prepares = in_turn(highest_low(changes), &[], highest_from(changes), changes);
    let mut proposals = ArrayVec::new();
    for prepare in prepares.as_slice() {
        proposals.push(moved_to(view, prepare));
    }
    proposals
}

// A request that is proposed again in a view.
fn moved_to(view: View, prepare: &Tagged<PrepareDraft>) -> PrepareDraft
    ensures { prepare_with result [] ≡ moved_to view.0 (kept_prepare prepare.now) }
{
    PrepareDraft {
        view,
        order: prepare.draft.order,
        request: prepare.draft.request,
    }
}

/// Whether PREPAREs propose just that: the same requests for the same orders in the same view, whatever the tags.
#[tactic(auto, using(crate::proofs::Sameness::same))]
pub fn same_proposals(prepares: &Prepares<'_>, again: &[PrepareDraft]) -> bool
    ensures { result ≡ same_proposals prepares.now (map (λ d. prepare_with d []) again.now) }
{
    if prepares.len() != again.len() {
        return false;
    }
    for (place, proposal) in again.iter().enumerate() {
        let Some(prepare) = prepares.get(place) else {
            return false;
        };
        if !same_proposal(&prepare, proposal) {
            return false;
        }
    }
    true
}

// Whether a PREPARE proposes just that.
fn same_proposal(prepare: &Prepare<'_>, proposal: &PrepareDraft) -> bool
    ensures { result ≡ same_proposal prepare.now (prepare_with proposal.now []) }
{
    prepare.view == proposal.view
        && prepare.order == proposal.order
        && prepare.request() == proposal.request
}
