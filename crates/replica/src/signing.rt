// Certifying the PREPAREs of a NEW-VIEW, one after the other.
ghost use Rattle.std.specs.Prelude.{◌≡◌, [], map, nat_lt, slice_index, slice_set, true};
ghost use Rattle.terms.specs.Pairs.{paired};
ghost use Rattle.drafts.specs.Says.{prepare_with, kept_prepare};
ghost use Rattle.parts.specs.Statements.{order_counter};
ghost use Rattle.protocol.specs.Open.{rise, value_behind};
ghost use Rattle.replica.specs.Signing.{bare, signed};

use super::issuing::certify;
use again::Untagged;
use counter::{Counter, Kind};
use drafts::{PrepareDraft, Tagged, write_untagged};
use holdings::Proposals;
use message::ORDER_COUNTER;
use terms::{PREPARE_BYTES, TAG_BYTES, pair};

/// Whether the values of PREPAREs rise from the present one on.
pub(crate) fn rises(present: u64, again: &[PrepareDraft]) -> bool
    ensures { result ≡ rise present (bare again.now) }
{
    let mut highest = present;
    for draft in again {
        let value = pair(draft.view, draft.order);
        if value <= highest {
            return false;
        }
        highest = value;
    }
    true
}

/// Certifies PREPAREs whose values rise.
pub(crate) fn sign_all<C: Counter>(counter: &mut C, again: &Untagged) -> Proposals
    requires { rise (slice_index (C.values counter.old) order_counter) (bare again.now.items) ≡ true }
    ensures prepares { map kept_prepare result.items ≡ map (signed (C.rule counter.old) (C.seat counter.old)) (bare again.now.items) }
    ensures values { C.values counter.new ≡ slice_set (C.values counter.old) order_counter (value_behind (slice_index (C.values counter.old) order_counter) (bare again.now.items)) }
    ensures same_seat { C.seat counter.new ≡ C.seat counter.old }
    ensures same_size { C.size counter.new ≡ C.size counter.old }
    ensures same_rule { C.rule counter.new ≡ C.rule counter.old }
{
    let mut prepares = Proposals::new();
    for draft in again.as_slice() {
        prepares.push(sign(counter, *draft));
    }
    prepares
}

/// Certifies a PREPARE.
#[tactic(auto, using(crate::proofs::Tagging::front_prepare, crate::proofs::Tagging::bare_prepare))]
fn sign<C: Counter>(counter: &mut C, draft: PrepareDraft) -> Tagged<PrepareDraft>
    requires { nat_lt (slice_index (C.values counter.old) order_counter) (paired draft.view.0 draft.order.0) ≡ true }
    ensures draft { result.draft ≡ draft }
    ensures tag { result.tag ≡ (signed (C.rule counter.old) (C.seat counter.old) (prepare_with draft [])).tag }
    ensures values { C.values counter.new ≡ slice_set (C.values counter.old) order_counter (paired draft.view.0 draft.order.0) }
    ensures same_seat { C.seat counter.new ≡ C.seat counter.old }
    ensures same_size { C.size counter.new ≡ C.size counter.old }
    ensures same_rule { C.rule counter.new ≡ C.rule counter.old }
{
    let mut bytes = [0; PREPARE_BYTES];
    let Some(length) = write_untagged(&draft, &mut bytes) else {
        return Tagged {
            draft,
            tag: [0; TAG_BYTES],
        };
    };
    let value = pair(draft.view, draft.order);
    let tag = certify(
        counter,
        Kind::Independent,
        ORDER_COUNTER,
        value,
        &bytes[..length],
    );
    Tagged { draft, tag }
}
