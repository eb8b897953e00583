// open: the leader of a closed view opens it with a quorum's VIEW-CHANGEs.
ghost use Rattle.std.specs.Prelude.{◌≡◌, ◌≤◌, ◌&&◌, true, length, map, nat_lt, slice_index, slice_set, take};
ghost use Rattle.terms.specs.Numbers.{largest_quorum, longest_new_view};
ghost use Rattle.drafts.specs.Says.{kept_prepare};
ghost use Rattle.message.specs.Decoding.{encode};
ghost use Rattle.message.specs.declared.message.Message.TheVariants.{NewView};
ghost use Rattle.parts.specs.Statements.{order_counter, view_counter};
ghost use Rattle.protocol.specs.Open.{opened, rise, value_behind};
ghost use Rattle.protocol.specs.Standing.{held};
ghost use Rattle.replica.specs.Signing.{bare, signed, signed_new_view};
ghost use Rattle.replica.specs.Standings.{standing_of, viewed, seen};
ghost use Rattle.xdr.specs.Layout.{pasted};

use super::issuing::{grants, has_room, issue};
use super::replica::Replica;
use super::signing::{rises, sign_all};
use super::standing::{Role, Standing};
use again::{Untagged, highest_low, keep_lowest, proposed_again};
use counter::{Counter, Kind};
use drafts::NewViewDraft;
use holdings::{Proposals, SEATS, Suspicions};
use message::{ORDER_COUNTER, VIEW_COUNTER, ViewChange};
use service::Service;
use terms::{Refusal, View};

impl<C: Counter, S: Service> Replica<C, S> {
    /// Opens the view, writes the NEW-VIEW for the others, and answers the view and how many bytes the NEW-VIEW has.
    #[tactic(auto, unfolding(protocol::specs::Open::opened))]
    pub fn open(&mut self, out: &mut [u8]) -> Result<(View, usize), Refusal>
        ensures { (viewed result, standing_of C.size C.seat C.rule C.values S.state self.new, out.new) ≡ seen (opened (standing_of C.size C.seat C.rule C.values S.state self.old) out.old) }
    {
        if !has_room(out) {
            return Err(Refusal::OutTooShort);
        }
        let Standing::Closed = self.standing() else {
            return Err(Refusal::ViewOpen);
        };
        let Role::Leader = self.role() else {
            return Err(Refusal::WrongRole);
        };
        if !self.holds_quorum() {
            return Err(Refusal::NothingToDo);
        }
        let view = self.view;
        let changes = lowest(self.counter.group().quorum(), &self.suspicions);
        let again = proposed_again(view, &changes);
        if !grants_opening(&self.counter, view, &again) {
            return Err(Refusal::CounterRefuses);
        }
        let (prepares, bytes) = issue_new_view(&mut self.counter, view, &changes, &again, out);
        let low = highest_low(&changes);
        self.accept(view, low, &prepares);
        Ok((view, bytes))
    }
}

// The VIEW-CHANGEs of so many of the lowest seats that are held.
fn lowest(most: u32, suspicions: &Suspicions) -> [Option<ViewChange<'_>>; SEATS]
    ensures { held result ≡ take most (held suspicions.now) }
{
    let mut changes = suspicions.read();
    keep_lowest(changes.as_mut_slice(), most);
    changes
}

// Whether a counter would give a certificate for each of the PREPAREs, one after the other, and for the NEW-VIEW.
fn grants_opening<C: Counter>(counter: &C, view: View, again: &Untagged) -> bool
    ensures { result ≡ (rise (slice_index (C.values counter.now) order_counter) (bare again.now.items) && nat_lt (slice_index (C.values counter.now) view_counter) view.0) }
{
    let present = counter.value(ORDER_COUNTER).unwrap_or(0);
    rises(present, again.as_slice())
        && grants(counter, Kind::Independent, VIEW_COUNTER, u64::from(view.0))
}

// Certifies the PREPAREs and then the NEW-VIEW, and writes it. Answers the PREPAREs and how many bytes were written.
fn issue_new_view<C: Counter>(
    counter: &mut C,
    view: View,
    changes: &[Option<ViewChange<'_>>],
    again: &Untagged,
    out: &mut [u8],
) -> (Proposals, usize)
    requires rising { rise (slice_index (C.values counter.old) order_counter) (bare again.now.items) ≡ true }
    requires granted { nat_lt (slice_index (C.values counter.old) view_counter) view.0 ≡ true }
    requires few { length (held changes.now) ≤ largest_quorum }
    requires room { longest_new_view ≤ length out.old }
    ensures prepares { map kept_prepare result.0.items ≡ map (signed (C.rule counter.old) (C.seat counter.old)) (bare again.now.items) }
    ensures bytes { result.1 ≡ length (encode (NewView (signed_new_view (C.rule counter.old) (C.seat counter.old) view.0 (held changes.now) (bare again.now.items)))) }
    ensures out { out.new ≡ pasted out.old 0 (encode (NewView (signed_new_view (C.rule counter.old) (C.seat counter.old) view.0 (held changes.now) (bare again.now.items)))) }
    ensures values { C.values counter.new ≡ slice_set (slice_set (C.values counter.old) order_counter (value_behind (slice_index (C.values counter.old) order_counter) (bare again.now.items))) view_counter view.0 }
    ensures same_seat { C.seat counter.new ≡ C.seat counter.old }
    ensures same_size { C.size counter.new ≡ C.size counter.old }
    ensures same_rule { C.rule counter.new ≡ C.rule counter.old }
{
    let prepares = sign_all(counter, again);
    let draft = NewViewDraft {
        view,
        changes,
        prepares: prepares.as_slice(),
    };
    let (_, bytes) = issue(
        counter,
        &draft,
        Kind::Independent,
        VIEW_COUNTER,
        u64::from(view.0),
        out,
    );
    (prepares, bytes)
}
