// VIEW-CHANGEs that were read, in a message that shows them as they came. They stand in places, and the empty ones are
// passed over.
ghost use Rattle.std.specs.Prelude.{◌≡◌, ◌*◌, ◌≤◌, IfSome, length, nat_le, if◌then◌else◌};
ghost use Rattle.std.specs.List.{flat_map, AllByRecursion};
ghost use Rattle.terms.specs.Numbers.{largest_quorum, longest_view_change};
ghost use Rattle.xdr.specs.Layout.{counted};
ghost use Rattle.xdr.specs.Writing.{Room, wrote};
ghost use Rattle.message.specs.Encoding.{encode_view_change};
ghost use Rattle.message.specs.Fits.{ViewChangeFits};
ghost use Rattle.drafts.specs.Says.{placed, bytes_at};

use message::{Delivered, ViewChange};
use terms::LARGEST_QUORUM;
use xdr::{Row, Writer};

// How many bytes they have one behind the other, or None where they are more than a message may hold. Each is within its
// limits, since it was read.
pub fn changes_len(changes: &[Option<ViewChange<'_>>]) -> Option<usize>
    ensures value { result ≡ (if nat_le (length (placed changes.now)) largest_quorum then Some (length (flat_map encode_view_change (placed changes.now))) else None) }
    ensures short { IfSome result (λ n. n ≤ largest_quorum * longest_view_change) }
    ensures fit { IfSome result (λ _. AllByRecursion ViewChangeFits (placed changes.now)) }
{
    if changes_count(changes) > LARGEST_QUORUM as usize {
        return None;
    }
    Some(bytes_len(changes))
}

// The same, where they are no more than a message may hold.
fn bytes_len(changes: &[Option<ViewChange<'_>>]) -> usize
    requires { length (placed changes.now) ≤ largest_quorum }
    ensures value { result ≡ length (flat_map encode_view_change (placed changes.now)) }
    ensures short { result ≤ largest_quorum * longest_view_change }
    ensures fit { AllByRecursion ViewChangeFits (placed changes.now) }
{
    let mut length = 0;
    for place in changes {
        length += bytes_at(place).len();
    }
    length
}

// Writes how many there are, and then the bytes of each.
#[tactic(auto, using(crate::proofs::Pieces::pieces))]
pub fn put_changes(changes: &[Option<ViewChange<'_>>], writer: &mut Writer<'_>)
    requires few { length (placed changes.now) ≤ u32.MAX }
    requires room { Room writer.old (length (counted encode_view_change (placed changes.now))) }
    ensures { writer.new ≡ wrote writer.old (counted encode_view_change (placed changes.now)) }
{
    (changes_count(changes) as u32).put_row(writer);
    for place in changes {
        writer.put(bytes_at(place));
    }
}

// How many there are.
#[tactic(auto, using(crate::proofs::Placed::placed_counted))]
fn changes_count(changes: &[Option<ViewChange<'_>>]) -> usize
    ensures { result ≡ length (placed changes.now) }
{
    changes.iter().filter(|place| place.is_some()).count()
}

// The bytes of the one that stands in a place. An empty place has none.
fn bytes_at<'a>(place: &Option<ViewChange<'a>>) -> &'a [u8]
    ensures value { result.now ≡ bytes_at encode_view_change place.now }
    ensures fits { IfSome place.now ViewChangeFits }
{
    match place {
        Some(change) => change.bytes(),
        None => &[],
    }
}
