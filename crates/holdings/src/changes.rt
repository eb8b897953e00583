// The VIEW-CHANGEs that a replica holds, one for each seat, as the bytes that they are.
ghost use Rattle.std.specs.Prelude.{◌≡◌, ◌≤◌, None, count_by, length, slice_index_or, slice_set, take};
ghost use Rattle.terms.specs.Numbers.{longest_view_change};
ghost use Rattle.message.specs.Decoding.{decode};
ghost use Rattle.protocol.specs.Replicas.{nothing_held};
ghost use Rattle.protocol.specs.Standing.{held, is_held};
ghost use Rattle.holdings.specs.Changes.{change_of};

use super::rooms::SEATS;
use message::{Message, ViewChange};
use std::array;
use std::marker::Model;
use terms::LONGEST_VIEW_CHANGE;

/// A place for a VIEW-CHANGE: its bytes are the first so many.
#[derive(Drop)]
struct Place {
    bytes: [u8; LONGEST_VIEW_CHANGE],
    len: usize,
}

impl Model for Place {
    ghost use Rattle.std.specs.Prelude.{◌≤◌, Option, take};
    ghost use Rattle.terms.specs.Numbers.{longest_view_change};
    ghost use Rattle.message.specs.Decoding.{decode};
    ghost use Rattle.message.specs.Messages.{ViewChange};
    ghost use Rattle.holdings.specs.Changes.{change_of};

    ghost Value = { Option ViewChange };

    ghost view = { λ p. change_of (decode (take p.len p.bytes)) };

    ghost invariant = { λ p. p.len ≤ longest_view_change };
}

impl Place {
    // A place that holds nothing.
    #[tactic(auto, unfolding(message::specs::Decoding::decode))]
    fn empty() -> Place
        ensures { result ≡ None }
    {
        Place {
            bytes: [0; LONGEST_VIEW_CHANGE],
            len: 0,
        }
    }

    // The VIEW-CHANGE that is held.
    fn read(&self) -> Option<ViewChange<'_>>
        ensures { result ≡ self.now }
    {
        match Message::read(&self.bytes[..self.len]) {
            Ok(Message::ViewChange(change)) => Some(change),
            _ => None,
        }
    }

    // Whether one is held.
    fn is_held(&self) -> bool
        ensures { result ≡ is_held self.now }
    {
        self.read().is_some()
    }

    // Holds the VIEW-CHANGE that bytes are, if they are one.
    fn hold(&mut self, bytes: &[u8])
        requires { length bytes.now ≤ longest_view_change }
        ensures { self.new ≡ change_of (decode bytes.now) }
    {
        let len = bytes.len();
        self.bytes[..len].copy_from_slice(bytes);
        self.len = len;
    }
}

/// For each seat the VIEW-CHANGE that is held of it.
#[derive(Drop)]
pub struct Suspicions {
    places: [Place; SEATS],
}

impl Model for Suspicions {
    ghost use Rattle.std.specs.Prelude.{◌≡◌, List, Option, length};
    ghost use Rattle.terms.specs.Numbers.{largest_group};
    ghost use Rattle.message.specs.Messages.{ViewChange};

    ghost Value = { List (Option ViewChange) };

    ghost view = { λ s. s.places };

    ghost invariant = { λ s. length s.places ≡ largest_group };
}

impl Suspicions {
    /// Nothing is held of any seat.
    pub fn new() -> Suspicions
        ensures { result ≡ nothing_held }
    {
        Suspicions {
            places: array::from_fn(|_| Place::empty()),
        }
    }

    /// Whether one is held of a seat.
    pub fn is_held(&self, seat: u32) -> bool
        ensures { result ≡ is_held (slice_index_or self.now seat None) }
    {
        read_at(&self.places, seat as usize).is_some()
    }

    /// Of how many seats one is held.
    #[tactic(auto, using(crate::proofs::Lists::count_held))]
    pub fn count(&self) -> usize
        ensures { result ≡ length (held self.now) }
    {
        held_count(&self.places)
    }

    /// What is held of each seat.
    pub fn read(&self) -> [Option<ViewChange<'_>>; SEATS]
        ensures { result ≡ self.now }
    {
        read_all(&self.places)
    }

    /// Holds for a seat the VIEW-CHANGE that bytes are, if they are one.
    pub fn hold(&mut self, seat: u32, bytes: &[u8])
        requires short { length bytes.now ≤ longest_view_change }
        ensures { self.new ≡ slice_set self.old seat (change_of (decode bytes.now)) }
    {
        let seat = seat as usize;
        if seat < self.places.len() {
            self.places[seat].hold(bytes);
        }
    }

    /// Drops all.
    pub fn clear(&mut self)
        ensures { self.new ≡ nothing_held }
    {
        *self = Suspicions::new();
    }
}

// What is held of a seat.
fn read_at(places: &[Place], seat: usize) -> Option<ViewChange<'_>>
    ensures { result ≡ slice_index_or places.now seat None }
{
    match places.get(seat) {
        Some(place) => place.read(),
        None => None,
    }
}

// What is held in each place.
fn read_all(places: &[Place; SEATS]) -> [Option<ViewChange<'_>>; SEATS]
    ensures { result ≡ places.now }
{
    array::from_fn(|seat| read_at(places, seat))
}

// How many places hold one.
fn held_count(places: &[Place]) -> usize
    ensures { result ≡ count_by is_held places.now }
{
    places.iter().filter(|place| place.is_held()).count()
}
