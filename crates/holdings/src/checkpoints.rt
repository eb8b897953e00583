// The CHECKPOINTs that a replica holds, the latest of each seat.
ghost use Rattle.std.specs.Prelude.{◌≡◌, ◌≤◌, [], ◌∷◌, ◌++◌, None, Some, length, map, take, find, count_by, slice_index_or, slice_set};
ghost use Rattle.std.specs.Option.{option_map};
ghost use Rattle.arrayvec.specs.ArrayVec.{array_vec_len};
ghost use Rattle.terms.specs.Numbers.{largest_quorum};
ghost use Rattle.drafts.specs.Says.{kept_checkpoint};
ghost use Rattle.protocol.specs.Changes.{agrees};
ghost use Rattle.protocol.specs.Replicas.{nothing_held};
ghost use Rattle.protocol.specs.Standing.{below_order, held};
ghost use Rattle.holdings.specs.Claimed.{agreeing, settles, settlement, kept_settlement};

use super::rooms::{MOST_PROOFS, SEATS};
use arrayvec::ArrayVec;
use drafts::{CheckpointDraft, Tagged};
use std::marker::Model;
use terms::Order;

/// A CHECKPOINT as it is held.
pub type Claim = Tagged<CheckpointDraft>;

/// CHECKPOINTs that prove a low mark.
pub type Proof = ArrayVec<Claim, { MOST_PROOFS }>;

/// For each seat the latest CHECKPOINT that is held of it.
#[derive(Drop)]
pub struct Claims {
    places: [Option<Claim>; SEATS],
}

impl Model for Claims {
    ghost use Rattle.std.specs.Prelude.{◌≡◌, List, Option, length, map};
    ghost use Rattle.std.specs.Option.{option_map};
    ghost use Rattle.terms.specs.Numbers.{largest_group};
    ghost use Rattle.parts.specs.Messages.{Checkpoint};
    ghost use Rattle.drafts.specs.Says.{kept_checkpoint};

    ghost Value = { List (Option Checkpoint) };

    ghost view = { λ c. map (option_map kept_checkpoint) c.places };

    ghost invariant = { λ c. length c.places ≡ largest_group };
}

impl Claims {
    /// Nothing is held of any seat.
    pub fn new() -> Claims
        ensures { result ≡ nothing_held }
    {
        Claims {
            places: [None; SEATS],
        }
    }

    /// What is held of a seat.
    pub fn of(&self, seat: u32) -> Option<Claim>
        ensures { option_map kept_checkpoint result ≡ slice_index_or self.now seat None }
    {
        self.places.get(seat as usize).copied().flatten()
    }

    /// Whether nothing is held of a seat, or a CHECKPOINT of a lower order.
    pub fn below(&self, seat: u32, order: Order) -> bool
        ensures { result ≡ below_order (slice_index_or self.now seat None) order.0 }
    {
        match self.of(seat) {
            Some(claim) => claim.draft.order < order,
            None => true,
        }
    }

    /// Holds a CHECKPOINT in its sender's place.
    #[tactic(auto, using(crate::proofs::Agreeing::held_set))]
    pub fn hold(&mut self, claim: Claim)
        ensures { self.new ≡ slice_set self.old claim.draft.sender (Some (kept_checkpoint claim)) }
    {
        let seat = claim.draft.sender as usize;
        if seat < self.places.len() {
            self.places[seat] = Some(claim);
        }
    }

    /// How many of those that are held agree with a CHECKPOINT.
    pub fn agreeing(&self, claim: &Claim) -> usize
        ensures { result ≡ length (agreeing (held self.now) (kept_checkpoint claim.now)) }
    {
        agreeing(&self.places, claim)
    }

    /// The first so many of them, the lowest seats first.
    pub fn first_agreeing(&self, claim: &Claim, most: u32) -> Proof
        requires few { most ≤ largest_quorum }
        ensures { map kept_checkpoint result.items ≡ take most (agreeing (held self.now) (kept_checkpoint claim.now)) }
    {
        first_agreeing(&self.places, claim, most)
    }

    /// Where the low mark moves, if it moves, and the CHECKPOINTs that prove it. It moves to the first that is held
    /// which is above it, which the count has reached, and with which a quorum agrees.
    pub fn settled(&self, low: Order, count: u32, quorum: u32) -> Option<(Order, Proof)>
        requires few { quorum ≤ largest_quorum }
        ensures { option_map kept_settlement result ≡ settlement low.0 count quorum (held self.now) }
    {
        let claim = self.settling(low, count, quorum)?;
        let proof = self.first_agreeing(&claim, quorum);
        Some((claim.draft.order, proof))
    }

    // The first that is held to which the low mark may move.
    fn settling(&self, low: Order, count: u32, quorum: u32) -> Option<Claim>
        ensures { option_map kept_checkpoint result ≡ find (settles low.0 count quorum (held self.now)) (held self.now) }
    {
        settling(&self.places, low, count, quorum)
    }
}

// Whether two CHECKPOINTs are of one order, with one digest.
fn agree(one: &Claim, other: &Claim) -> bool
    ensures { result ≡ agrees (kept_checkpoint one.now) (kept_checkpoint other.now) }
{
    one.draft.order == other.draft.order && one.draft.digest == other.draft.digest
}

// How many of those that are held agree with a CHECKPOINT, by what they are.
fn agreeing(places: &[Option<Claim>], claim: &Claim) -> usize
    ensures { result ≡ length (agreeing (held (map (option_map kept_checkpoint) places.now)) (kept_checkpoint claim.now)) }
{
    agreeing_count(places, claim)
}

// How many of those that are held agree with a CHECKPOINT.
fn agreeing_count(places: &[Option<Claim>], claim: &Claim) -> usize
    ensures { result ≡ count_by (λ t. agrees (kept_checkpoint claim.now) (kept_checkpoint t)) (held places.now) }
{
    places
        .iter()
        .filter_map(|place| *place)
        .filter(|held| agree(claim, held))
        .count()
}

// The first so many that agree with a CHECKPOINT.
fn first_agreeing(places: &[Option<Claim>], claim: &Claim, most: u32) -> Proof
    requires few { most ≤ largest_quorum }
    ensures { map kept_checkpoint result.items ≡ take most (agreeing (held (map (option_map kept_checkpoint) places.now)) (kept_checkpoint claim.now)) }
{
    let mut proof = ArrayVec::new();
    for place in places {
        add_agreeing(&mut proof, place, claim, most);
    }
    proof
}

// Adds what is held in a place, if it agrees and so many are not there yet.
fn add_agreeing(proof: &mut Proof, place: &Option<Claim>, claim: &Claim, most: u32)
    requires few { most ≤ largest_quorum }
    requires room { array_vec_len proof.old ≤ most }
    ensures few { array_vec_len proof.new ≤ most }
    ensures made { map kept_checkpoint proof.new.items ≡ take most (map kept_checkpoint proof.old.items ++ agreeing (held (option_map kept_checkpoint place.now ∷ [])) (kept_checkpoint claim.now)) }
{
    let Some(held) = place else {
        return;
    };
    if agree(claim, held) && proof.len() < most as usize {
        proof.push(*held);
    }
}

// The first that is held to which the low mark may move.
fn settling(places: &[Option<Claim>], low: Order, count: u32, quorum: u32) -> Option<Claim>
    ensures { result ≡ find (λ t. settles low.0 count quorum (held (map (option_map kept_checkpoint) places.now)) (kept_checkpoint t)) (held places.now) }
{
    places
        .iter()
        .filter_map(|place| *place)
        .find(|claim| settles(places, claim, low, count, quorum))
}

// Whether the low mark may move to a CHECKPOINT.
fn settles(places: &[Option<Claim>], claim: &Claim, low: Order, count: u32, quorum: u32) -> bool
    ensures { result ≡ settles low.0 count quorum (held (map (option_map kept_checkpoint) places.now)) (kept_checkpoint claim.now) }
{
    let order = claim.draft.order;
    order > low && order.0 <= count && agreeing(places, claim) >= quorum as usize
}
