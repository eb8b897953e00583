// CHECKPOINT: a replica tells the digest of its register behind the request of an order.
ghost use Rattle.std.specs.Prelude.{◌≡◌, length, slice_get};
ghost use Rattle.std.specs.Iterator.{YieldsFirst, item_count};
ghost use Rattle.std.specs.Option.{option_map};
ghost use Rattle.terms.specs.Numbers.{largest_quorum};
ghost use Rattle.xdr.specs.Reading.{value_and_rest, list_from};
ghost use Rattle.parts.specs.Reading.{checkpoint_from};

use super::delivered::{Delivered, before, untagged};
use super::fields::{CHECKPOINT, CHECKPOINT_COUNTER};
use super::nested::Nested;
use counter::{Kind, Statement};
use std::marker::Model;
use terms::{DIGEST_BYTES, GroupSize, LARGEST_QUORUM, Order, TAG_BYTES};
use xdr::{Number, read_opaque};

/// A CHECKPOINT, as a part of delivered bytes.
#[derive(Drop)]
pub struct Checkpoint<'a> {
    pub sender: u32,
    pub order: Order,
    pub digest: &'a [u8; DIGEST_BYTES],
    pub tag: &'a [u8; TAG_BYTES],
    bytes: &'a [u8],
}

impl<'a> Model for Checkpoint<'a> {
    ghost use Rattle.parts.specs.Messages.{Checkpoint};

    ghost Value = { Checkpoint };

    ghost use Rattle.parts.specs.Fits.{CheckpointStands};

    ghost view = { λ c. record { sender = c.sender; order = c.order.0; digest = c.digest.now; tag = c.tag.now } };

    ghost invariant = { λ c. CheckpointStands c.bytes.now (record { sender = c.sender; order = c.order.0; digest = c.digest.now; tag = c.tag.now }) };
}

impl<'a> Delivered<'a> for Checkpoint<'a> {
    ghost use Rattle.std.specs.Prelude.{◌≡◌};
    ghost use Rattle.parts.specs.Encoding.{checkpoint_type, encode_checkpoint};
    ghost use Rattle.parts.specs.Fits.{CheckpointFits};
    ghost use Rattle.parts.specs.Reading.{checkpoint_rest};
    ghost use Rattle.parts.specs.Statements.{checkpoint_says};

    ghost number = { checkpoint_type };

    ghost fits = { CheckpointFits };

    ghost layout = { encode_checkpoint };

    ghost rest_from = { checkpoint_rest };

    ghost says = { checkpoint_says };

    fn type_number() -> u32
        ensures { result ≡ checkpoint_type }
    {
        CHECKPOINT
    }

    #[tactic(auto, using(crate::proofs::Exactness::checkpoints_exact, crate::proofs::Fronts::checkpoint_front), unfolding(crate::specs::Reading::checkpoint_rest))]
    fn read_rest(bytes: &'a [u8], rest: &'a [u8]) -> Option<(Checkpoint<'a>, &'a [u8])> {
        let (sender, rest) = u32::read(rest)?;
        let (order, rest) = u32::read(rest)?;
        let (digest, rest) = read_opaque(rest)?;
        let (tag, rest) = read_opaque(rest)?;
        let checkpoint = Checkpoint {
            sender,
            order: Order(order),
            digest,
            tag,
            bytes: before(bytes, rest),
        };
        Some((checkpoint, rest))
    }

    #[tactic(auto, unfolding(crate::specs::Fits::CheckpointStands))]
    fn bytes(&self) -> &'a [u8] {
        self.bytes
    }

    #[tactic(auto, using(crate::proofs::Fronts::without_tag), unfolding(crate::specs::Fits::CheckpointStands))]
    fn statement(&self, _group: GroupSize) -> Statement<'a> {
        Statement {
            kind: Kind::Continuing.number(),
            seat: self.sender,
            number: CHECKPOINT_COUNTER,
            new: 0,
            old: 0,
            message: untagged(self.bytes),
        }
    }
}

/// The CHECKPOINTs that prove a low mark: at most the largest quorum of them.
#[derive(Drop)]
pub struct Checkpoints<'a> {
    list: Nested<'a>,
}

impl<'a> Model for Checkpoints<'a> {
    ghost use Rattle.std.specs.Prelude.{◌≡◌, List, length};
    ghost use Rattle.parts.specs.Messages.{Checkpoint};

    ghost Value = { List Checkpoint };

    ghost use Rattle.parts.specs.Lists.{listed};
    ghost use Rattle.parts.specs.Reading.{checkpoint_from};

    ghost view = { λ c. listed checkpoint_from c.list };

    ghost invariant = { λ c. length (listed checkpoint_from c.list) ≡ c.list.count };
}

impl<'a> Checkpoints<'a> {
    /// How many there are.
    pub fn len(&self) -> usize
        ensures { result ≡ length self.now }
    {
        self.list.len()
    }

    /// The one at a place from 0 on, if there is one.
    pub fn get(&self, place: usize) -> Option<Checkpoint<'a>>
        ensures { result ≡ slice_get self.now place }
    {
        self.list.get(place)
    }

    /// All of them, one after the other.
    pub fn iter(&self) -> CheckpointIter<'a>
        ensures { result ≡ self.now }
    {
        CheckpointIter { left: self.list }
    }

    // Reads a counted list of them.
    pub fn read(bytes: &'a [u8]) -> Option<(Checkpoints<'a>, &'a [u8])>
        ensures { option_map value_and_rest result ≡ list_from checkpoint_from largest_quorum bytes.now }
    {
        let (list, rest) = Nested::read::<Checkpoint>(bytes, LARGEST_QUORUM)?;
        Some((Checkpoints { list }, rest))
    }
}

/// The CHECKPOINTs that are left of a list.
#[derive(Drop)]
pub struct CheckpointIter<'a> {
    left: Nested<'a>,
}

impl<'a> Model for CheckpointIter<'a> {
    ghost use Rattle.std.specs.Prelude.{List};
    ghost use Rattle.parts.specs.Messages.{Checkpoint};

    ghost Value = { List Checkpoint };

    ghost use Rattle.parts.specs.Lists.{listed};
    ghost use Rattle.parts.specs.Reading.{checkpoint_from};

    ghost view = { λ i. listed checkpoint_from i.left };
}

impl<'a> Iterator for CheckpointIter<'a> {
    type Item = Checkpoint<'a>;

    ghost next_gives = { YieldsFirst (λ left. left) };

    ghost remaining = { item_count (λ left. left) };

    fn next(&mut self) -> Option<Checkpoint<'a>> {
        let (checkpoint, others) = self.left.split_first()?;
        self.left = others;
        Some(checkpoint)
    }
}
