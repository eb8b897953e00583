// VIEW-CHANGE: a replica suspects the leader, asks for a new view and tells what it knows.
ghost use Rattle.std.specs.Prelude.{◌≡◌, length, slice_get};
ghost use Rattle.std.specs.Iterator.{YieldsFirst, item_count};
ghost use Rattle.std.specs.Option.{option_map};
ghost use Rattle.terms.specs.Numbers.{largest_quorum};
ghost use Rattle.xdr.specs.Reading.{value_and_rest, list_from};
ghost use Rattle.message.specs.Reading.{view_change_from};

use counter::{Kind, Statement};
use parts::{
    Checkpoints, Delivered, Nested, ORDER_COUNTER, Prepares, VIEW_CHANGE, before, untagged,
};
use std::marker::Model;
use terms::{GroupSize, LARGEST_QUORUM, Order, TAG_BYTES, View, pair};
use xdr::{Number, read_opaque};

/// A VIEW-CHANGE, as a part of delivered bytes.
#[derive(Drop)]
pub struct ViewChange<'a> {
    pub sender: u32,
    /// The view that it asks for.
    pub target: View,
    /// The value that its sender's counter had before.
    pub previous: u64,
    /// The view of its entries.
    pub from: View,
    /// Its low mark, and the CHECKPOINTs that prove it.
    pub low: Order,
    pub proof: Checkpoints<'a>,
    pub entries: Prepares<'a>,
    pub tag: &'a [u8; TAG_BYTES],
    bytes: &'a [u8],
}

impl<'a> Model for ViewChange<'a> {
    ghost use Rattle.message.specs.Messages.{ViewChange};

    ghost Value = { ViewChange };

    ghost use Rattle.message.specs.Fits.{ViewChangeStands};

    ghost view = { λ c. record { sender = c.sender; target = c.target.0; previous = c.previous; from = c.from.0; low = c.low.0; proof = c.proof; entries = c.entries; tag = c.tag.now } };

    ghost invariant = { λ c. ViewChangeStands c.bytes.now (record { sender = c.sender; target = c.target.0; previous = c.previous; from = c.from.0; low = c.low.0; proof = c.proof; entries = c.entries; tag = c.tag.now }) };
}

impl<'a> Delivered<'a> for ViewChange<'a> {
    ghost use Rattle.std.specs.Prelude.{◌≡◌};
    ghost use Rattle.parts.specs.Encoding.{view_change_type};
    ghost use Rattle.message.specs.Encoding.{encode_view_change};
    ghost use Rattle.message.specs.Fits.{ViewChangeFits};
    ghost use Rattle.message.specs.Reading.{view_change_rest};
    ghost use Rattle.message.specs.Statements.{view_change_says};

    ghost number = { view_change_type };

    ghost fits = { ViewChangeFits };

    ghost layout = { encode_view_change };

    ghost rest_from = { view_change_rest };

    ghost says = { view_change_says };

    fn type_number() -> u32
        ensures { result ≡ view_change_type }
    {
        VIEW_CHANGE
    }

    #[tactic(auto, using(crate::proofs::Exactness::view_changes_exact, crate::proofs::Fronts::view_change_front), unfolding(crate::specs::Reading::view_change_rest))]
    fn read_rest(bytes: &'a [u8], rest: &'a [u8]) -> Option<(ViewChange<'a>, &'a [u8])> {
        let (sender, rest) = u32::read(rest)?;
        let (target, rest) = u32::read(rest)?;
        let (previous, rest) = u64::read(rest)?;
        let (from, rest) = u32::read(rest)?;
        let (low, rest) = u32::read(rest)?;
        let (proof, rest) = Checkpoints::read(rest)?;
        let (entries, rest) = Prepares::read(rest)?;
        let (tag, rest) = read_opaque(rest)?;
        let change = ViewChange {
            sender,
            target: View(target),
            previous,
            from: View(from),
            low: Order(low),
            proof,
            entries,
            tag,
            bytes: before(bytes, rest),
        };
        Some((change, rest))
    }

    #[tactic(auto, unfolding(crate::specs::Fits::ViewChangeStands))]
    fn bytes(&self) -> &'a [u8] {
        self.bytes
    }

    #[tactic(auto, using(parts::proofs::Fronts::without_tag), unfolding(crate::specs::Fits::ViewChangeStands))]
    fn statement(&self, _group: GroupSize) -> Statement<'a> {
        Statement {
            kind: Kind::Continuing.number(),
            seat: self.sender,
            number: ORDER_COUNTER,
            new: pair(self.target, Order(0)),
            old: self.previous,
            message: untagged(self.bytes),
        }
    }
}

/// The VIEW-CHANGEs in a NEW-VIEW: at most the largest quorum of them.
#[derive(Drop)]
pub struct ViewChanges<'a> {
    list: Nested<'a>,
}

impl<'a> Model for ViewChanges<'a> {
    ghost use Rattle.std.specs.Prelude.{◌≡◌, List, length};
    ghost use Rattle.message.specs.Messages.{ViewChange};

    ghost Value = { List ViewChange };

    ghost use Rattle.parts.specs.Lists.{listed};
    ghost use Rattle.message.specs.Reading.{view_change_from};

    ghost view = { λ c. listed view_change_from c.list };

    ghost invariant = { λ c. length (listed view_change_from c.list) ≡ c.list.count };
}

impl<'a> ViewChanges<'a> {
    /// How many there are.
    pub fn len(&self) -> usize
        ensures { result ≡ length self.now }
    {
        self.list.len()
    }

    /// The one at a place from 0 on, if there is one.
    pub fn get(&self, place: usize) -> Option<ViewChange<'a>>
        ensures { result ≡ slice_get self.now place }
    {
        self.list.get(place)
    }

    /// All of them, one after the other.
    pub fn iter(&self) -> ViewChangeIter<'a>
        ensures { result ≡ self.now }
    {
        ViewChangeIter { left: self.list }
    }

    // Reads a counted list of them.
    pub(crate) fn read(bytes: &'a [u8]) -> Option<(ViewChanges<'a>, &'a [u8])>
        ensures { option_map value_and_rest result ≡ list_from view_change_from largest_quorum bytes.now }
    {
        let (list, rest) = Nested::read::<ViewChange>(bytes, LARGEST_QUORUM)?;
        Some((ViewChanges { list }, rest))
    }
}

/// The VIEW-CHANGEs that are left of a list.
#[derive(Drop)]
pub struct ViewChangeIter<'a> {
    left: Nested<'a>,
}

impl<'a> Model for ViewChangeIter<'a> {
    ghost use Rattle.std.specs.Prelude.{List};
    ghost use Rattle.message.specs.Messages.{ViewChange};

    ghost Value = { List ViewChange };

    ghost use Rattle.parts.specs.Lists.{listed};
    ghost use Rattle.message.specs.Reading.{view_change_from};

    ghost view = { λ i. listed view_change_from i.left };
}

impl<'a> Iterator for ViewChangeIter<'a> {
    type Item = ViewChange<'a>;

    ghost next_gives = { YieldsFirst (λ left. left) };

    ghost remaining = { item_count (λ left. left) };

    fn next(&mut self) -> Option<ViewChange<'a>> {
        let (change, others) = self.left.split_first()?;
        self.left = others;
        Some(change)
    }
}
