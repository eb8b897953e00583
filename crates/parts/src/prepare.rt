// PREPARE: the leader of a view proposes a request for an order.
ghost use Rattle.std.specs.Prelude.{◌≡◌, length, slice_get};
ghost use Rattle.std.specs.Iterator.{YieldsFirst, item_count};
ghost use Rattle.std.specs.Option.{option_map};
ghost use Rattle.terms.specs.Numbers.{window};
ghost use Rattle.xdr.specs.Reading.{value_and_rest, list_from};
ghost use Rattle.parts.specs.Reading.{prepare_from};

use super::delivered::{Delivered, before, untagged};
use super::fields::{ORDER_COUNTER, PREPARE, request_of};
use super::nested::Nested;
use counter::{Kind, Statement};
use std::marker::Model;
use terms::{GroupSize, Order, REQUEST_BYTES, Request, TAG_BYTES, View, WINDOW, pair};
use xdr::{Number, read_opaque};

/// A PREPARE, as a part of delivered bytes.
#[derive(Drop)]
pub struct Prepare<'a> {
    pub view: View,
    pub order: Order,
    pub tag: &'a [u8; TAG_BYTES],
    request: &'a [u8; REQUEST_BYTES],
    bytes: &'a [u8],
}

impl<'a> Model for Prepare<'a> {
    ghost use Rattle.parts.specs.Messages.{Prepare};

    ghost Value = { Prepare };

    ghost use Rattle.parts.specs.Fits.{PrepareStands};
    ghost use Rattle.parts.specs.Reading.{request_of};

    ghost view = { λ p. record { view = p.view.0; order = p.order.0; request = request_of p.request.now; tag = p.tag.now } };

    ghost invariant = { λ p. PrepareStands p.bytes.now (record { view = p.view.0; order = p.order.0; request = request_of p.request.now; tag = p.tag.now }) };
}

impl<'a> Prepare<'a> {
    /// The request's five numbers.
    pub fn request(&self) -> Request
        ensures { result ≡ self.now.request }
    {
        request_of(self.request)
    }
}

impl<'a> Delivered<'a> for Prepare<'a> {
    ghost use Rattle.std.specs.Prelude.{◌≡◌};
    ghost use Rattle.parts.specs.Encoding.{prepare_type, encode_prepare};
    ghost use Rattle.parts.specs.Fits.{PrepareFits};
    ghost use Rattle.parts.specs.Reading.{prepare_rest};
    ghost use Rattle.parts.specs.Statements.{prepare_says};

    ghost number = { prepare_type };

    ghost fits = { PrepareFits };

    ghost layout = { encode_prepare };

    ghost rest_from = { prepare_rest };

    ghost says = { prepare_says };

    fn type_number() -> u32
        ensures { result ≡ prepare_type }
    {
        PREPARE
    }

    #[tactic(auto, using(crate::proofs::Exactness::prepares_exact, crate::proofs::Fronts::prepare_front), unfolding(crate::specs::Reading::prepare_rest))]
    fn read_rest(bytes: &'a [u8], rest: &'a [u8]) -> Option<(Prepare<'a>, &'a [u8])> {
        let (view, rest) = u32::read(rest)?;
        let (order, rest) = u32::read(rest)?;
        let (request, rest) = read_opaque(rest)?;
        let (tag, rest) = read_opaque(rest)?;
        let prepare = Prepare {
            view: View(view),
            order: Order(order),
            tag,
            request,
            bytes: before(bytes, rest),
        };
        Some((prepare, rest))
    }

    #[tactic(auto, unfolding(crate::specs::Fits::PrepareStands))]
    fn bytes(&self) -> &'a [u8] {
        self.bytes
    }

    #[tactic(auto, using(crate::proofs::Fronts::without_tag), unfolding(crate::specs::Fits::PrepareStands))]
    fn statement(&self, group: GroupSize) -> Statement<'a> {
        Statement {
            kind: Kind::Independent.number(),
            seat: group.leader(self.view),
            number: ORDER_COUNTER,
            new: pair(self.view, self.order),
            old: 0,
            message: untagged(self.bytes),
        }
    }
}

/// The PREPAREs in a VIEW-CHANGE or a NEW-VIEW: at most a window of them.
#[derive(Drop)]
pub struct Prepares<'a> {
    list: Nested<'a>,
}

impl<'a> Model for Prepares<'a> {
    ghost use Rattle.std.specs.Prelude.{◌≡◌, List, length};
    ghost use Rattle.parts.specs.Messages.{Prepare};

    ghost Value = { List Prepare };

    ghost use Rattle.parts.specs.Lists.{listed};
    ghost use Rattle.parts.specs.Reading.{prepare_from};

    ghost view = { λ p. listed prepare_from p.list };

    ghost invariant = { λ p. length (listed prepare_from p.list) ≡ p.list.count };
}

impl<'a> Prepares<'a> {
    /// How many there are.
    pub fn len(&self) -> usize
        ensures { result ≡ length self.now }
    {
        self.list.len()
    }

    /// The one at a place from 0 on, if there is one.
    pub fn get(&self, place: usize) -> Option<Prepare<'a>>
        ensures { result ≡ slice_get self.now place }
    {
        self.list.get(place)
    }

    /// All of them, one after the other.
    pub fn iter(&self) -> PrepareIter<'a>
        ensures { result ≡ self.now }
    {
        PrepareIter { left: self.list }
    }

    // Reads a counted list of them.
    pub fn read(bytes: &'a [u8]) -> Option<(Prepares<'a>, &'a [u8])>
        ensures { option_map value_and_rest result ≡ list_from prepare_from window bytes.now }
    {
        let (list, rest) = Nested::read::<Prepare>(bytes, WINDOW)?;
        Some((Prepares { list }, rest))
    }
}

/// The PREPAREs that are left of a list.
#[derive(Drop)]
pub struct PrepareIter<'a> {
    left: Nested<'a>,
}

impl<'a> Model for PrepareIter<'a> {
    ghost use Rattle.std.specs.Prelude.{List};
    ghost use Rattle.parts.specs.Messages.{Prepare};

    ghost Value = { List Prepare };

    ghost use Rattle.parts.specs.Lists.{listed};
    ghost use Rattle.parts.specs.Reading.{prepare_from};

    ghost view = { λ i. listed prepare_from i.left };
}

impl<'a> Iterator for PrepareIter<'a> {
    type Item = Prepare<'a>;

    ghost next_gives = { YieldsFirst (λ left. left) };

    ghost remaining = { item_count (λ left. left) };

    fn next(&mut self) -> Option<Prepare<'a>> {
        let (prepare, others) = self.left.split_first()?;
        self.left = others;
        Some(prepare)
    }
}
