// COMMIT: a follower votes for a request that its leader proposed.
ghost use Rattle.std.specs.Prelude.{◌≡◌};

use super::delivered::{Delivered, before, untagged};
use super::fields::{COMMIT, ORDER_COUNTER, request_of};
use counter::{Kind, Statement};
use std::marker::Model;
use terms::{GroupSize, Order, REQUEST_BYTES, Request, TAG_BYTES, View, pair};
use xdr::{Number, read_opaque};

/// A COMMIT, as a part of delivered bytes.
#[derive(Drop)]
pub struct Commit<'a> {
    pub sender: u32,
    pub view: View,
    pub order: Order,
    pub tag: &'a [u8; TAG_BYTES],
    request: &'a [u8; REQUEST_BYTES],
    bytes: &'a [u8],
}

impl<'a> Model for Commit<'a> {
    ghost use Rattle.parts.specs.Messages.{Commit};

    ghost Value = { Commit };

    ghost use Rattle.parts.specs.Fits.{CommitStands};
    ghost use Rattle.parts.specs.Reading.{request_of};

    ghost view = { λ c. record { sender = c.sender; view = c.view.0; order = c.order.0; request = request_of c.request.now; tag = c.tag.now } };

    ghost invariant = { λ c. CommitStands c.bytes.now (record { sender = c.sender; view = c.view.0; order = c.order.0; request = request_of c.request.now; tag = c.tag.now }) };
}

impl<'a> Commit<'a> {
    /// The request's five numbers.
    pub fn request(&self) -> Request
        ensures { result ≡ self.now.request }
    {
        request_of(self.request)
    }
}

impl<'a> Delivered<'a> for Commit<'a> {
    ghost use Rattle.std.specs.Prelude.{◌≡◌};
    ghost use Rattle.parts.specs.Encoding.{commit_type, encode_commit};
    ghost use Rattle.parts.specs.Fits.{CommitFits};
    ghost use Rattle.parts.specs.Reading.{commit_rest};
    ghost use Rattle.parts.specs.Statements.{commit_says};

    ghost number = { commit_type };

    ghost fits = { CommitFits };

    ghost layout = { encode_commit };

    ghost rest_from = { commit_rest };

    ghost says = { commit_says };

    fn type_number() -> u32
        ensures { result ≡ commit_type }
    {
        COMMIT
    }

    #[tactic(auto, using(crate::proofs::Exactness::commits_exact, crate::proofs::Fronts::commit_front), unfolding(crate::specs::Reading::commit_rest))]
    fn read_rest(bytes: &'a [u8], rest: &'a [u8]) -> Option<(Commit<'a>, &'a [u8])> {
        let (sender, rest) = u32::read(rest)?;
        let (view, rest) = u32::read(rest)?;
        let (order, rest) = u32::read(rest)?;
        let (request, rest) = read_opaque(rest)?;
        let (tag, rest) = read_opaque(rest)?;
        let commit = Commit {
            sender,
            view: View(view),
            order: Order(order),
            tag,
            request,
            bytes: before(bytes, rest),
        };
        Some((commit, rest))
    }

    #[tactic(auto, unfolding(crate::specs::Fits::CommitStands))]
    fn bytes(&self) -> &'a [u8] {
        self.bytes
    }

    #[tactic(auto, using(crate::proofs::Fronts::without_tag), unfolding(crate::specs::Fits::CommitStands))]
    fn statement(&self, _group: GroupSize) -> Statement<'a> {
        Statement {
            kind: Kind::Independent.number(),
            seat: self.sender,
            number: ORDER_COUNTER,
            new: pair(self.view, self.order),
            old: 0,
            message: untagged(self.bytes),
        }
    }
}
