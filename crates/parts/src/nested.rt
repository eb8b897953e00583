// Messages of one kind that stand one behind the other in another message.
ghost use Rattle.std.specs.Prelude.{◌≡◌, [], ◌∷◌, length, slice_get, IfSome, MatchOption};
ghost use Rattle.std.specs.Option.{option_map};
ghost use Rattle.xdr.specs.Reading.{list_from};
ghost use Rattle.parts.specs.Lists.{listed, listed_and_rest};
ghost use Rattle.parts.specs.Reading.{of_type};

use super::delivered::{Delivered, read_nested};
use xdr::read_count;

// How many messages there are, and the bytes in which they stand.
#[derive(Clone, Copy)]
pub struct Nested<'a> {
    count: u32,
    bytes: &'a [u8],
}

impl<'a> Nested<'a> {
    // Reads a counted list of at most so many messages.
    pub fn read<M: Delivered<'a>>(bytes: &'a [u8], most: u32) -> Option<(Nested<'a>, &'a [u8])>
        ensures all { IfSome result (λ p. length (listed (of_type M.Delivered.number M.Delivered.rest_from) p.0) ≡ p.0.count) }
        ensures value { option_map (listed_and_rest (of_type M.Delivered.number M.Delivered.rest_from)) result ≡ list_from (of_type M.Delivered.number M.Delivered.rest_from) most bytes.now }
    {
        let (count, bytes) = read_count(bytes, most)?;
        let mut rest = bytes;
        for _ in 0..count {
            let (_, behind) = read_nested::<M>(rest)?;
            rest = behind;
        }
        Some((Nested { count, bytes }, rest))
    }

    // How many messages there are.
    pub fn len(&self) -> usize
        ensures { result ≡ self.now.count }
    {
        self.count as usize
    }

    // The message at a place, if there is one.
    pub fn get<M: Delivered<'a>>(&self, place: usize) -> Option<M>
        ensures { result ≡ slice_get (listed (of_type M.Delivered.number M.Delivered.rest_from) self.now) place }
    {
        if place >= self.count as usize {
            return None;
        }
        let mut rest = self.bytes;
        for _ in 0..place {
            let (_, behind) = read_nested::<M>(rest)?;
            rest = behind;
        }
        let (message, _) = read_nested::<M>(rest)?;
        Some(message)
    }

    // The first message and the others behind it, if there is one.
    #[tactic(auto, using(crate::proofs::Lists::none_first, crate::proofs::Lists::items_end, crate::proofs::Lists::one_first))]
    pub fn split_first<M: Delivered<'a>>(&self) -> Option<(M, Nested<'a>)>
        ensures { MatchOption result (listed (of_type M.Delivered.number M.Delivered.rest_from) self.now ≡ []) (λ p. listed (of_type M.Delivered.number M.Delivered.rest_from) self.now ≡ p.0 ∷ listed (of_type M.Delivered.number M.Delivered.rest_from) p.1) }
    {
        if self.count == 0 {
            return None;
        }
        let (message, bytes) = read_nested(self.bytes)?;
        let count = self.count - 1;
        Some((message, Nested { count, bytes }))
    }
}
