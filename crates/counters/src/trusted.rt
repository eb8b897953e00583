// Trusted counters by any tag function: a seat that a key turned into a counter.
ghost use Rattle.std.specs.Prelude.{◌≡◌, ℕ, ◌^◌, ◌<◌, length, slice_index};
ghost use Rattle.counter.specs.Certificates.{counters, fresh_values};
ghost use Rattle.counters.specs.Rules.{tag_rule};
ghost use Rattle.std.proofs.Common.{rules, arith};

use super::checkers::TagChecker;
use super::macs::{AesCmac, HmacSha256, Mac};
use counter::{COUNTERS, Checker, Counter, Kind, Seat, Statement};
use terms::{GroupSize, Refusal, TAG_BYTES};

/// A trusted counter under a key. It is neither `Copy` nor `Clone`: a copy could certify a value a second time.
#[derive(Drop)]
pub struct TrustedCounter<M: Mac> {
    checker: TagChecker<M>,
    seat: u32,
    values: [u64; COUNTERS],
    ghost seated: { seat < checker.group.seats },
    ghost three: { length values ≡ counters },
    ghost fitting: { (k : ℕ) → slice_index values k < 2 ^ 64 },
}

/// A counter by HMAC-SHA-256, with a key of 32 bytes.
pub type HmacCounter = TrustedCounter<HmacSha256>;

/// A counter by AES-CMAC, with a key of 16 bytes.
pub type CmacCounter = TrustedCounter<AesCmac>;

impl<M: Mac> TrustedCounter<M> {
    /// Turns a seat into a fresh counter, all of whose values are 0. The seat is used up.
    pub fn new(seat: Seat, key: &M::Key) -> TrustedCounter<M>
        ensures group { result.checker.group ≡ seat.group }
        ensures seat { result.seat ≡ seat.number }
        ensures values { result.values ≡ fresh_values }
        ensures tags { M.Mac.tags result.checker.mac ≡ M.Mac.keyed key.now }
    {
        let (group, number) = seat.taken();
        TrustedCounter {
            checker: TagChecker::keyed(group, key),
            seat: number,
            values: [0; COUNTERS],
        }
    }
}

impl<M: Mac> Checker for TrustedCounter<M> {
    ghost size = { λ c. c.checker.group.seats };

    ghost rule = { λ c. tag_rule (M.Mac.tags c.checker.mac) };

    ghost sized = { Prim.search rules };

    ghost whole = { Prim.search rules };

    fn group(&self) -> GroupSize {
        self.checker.group()
    }

    fn check(&self, statement: Statement, tag: &[u8]) -> bool {
        self.checker.check(statement, tag)
    }
}

impl<M: Mac> Counter for TrustedCounter<M> {
    ghost seat = { λ c. c.seat };

    ghost values = { λ c. c.values };

    ghost seated = { Prim.search rules };

    ghost three = { Prim.search rules };

    ghost fitting = { Prim.search rules };

    fn seat(&self) -> u32 {
        self.seat
    }

    fn value(&self, number: u32) -> Result<u64, Refusal> {
        let value = self.values.get(number as usize);
        value.copied().ok_or(Refusal::NoSuchCounter)
    }

    fn certify(
        &mut self,
        kind: Kind,
        number: u32,
        new: u64,
        message: &[u8],
    ) -> Result<[u8; TAG_BYTES], Refusal> {
        let present = self.value(number)?;
        if !kind.allows(present, new) {
            return Err(Refusal::ValueNotAllowed);
        }
        let tag = self.checker.tag(Statement {
            kind: kind.number(),
            seat: self.seat,
            number,
            new,
            old: kind.old_tagged(present),
            message,
        });
        self.values[number as usize] = new;
        Ok(tag)
    }
}
