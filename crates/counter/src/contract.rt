// The traits `Checker` and `Counter`: all that anybody may know of a trusted counter.
ghost use Rattle.std.specs.Prelude.{◌≡◌, ℕ, ◌^◌, ◌<◌, true, List, length, slice_index};
ghost use Rattle.std.specs.Str.{bytes_eq};
ghost use Rattle.terms.specs.Numbers.{tag_bytes};
ghost use Rattle.terms.specs.Quorums.{group_sized};
ghost use Rattle.counter.specs.Certificates.{counters, value_read, certified};
ghost use Rattle.counter.specs.Statements.{Stated, stated};

use super::kinds::Kind;
use super::statements::Statement;
use terms::{GroupSize, Refusal, TAG_BYTES};

/// A seat has so many counters, numbered from 0.
pub const COUNTERS: usize = 3;

/// For readers who issue nothing: a group and a tag rule.
pub trait Checker {
    /// The number of the group's seats.
    ghost size: { Self → ℕ };
    /// The tag rule: the tag of a statement.
    ghost rule: { Self → Stated → List ℕ };

    /// The group.
    fn group(&self) -> GroupSize
        ensures { result.seats ≡ size self.now };

    /// Whether the tag rule gives this tag for this statement, whatever stands in either.
    fn check(&self, statement: Statement, tag: &[u8]) -> bool
        ensures { result ≡ bytes_eq (rule self.now (stated statement.entry)) tag.now };

    ghost sized: { (c : Self) → group_sized (size c) ≡ true };

    ghost whole: { (c : Self) (s : Stated) → length (rule c s) ≡ tag_bytes };
}

/// A trusted counter: a checker with a seat and three values.
pub trait Counter: Checker {
    ghost seat: { Self → ℕ };

    ghost values: { Self → List ℕ };

    /// The counter's seat.
    fn seat(&self) -> u32
        ensures { result ≡ seat self.now };

    /// The value of the counter of this number, or refusal 24.
    fn value(&self, number: u32) -> Result<u64, Refusal>
        ensures { result ≡ value_read (values self.now) number };

    /// Sets the counter of this number to a new value and answers the tag of a certificate for the message; or refusal
    /// 24, or 25, and nothing changes.
    fn certify(
        &mut self,
        kind: Kind,
        number: u32,
        new: u64,
        message: &[u8],
    ) -> Result<[u8; TAG_BYTES], Refusal>
        ensures outcome { (result, values self.new) ≡ certified (Self.Checker.rule self.old) (seat self.old) (values self.old) kind number new message.now }
        ensures same_seat { seat self.new ≡ seat self.old }
        ensures same_size { Self.Checker.size self.new ≡ Self.Checker.size self.old }
        ensures same_rule { Self.Checker.rule self.new ≡ Self.Checker.rule self.old };

    ghost seated: { (c : Self) → seat c < Self.Checker.size c };

    ghost three: { (c : Self) → length (values c) ≡ counters };

    ghost fitting: { (c : Self) (k : ℕ) → slice_index (values c) k < 2 ^ 64 };
}
