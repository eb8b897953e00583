// Checkers by any tag function: a key and the number of seats, for readers who issue nothing.
ghost use Rattle.std.specs.Prelude.{◌≡◌, true, false, Ok, Err};
ghost use Rattle.terms.specs.Quorums.{group_sized};
ghost use Rattle.counter.specs.Statements.{stated};
ghost use Rattle.counters.specs.Rules.{tag_rule};
ghost use Rattle.std.proofs.Common.{rules};

use super::macs::Mac;
use super::tags::same_tag;
use counter::{Checker, Statement};
use terms::{GroupSize, Refusal, TAG_BYTES};

/// A checker under a key. It hands the key to nobody.
#[derive(Drop)]
pub struct TagChecker<M: Mac> {
    group: GroupSize,
    mac: M,
}

impl<M: Mac> TagChecker<M> {
    /// A checker for a group of so many seats, or refusal 1.
    pub fn new(seats: u32, key: &M::Key) -> Result<TagChecker<M>, Refusal>
        ensures { elim result [ Ok c ↦ (group_sized seats ≡ true) × (c.group.seats ≡ seats) × (M.Mac.tags c.mac ≡ M.Mac.keyed key.now) | Err e ↦ (group_sized seats ≡ false) × (e ≡ Refusal.GroupSize) ] }
    {
        let group = GroupSize::new(seats)?;
        Ok(TagChecker::keyed(group, key))
    }

    // A checker for a group.
    pub(crate) fn keyed(group: GroupSize, key: &M::Key) -> TagChecker<M>
        ensures group { result.group ≡ group }
        ensures tags { M.Mac.tags result.mac ≡ M.Mac.keyed key.now }
    {
        TagChecker {
            group,
            mac: M::ready(key),
        }
    }

    // The tag of a statement.
    pub(crate) fn tag(&self, statement: Statement) -> [u8; TAG_BYTES]
        ensures { result ≡ tag_rule (M.Mac.tags self.now.mac) (stated statement.entry) }
    {
        self.mac.tag(&statement.head(), statement.message)
    }
}

impl<M: Mac> Checker for TagChecker<M> {
    ghost size = { λ c. c.group.seats };

    ghost rule = { λ c. tag_rule (M.Mac.tags c.mac) };

    ghost sized = { Prim.search rules };

    ghost whole = { Prim.search rules };

    fn group(&self) -> GroupSize {
        self.group
    }

    fn check(&self, statement: Statement, tag: &[u8]) -> bool {
        same_tag(&self.tag(statement), tag)
    }
}
