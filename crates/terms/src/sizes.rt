// The group's size, and what follows from it: quorum, fault limit and leaders.
ghost use Rattle.std.specs.Prelude.{◌≡◌, ◌<◌, ◌≤◌, true, false, Ok, Err};
ghost use Rattle.terms.specs.Numbers.{smallest_group, largest_group};
ghost use Rattle.terms.specs.Quorums.{group_sized, quorum_of, fault_limit, leader_of, QuorumsMeet, FaultsBelowQuorum, SizesInFigures};

use super::constants::{LARGEST_GROUP, SMALLEST_GROUP};
use super::pairs::View;
use super::refusals::Refusal;

/// The number of a group's seats, checked to lie within the limits.
#[derive(Clone, Copy, PartialEq, Eq, Debug)]
pub struct GroupSize {
    seats: u32,
    ghost enough: { smallest_group ≤ seats },
    ghost few: { seats ≤ largest_group },
}

impl GroupSize {
    /// A group of so many seats, or refusal 1.
    pub fn new(seats: u32) -> Result<GroupSize, Refusal>
        ensures figures { SizesInFigures }
        ensures value { elim result [ Ok g ↦ (group_sized seats ≡ true) × (g.seats ≡ seats) | Err e ↦ (group_sized seats ≡ false) × (e ≡ Refusal.GroupSize) ] }
    {
        if !(SMALLEST_GROUP..=LARGEST_GROUP).contains(&seats) {
            return Err(Refusal::GroupSize);
        }
        Ok(GroupSize { seats })
    }

    /// The number of seats.
    pub fn seats(self) -> u32
        ensures { result ≡ self.seats }
    {
        self.seats
    }

    /// How many seats speak for the group. Any two quorums share a seat.
    pub fn quorum(self) -> u32
        ensures value { result ≡ quorum_of self.seats }
        ensures meet { QuorumsMeet }
    {
        self.seats / 2 + 1
    }

    /// How many seats may lie. They are fewer than a quorum.
    pub fn fault_limit(self) -> u32
        ensures value { result ≡ fault_limit self.seats }
        ensures below { FaultsBelowQuorum }
    {
        (self.seats - 1) / 2
    }

    /// The seat that leads a view.
    pub fn leader(self, view: View) -> u32
        ensures value { result ≡ leader_of self.seats view.0 }
        ensures seated { result < self.seats }
    {
        view.0 % self.seats
    }
}
