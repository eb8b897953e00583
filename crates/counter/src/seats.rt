// A seat that was checked and waits for its counter.
ghost use Rattle.std.specs.Prelude.{◌≡◌, ◌<◌};
ghost use Rattle.std.specs.Result.{result_map_both};
ghost use Rattle.counter.specs.Laws.{CounterLaws};
ghost use Rattle.counter.specs.Seats.{seat_checked};

use terms::{GroupSize, Refusal};

/// A seat of a group. A key turns it into a counter, and the seat is used up: it is neither `Copy` nor `Clone`, so a
/// second counter from the same seat does not build.
#[derive(Drop)]
pub struct Seat {
    group: GroupSize,
    number: u32,
    ghost inside: { number < group.seats },
}

impl Seat {
    /// The seat of this number in a group of so many, or refusal 1 or 2.
    pub fn new(seats: u32, number: u32) -> Result<Seat, Refusal>
        ensures { result_map_both (λ s. (s.group.seats, s.number)) (λ e. e) result ≡ seat_checked seats number }
    {
        let group = GroupSize::new(seats)?;
        if number >= group.seats() {
            return Err(Refusal::NoSuchSeat);
        }
        Ok(Seat { group, number })
    }

    /// The group, and the seat's number in it. The seat is used up. Every counter begins here, so here stands what
    /// every counter owes.
    pub fn taken(self) -> (GroupSize, u32)
        ensures group { result.0 ≡ self.group }
        ensures number { result.1 ≡ self.number }
        ensures laws { CounterLaws }
    {
        let Seat { group, number } = self;
        (group, number)
    }
}
