// The seats of a group before its first call: their counters, and which of them are in other hands.
use super::services::Fresh;
use super::stops::Stop;
use cluster::Member;
use counter::{Counter, Seat};
use replica::Replica;
use std::alloc::{AllocError, Global};
use terms::GroupSize;

// A seat's counter.
#[derive(Drop)]
struct Place<C> {
    counter: C,
    in_other_hands: bool,
}

/// The seats of a group, from seat 0 on.
#[derive(Drop)]
pub struct Seats<C> {
    size: GroupSize,
    places: Vec<Place<C>>,
}

impl<C: Counter + Drop> Seats<C> {
    /// Seats with the counters that are made of them, none in other hands.
    pub fn fresh<F: Fn(Seat) -> C>(
        heap: Global,
        size: GroupSize,
        counter: F,
    ) -> Result<Seats<C>, AllocError>
        requires { F.IsAlwaysCallable counter }
    {
        let mut places = Vec::new(heap);
        for number in 0..size.seats() {
            // Every number below the group's size is a seat of it.
            if let Ok(seat) = Seat::new(size.seats(), number) {
                places.push(Place {
                    counter: counter(seat),
                    in_other_hands: false,
                })?;
            }
        }
        Ok(Seats { size, places })
    }

    /// The size of the group.
    pub fn size(&self) -> GroupSize {
        self.size
    }

    /// Gives a seat of ours into other hands.
    pub fn give_away(&mut self, number: u64, seat: u32) -> Result<(), Stop> {
        self.ours(number, seat)?.in_other_hands = true;
        Ok(())
    }

    /// The counter of a seat of ours.
    pub fn counter(&mut self, number: u64, seat: u32) -> Result<&mut C, Stop> {
        Ok(&mut self.ours(number, seat)?.counter)
    }

    // The place of a seat, which the entry on a line takes for one of ours.
    fn ours(&mut self, number: u64, seat: u32) -> Result<&mut Place<C>, Stop> {
        match self.places.get_mut(seat as usize) {
            Some(place) if !place.in_other_hands => Ok(place),
            _ => Err(Stop::NoReplica(number, seat)),
        }
    }

    /// The members of the group: a replica over a fresh service at each seat of ours, and the others' counters.
    pub fn members<S: Fresh + Drop>(self, heap: Global) -> Result<Vec<Member<C, S>>, AllocError> {
        let mut members = Vec::new(heap);
        for Place {
            counter,
            in_other_hands,
        } in self.places {
            members.push(if in_other_hands {
                Member::Counter(counter)
            } else {
                Member::Replica(Replica::new(counter, S::fresh(heap)?))
            })?;
        }
        Ok(members)
    }
}
