// A group in one process, and its calls.
ghost use Rattle.std.specs.Prelude.{◌≡◌, true, false, Ok, Err, IfOk, map, slice_get};
ghost use Rattle.std.specs.List.{list_all, enumerate_from};
ghost use Rattle.std.specs.Option.{option_map};
ghost use Rattle.std.specs.Result.{result_map_both};
ghost use Rattle.terms.specs.Quorums.{group_sized};
ghost use Rattle.cluster.specs.Entries.{acted};
ghost use Rattle.cluster.specs.Making.{made, seated};
ghost use Rattle.cluster.specs.Members.{bare_of, place_of, places_of};
ghost use Rattle.cluster.specs.Places.{replica_at, counter_at, others_of};
ghost use Rattle.cluster.specs.Promises.{Begins, Follows, GoesOn, PlacesAgree};
ghost use Rattle.protocol.specs.Agreement.{GroupAgrees};
ghost use Rattle.protocol.specs.Meanings.{meaning};
ghost use Rattle.replica.specs.Standings.{standing_of};
ghost use Rattle.sha256.specs.Sha256.{sha256};

use super::entries::{Answer, Entry, entry_fits};
use super::members::Member;
use counter::Counter;
use replica::Replica;
use service::Service;
use terms::{GroupSize, Refusal};

/// A group in one process.
#[derive(Drop)]
pub struct Cluster<C: Counter, S: Service> {
    /// Seat k stands at place k.
    members: Vec<Member<C, S>>,
}

impl<C: Counter + Drop, S: Service + Drop> Cluster<C, S> {
    /// A group of these members, from seat 0 on; or refusal 1 where they are not 3 to 5, or refusal 2 where the counter
    /// at a place is not that of the place's seat in a group of so many.
    pub fn new(members: Vec<Member<C, S>>) -> Result<Cluster<C, S>, Refusal>
        ensures outcome { result_map_both (places_of C.size C.seat C.rule C.values S.state) (λ e. e) result ≡ made (map (place_of C.size C.seat C.rule C.values S.state) members.items) }
        ensures begins { IfOk result (λ c. Begins (meaning S.next S.reply S.written sha256) (places_of C.size C.seat C.rule C.values S.state c)) }
    {
        let group = group_of(members.len())?;
        if !all_sit(&members, group) {
            return Err(Refusal::NoSuchSeat);
        }
        Ok(Cluster { members })
    }
}

impl<C: Counter, S: Service> Cluster<C, S> {
    /// Its members, that of seat k at place k.
    pub fn members(&self) -> &[Member<C, S>]
        ensures { map (place_of C.size C.seat C.rule C.values S.state) result.now ≡ places_of C.size C.seat C.rule C.values S.state self.now }
    {
        self.members.as_slice()
    }

    /// The replica at a seat, if there is one.
    pub fn replica(&self, seat: u32) -> Option<&Replica<C, S>>
        ensures { option_map (λ r. standing_of C.size C.seat C.rule C.values S.state r.now) result ≡ replica_at (slice_get (places_of C.size C.seat C.rule C.values S.state self.now) seat) }
    {
        match self.members.get(seat as usize)? {
            Member::Replica(replica) => Some(replica),
            Member::Counter(_) => None,
        }
    }

    /// The counter at a seat, if it stands there alone.
    pub fn counter(&self, seat: u32) -> Option<&C>
        ensures { option_map (λ c. bare_of C.size C.seat C.rule C.values c.now) result ≡ counter_at (slice_get (places_of C.size C.seat C.rule C.values S.state self.now) seat) }
    {
        match self.members.get(seat as usize)? {
            Member::Replica(_) => None,
            Member::Counter(counter) => Some(counter),
        }
    }

    /// Plays an entry of a run, or refusal 2 where its seat is not one of the group, or has no replica for a call, or has
    /// one where a counter alone is asked for.
    pub fn play(
        &mut self,
        entry: Entry<'_>,
        scratch: &mut [u8],
        out: &mut [u8],
    ) -> Result<Answer, Refusal>
        ensures outcome { (result, places_of C.size C.seat C.rule C.values S.state self.new, (scratch.new, out.new)) ≡ acted (meaning S.next S.reply S.written sha256) (places_of C.size C.seat C.rule C.values S.state self.old) entry.entry (scratch.old, out.old) }
        ensures follows { Follows (meaning S.next S.reply S.written sha256) (places_of C.size C.seat C.rule C.values S.state self.old) entry.entry (scratch.old, out.old) (places_of C.size C.seat C.rule C.values S.state self.new) }
        ensures goes_on { GoesOn (meaning S.next S.reply S.written sha256) (places_of C.size C.seat C.rule C.values S.state self.old) entry.entry (scratch.old, out.old) (places_of C.size C.seat C.rule C.values S.state self.new) }
        ensures same_others { others_of (places_of C.size C.seat C.rule C.values S.state self.new) ≡ others_of (places_of C.size C.seat C.rule C.values S.state self.old) }
        ensures agreement { PlacesAgree (meaning S.next S.reply S.written sha256) (places_of C.size C.seat C.rule C.values S.state self.new) }
        ensures group { GroupAgrees (meaning S.next S.reply S.written sha256) }
    {
        entry_fits(entry);
        self.act(entry, scratch, out)
    }

    // Hands the entry to the member at its seat.
    fn act(
        &mut self,
        entry: Entry<'_>,
        scratch: &mut [u8],
        out: &mut [u8],
    ) -> Result<Answer, Refusal>
        ensures { (result, places_of C.size C.seat C.rule C.values S.state self.new, (scratch.new, out.new)) ≡ acted (meaning S.next S.reply S.written sha256) (places_of C.size C.seat C.rule C.values S.state self.old) entry.entry (scratch.old, out.old) }
    {
        let Some(member) = self.members.get_mut(entry.seat() as usize) else {
            return Err(Refusal::NoSuchSeat);
        };
        member.play(entry, scratch, out)
    }
}

// A group of so many seats, or refusal 1.
fn group_of(seats: usize) -> Result<GroupSize, Refusal>
    ensures { elim result [ Ok g ↦ (group_sized seats ≡ true) × (g.seats ≡ seats) | Err e ↦ (group_sized seats ≡ false) × (e ≡ Refusal.GroupSize) ] }
{
    let Ok(seats) = u32::try_from(seats) else {
        return Err(Refusal::GroupSize);
    };
    GroupSize::new(seats)
}

// Whether each member's counter is of the seat at which it stands.
fn all_sit<C: Counter, S: Service>(members: &[Member<C, S>], group: GroupSize) -> bool
    ensures { result ≡ list_all (λ p. seated group.seats p.0 (place_of C.size C.seat C.rule C.values S.state p.1)) (enumerate_from 0 members.now) }
{
    members
        .iter()
        .enumerate()
        .all(|(seat, member)| member.sits(group, seat))
}
