// What stands at a seat, and what an entry comes to there.
ghost use Rattle.std.specs.Prelude.{◌≡◌};
ghost use Rattle.cluster.specs.Entries.{acted_there, called};
ghost use Rattle.cluster.specs.Making.{seated};
ghost use Rattle.cluster.specs.Members.{place_of};
ghost use Rattle.protocol.specs.Meanings.{meaning};
ghost use Rattle.replica.specs.Standings.{standing_of};
ghost use Rattle.sha256.specs.Sha256.{sha256};

use super::entries::{Answer, Call, Entry};
use counter::Counter;
use replica::Replica;
use service::Service;
use terms::{GroupSize, Refusal};

/// What stands at a seat.
#[derive(Drop)]
pub enum Member<C: Counter, S: Service> {
    /// A replica: the seat keeps to the rules.
    Replica(Replica<C, S>),
    /// A counter alone: the seat is in other hands, and whatever they do, they have no other counter.
    Counter(C),
}

impl<C: Counter, S: Service> Member<C, S> {
    // Whether its counter is of this seat in this group.
    pub(crate) fn sits(&self, group: GroupSize, seat: usize) -> bool
        ensures { result ≡ seated group.seats seat (place_of C.size C.seat C.rule C.values S.state self.now) }
    {
        let (its_group, its_seat) = match self {
            Member::Replica(replica) => (replica.group(), replica.seat()),
            Member::Counter(counter) => (counter.group(), counter.seat()),
        };
        its_group == group && its_seat as usize == seat
    }

    // Plays an entry, if it is one for what stands here, or refusal 2.
    pub(crate) fn play(
        &mut self,
        entry: Entry<'_>,
        scratch: &mut [u8],
        out: &mut [u8],
    ) -> Result<Answer, Refusal>
        ensures { (result, place_of C.size C.seat C.rule C.values S.state self.new, (scratch.new, out.new)) ≡ acted_there (meaning S.next S.reply S.written sha256) (place_of C.size C.seat C.rule C.values S.state self.old) entry.entry (scratch.old, out.old) }
    {
        match self {
            Member::Replica(replica) => match entry {
                Entry::At { call, .. } => make(replica, call, scratch, out),
                Entry::Elsewhere { .. } => Err(Refusal::NoSuchSeat),
            },
            Member::Counter(counter) => match entry {
                Entry::At { .. } => Err(Refusal::NoSuchSeat),
                Entry::Elsewhere {
                    kind,
                    number,
                    new,
                    message,
                    ..
                } => {
                    let tag = counter.certify(kind, number, new, message)?;
                    Ok(Answer::Certified(tag))
                }
            },
        }
    }
}

// Makes a call on a replica.
fn make<C: Counter, S: Service>(
    replica: &mut Replica<C, S>,
    call: Call<'_>,
    scratch: &mut [u8],
    out: &mut [u8],
) -> Result<Answer, Refusal>
    ensures { (result, standing_of C.size C.seat C.rule C.values S.state replica.new, (scratch.new, out.new)) ≡ called (meaning S.next S.reply S.written sha256) (standing_of C.size C.seat C.rule C.values S.state replica.old) call.entry (scratch.old, out.old) }
{
    match call {
        Call::Ask(request) => {
            let (order, bytes) = replica.ask(request, out)?;
            Ok(Answer::Ordered(order, bytes))
        }
        Call::Take(message) => {
            let number = replica.take(message)?;
            Ok(Answer::Took(number))
        }
        Call::Vote => {
            let (order, bytes) = replica.vote(out)?;
            Ok(Answer::Ordered(order, bytes))
        }
        Call::CarryOut => {
            let (order, reply) = replica.carry_out()?;
            Ok(Answer::CarriedOut(order, reply))
        }
        Call::Mark => {
            let (order, bytes) = replica.mark(scratch, out)?;
            Ok(Answer::Ordered(order, bytes))
        }
        Call::Suspect => {
            let (view, bytes) = replica.suspect(out)?;
            Ok(Answer::Viewed(view, bytes))
        }
        Call::Open => {
            let (view, bytes) = replica.open(out)?;
            Ok(Answer::Viewed(view, bytes))
        }
    }
}
