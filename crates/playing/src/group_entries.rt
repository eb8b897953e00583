// A group in play with what its replicas wrote, and what each entry does.
use super::groups::{Group, USUAL};
use super::letters::{Letter, Letters};
use super::rounds::{hand_out, pump};
use super::seats::Seats;
use super::services::Fresh;
use super::shows::show_replica;
use super::stops::Stop;
use cluster::{Call, Cluster};
use counter::Counter;
use script::{Asked, Called, GroupEntry, Lengths, Marked, SeatCertify, Taken};

/// A group in play, and what was written in it.
#[derive(Drop)]
pub struct GroupRun<C: Counter, S: Fresh> {
    group: Group<C, S>,
    letters: Letters,
}

impl<C: Counter + Drop, S: Fresh + Drop> GroupRun<C, S> {
    /// Begins with the seats for which the header on a line asked.
    pub fn new(rt: &HostRuntime, number: u64, seats: Seats<C>) -> Result<GroupRun<C, S>, Stop> {
        let size = seats.size();
        let members = seats.members(rt.alloc())?;
        let cluster = Cluster::new(members).map_err(|refusal| Stop::Refused(number, refusal))?;
        Ok(GroupRun {
            group: Group::new(cluster, size),
            letters: Letters::new(rt.alloc()),
        })
    }

    /// The group.
    pub fn group(&self) -> &Group<C, S> {
        &self.group
    }

    /// Plays the entry on a line.
    pub fn play(&mut self, rt: &HostRuntime, number: u64, entry: GroupEntry) -> Result<(), Stop> {
        match entry {
            GroupEntry::Other(_) | GroupEntry::Used(_) => Err(Stop::Begun(number)),
            GroupEntry::Ask(Asked { seat, request, out }) => {
                self.call(rt, number, seat, Call::Ask(request), out_of(out))
            }
            GroupEntry::Take(Taken { seat, bytes }) => {
                let bytes = self.letters.bytes_of(rt.alloc(), number, bytes)?;
                self.call(rt, number, seat, Call::Take(&bytes), USUAL)
            }
            GroupEntry::Vote(Called { seat, out }) => {
                self.call(rt, number, seat, Call::Vote, out_of(out))
            }
            GroupEntry::Carry(seat) => self.call(rt, number, seat, Call::CarryOut, USUAL),
            GroupEntry::Mark(Marked { seat, lengths }) => {
                self.call(rt, number, seat, Call::Mark, lengths)
            }
            GroupEntry::Suspect(Called { seat, out }) => {
                self.call(rt, number, seat, Call::Suspect, out_of(out))
            }
            GroupEntry::Open(Called { seat, out }) => {
                self.call(rt, number, seat, Call::Open, out_of(out))
            }
            GroupEntry::Show(seat) => self.show(rt, number, seat),
            GroupEntry::Certify(asked) => self.certify(rt, number, asked),
            GroupEntry::Deliver(line) => self.deliver(rt, number, line),
            GroupEntry::Pump => self.pump(rt, number),
        }
    }

    // Makes a call on the replica at a seat, prints how it ended, and keeps what it wrote.
    fn call(
        &mut self,
        rt: &HostRuntime,
        number: u64,
        seat: u32,
        call: Call,
        lengths: Lengths,
    ) -> Result<(), Stop> {
        if self.group.replica(seat).is_none() {
            return Err(Stop::NoReplica(number, seat));
        }
        let done = self.group.call(rt.alloc(), seat, call, lengths)?;
        println!(rt; "{number} {done}")?;
        if let Some(letter) = done.letter() {
            self.letters.keep(number, letter)?;
        }
        Ok(())
    }

    // Prints all that the replica at a seat holds.
    fn show(&self, rt: &HostRuntime, number: u64, seat: u32) -> Result<(), Stop> {
        let replica = self
            .group
            .replica(seat)
            .ok_or(Stop::NoReplica(number, seat))?;
        print!(rt; "{number} show {seat} ")?;
        show_replica(rt, replica)
    }

    // Asks the counter of a seat in other hands for a certificate, and prints its tag or the refusal.
    fn certify(&mut self, rt: &HostRuntime, number: u64, asked: SeatCertify) -> Result<(), Stop> {
        let SeatCertify { seat, certify } = asked;
        if !self.group.in_other_hands(seat) {
            return Err(Stop::NotInOtherHands(number, seat));
        }
        let message = self.letters.bytes_of(rt.alloc(), number, certify.message)?;
        let done = self.group.certify(
            rt.alloc(),
            seat,
            certify.kind,
            certify.number,
            certify.value,
            &message,
        )?;
        println!(rt; "{number} {done}")?;
        Ok(())
    }

    // Hands what the call on another line wrote to every other replica.
    fn deliver(&mut self, rt: &HostRuntime, number: u64, line: u64) -> Result<(), Stop> {
        let letter = self.letters.deliver(number, line)?;
        println!(rt; "{number} deliver {line}")?;
        hand_out(rt, &mut self.group, letter)
    }

    // Hands out whatever waits, and goes on until nothing moves.
    fn pump(&mut self, rt: &HostRuntime, number: u64) -> Result<(), Stop> {
        let waiting = self.letters.take_waiting(rt.alloc())?;
        println!(rt; "{number} pump")?;
        pump(rt, number, &mut self.group, waiting)
    }
}

// The length of the out buffer alone.
fn out_of(out: Option<u32>) -> Lengths {
    Lengths { out, scratch: None }
}
