// A group in one process that orders requests one after the other: whatever a seat writes, all the others take.
use super::rounds::{ROUND, Rounds};
use super::stops::Stop;
use counter::Counter;
use registers::{GlyphRegister, PLACES};
use replica::Replica;
use service::{CLIENTS, Service, Sessions};
use std::alloc::{AllocError, Global};
use terms::{CHECKPOINT_BYTES, CHECKPOINT_INTERVAL, OUT_BYTES, Refusal, Request, TAG_BYTES};

// More than the state of a full register takes, with its sessions.
const SCRATCH_BYTES: usize = 1024;

// In view 0 the first seat leads.
const LEADER: usize = 0;

// The code of a request that sets an advance.
const SET_ADVANCE: u32 = 1;

/// A group, a glyph register behind sessions at each seat.
#[derive(Drop)]
pub struct OrderingGroup<C: Counter> {
    replicas: Vec<Replica<C, Sessions<GlyphRegister>>>,
    requests: u32,
    /// How many certificates and checks there were.
    tags: u64,
    out: [u8; OUT_BYTES],
    scratch: [u8; SCRATCH_BYTES],
}

impl<C: Counter + Drop> OrderingGroup<C> {
    /// A group with these counters that has ordered nothing.
    pub fn new(heap: Global, counters: Vec<C>) -> Result<OrderingGroup<C>, AllocError> {
        let mut replicas = Vec::new(heap);
        for counter in counters {
            let register = Sessions::new(GlyphRegister::new(heap)?);
            replicas.push(Replica::new(counter, register))?;
        }
        Ok(OrderingGroup {
            replicas,
            requests: 0,
            tags: 0,
            out: [0; OUT_BYTES],
            scratch: [0; SCRATCH_BYTES],
        })
    }

    /// Orders one request for each place of the register, so that it is full, and counts anew.
    pub fn fill(&mut self) -> Result<(), Stop> {
        for _ in 0..PLACES {
            self.order()?;
        }
        self.tags = 0;
        Ok(())
    }

    /// How many certificates and checks there were.
    pub fn tags(&self) -> u64 {
        self.tags
    }

    /// The tag of the CHECKPOINT that was written last, if nothing was written behind it.
    pub fn last_tag(&self) -> &[u8] {
        self.out
            .get(CHECKPOINT_BYTES - TAG_BYTES..CHECKPOINT_BYTES)
            .unwrap_or(&[])
    }

    /// The bytes that a mark digests.
    pub fn written_state(&mut self) -> Result<&[u8], Stop> {
        let replica = at(&mut self.replicas, LEADER)?;
        let length = replica.service().write(&mut self.scratch);
        let length = length.ok_or(Refusal::ScratchTooShort)?;
        Ok(self.scratch.get(..length).unwrap_or(&[]))
    }

    // Orders the next request at all seats, and marks the checkpoint that it may lead to.
    fn order(&mut self) -> Result<(), Stop> {
        let request = request_of(self.requests);
        let (order, length) = at(&mut self.replicas, LEADER)?.ask(request, &mut self.out)?;
        self.hand_out(LEADER, length)?;
        self.vote()?;
        self.carry_out()?;
        if order.0 % CHECKPOINT_INTERVAL == 0 {
            self.mark()?;
        }
        self.requests = self.requests.saturating_add(1);
        Ok(())
    }

    // Lets every follower vote.
    fn vote(&mut self) -> Result<(), Stop> {
        for seat in 1..self.replicas.len() {
            let (_, length) = at(&mut self.replicas, seat)?.vote(&mut self.out)?;
            self.hand_out(seat, length)?;
        }
        Ok(())
    }

    // Lets every replica carry the request out.
    fn carry_out(&mut self) -> Result<(), Stop> {
        for replica in self.replicas.iter_mut() {
            let (_, (status, _)) = replica.carry_out()?;
            if status != 0 {
                return Err(Stop::Status(status));
            }
        }
        Ok(())
    }

    // Lets every replica mark the checkpoint.
    fn mark(&mut self) -> Result<(), Stop> {
        for seat in 0..self.replicas.len() {
            let replica = at(&mut self.replicas, seat)?;
            let (_, length) = replica.mark(&mut self.scratch, &mut self.out)?;
            self.hand_out(seat, length)?;
        }
        Ok(())
    }

    // Hands what a seat wrote to all the others. A CHECKPOINT behind those of a quorum is checked, and then it is
    // nothing new.
    fn hand_out(&mut self, writer: usize, length: usize) -> Result<(), Refusal> {
        let letter = self.out.get(..length).unwrap_or(&[]);
        for (seat, replica) in self.replicas.iter_mut().enumerate() {
            if seat != writer {
                match replica.take(letter) {
                    Ok(_) | Err(Refusal::AlreadyHeld) => {}
                    Err(refusal) => return Err(refusal),
                }
            }
            self.tags = self.tags.saturating_add(1);
        }
        Ok(())
    }
}

impl<C: Counter + Drop> Rounds for OrderingGroup<C> {
    fn round(&mut self) -> Result<(), Stop> {
        for _ in 0..ROUND {
            self.order()?;
        }
        Ok(())
    }
}

// What stands at a seat.
fn at<T>(places: &mut [T], seat: usize) -> Result<&mut T, Refusal> {
    places.get_mut(seat).ok_or(Refusal::NoSuchSeat)
}

// The request behind so many. The clients take turns, and so do the glyphs that they set.
fn request_of(number: u32) -> Request {
    Request {
        client: number % CLIENTS as u32,
        sequence: number / CLIENTS as u32 + 1,
        code: SET_ADVANCE,
        key: number % PLACES as u32,
        value: number % 1000,
    }
}
