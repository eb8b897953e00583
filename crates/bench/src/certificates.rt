// The certificates and checks of ordered requests, made by the counters alone, over messages of the same lengths.
use super::rounds::{ROUND, Rounds};
use super::stops::Stop;
use super::works::overwrite;
use counter::{Counter, Kind, Statement};
use message::{CHECKPOINT_COUNTER, ORDER_COUNTER};
use terms::{
    CHECKPOINT_BYTES, CHECKPOINT_INTERVAL, COMMIT_BYTES, Order, PREPARE_BYTES, Refusal, TAG_BYTES,
    View, pair,
};

// How much of a message of each kind is tagged.
const PREPARE: usize = PREPARE_BYTES - TAG_BYTES;

const COMMIT: usize = COMMIT_BYTES - TAG_BYTES;

const CHECKPOINT: usize = CHECKPOINT_BYTES - TAG_BYTES;

/// The counters of a group, and a message over whose front each tag is written, so that none can be left out.
#[derive(Drop)]
pub struct Certificates<C: Counter> {
    counters: Vec<C>,
    requests: u32,
    /// How many certificates and checks there were.
    tags: u64,
    message: [u8; CHECKPOINT],
}

impl<C: Counter + Drop> Certificates<C> {
    /// Counters that have certified nothing.
    pub fn new(counters: Vec<C>) -> Certificates<C> {
        Certificates {
            counters,
            requests: 0,
            tags: 0,
            message: [0; CHECKPOINT],
        }
    }

    /// How many certificates and checks there were.
    pub fn tags(&self) -> u64 {
        self.tags
    }

    /// The last tag.
    pub fn last_tag(&self) -> &[u8] {
        self.message.get(..TAG_BYTES).unwrap_or(&[])
    }

    // The certificates and checks of the next request: a PREPARE, the COMMITs, and at a checkpoint the CHECKPOINTs.
    fn order(&mut self) -> Result<(), Refusal> {
        let order = self.requests.checked_add(1);
        let order = order.ok_or(Refusal::NumbersExhausted)?;
        let value = pair(View(0), Order(order));
        self.prove(0, Kind::Independent, ORDER_COUNTER, value, PREPARE)?;
        for seat in 1..self.counters.len() {
            self.prove(seat, Kind::Independent, ORDER_COUNTER, value, COMMIT)?;
        }
        if order % CHECKPOINT_INTERVAL == 0 {
            for seat in 0..self.counters.len() {
                self.prove(seat, Kind::Continuing, CHECKPOINT_COUNTER, 0, CHECKPOINT)?;
            }
        }
        self.requests = order;
        Ok(())
    }

    // Makes a certificate at a seat and checks it at all the others.
    fn prove(
        &mut self,
        writer: usize,
        kind: Kind,
        number: u32,
        new: u64,
        length: usize,
    ) -> Result<(), Refusal> {
        let message = self.message.get(..length).unwrap_or(&[]);
        let counter = self.counters.get_mut(writer).ok_or(Refusal::NoSuchSeat)?;
        let tag = counter.certify(kind, number, new, message)?;
        let statement = Statement {
            kind: kind.number(),
            seat: counter.seat(),
            number,
            new,
            old: 0,
            message,
        };
        for (seat, counter) in self.counters.iter().enumerate() {
            if seat != writer && !counter.check(statement, &tag) {
                return Err(Refusal::BadTag);
            }
            self.tags = self.tags.saturating_add(1);
        }
        overwrite(&mut self.message, tag);
        Ok(())
    }
}

impl<C: Counter + Drop> Rounds for Certificates<C> {
    fn round(&mut self) -> Result<(), Stop> {
        for _ in 0..ROUND {
            self.order()?;
        }
        Ok(())
    }
}
