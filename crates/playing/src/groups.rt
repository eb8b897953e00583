// A group in play: its members, and the buffers that their calls are lent.
use super::dones::{Done, word_of};
use cluster::{Answer, Call, Cluster, Entry};
use counter::{Counter, Kind};
use replica::Replica;
use script::Lengths;
use service::Service;
use std::alloc::{AllocError, Global};
use terms::{GroupSize, OUT_BYTES, Refusal};

// The length of the scratch where nothing is said. Every service that a header may ask for writes fewer bytes.
const SCRATCH_BYTES: usize = 4096;

/// Where nothing is said of the buffers' lengths.
pub const USUAL: Lengths = Lengths {
    out: None,
    scratch: None,
};

/// A group in play.
#[derive(Drop)]
pub struct Group<C: Counter, S: Service> {
    cluster: Cluster<C, S>,
    size: GroupSize,
    out: [u8; OUT_BYTES],
    scratch: [u8; SCRATCH_BYTES],
}

impl<C: Counter + Drop, S: Service + Drop> Group<C, S> {
    /// A group of this size, with buffers.
    pub fn new(cluster: Cluster<C, S>, size: GroupSize) -> Group<C, S> {
        Group {
            cluster,
            size,
            out: [0; OUT_BYTES],
            scratch: [0; SCRATCH_BYTES],
        }
    }

    /// The number of seats.
    pub fn seats(&self) -> u32 {
        self.size.seats()
    }

    /// The replica at a seat, to be read.
    pub fn replica(&self, seat: u32) -> Option<&Replica<C, S>> {
        self.cluster.replica(seat)
    }

    /// Whether a seat of the group is in other hands.
    pub fn in_other_hands(&self, seat: u32) -> bool {
        self.cluster.counter(seat).is_some()
    }

    /// Makes a call on the replica at a seat.
    pub fn call(
        &mut self,
        heap: Global,
        seat: u32,
        call: Call,
        lengths: Lengths,
    ) -> Result<Done, AllocError> {
        let word = word_of(&call);
        let out = front(&mut self.out, lengths.out);
        let scratch = front(&mut self.scratch, lengths.scratch);
        let outcome = self.cluster.play(Entry::At { seat, call }, scratch, out);
        let written = out.get(..written_len(outcome)).unwrap_or(&[]);
        Ok(Done {
            word,
            seat,
            outcome,
            bytes: written.to_vec(heap)?,
        })
    }

    /// Asks the counter of a seat in other hands for a certificate.
    pub fn certify(
        &mut self,
        heap: Global,
        seat: u32,
        kind: Kind,
        number: u32,
        new: u64,
        message: &[u8],
    ) -> Result<Done, AllocError> {
        let entry = Entry::Elsewhere {
            seat,
            kind,
            number,
            new,
            message,
        };
        let outcome = self.cluster.play(entry, &mut [], &mut []);
        let bytes = match outcome {
            Ok(Answer::Certified(tag)) => tag.to_vec(heap)?,
            _ => Vec::new(heap),
        };
        Ok(Done {
            word: "certify",
            seat,
            outcome,
            bytes,
        })
    }
}

// How many bytes a call wrote.
fn written_len(outcome: Result<Answer, Refusal>) -> usize {
    match outcome {
        Ok(Answer::Ordered(_, length)) | Ok(Answer::Viewed(_, length)) => length,
        _ => 0,
    }
}

// So many bytes of a buffer as are asked for. There is enough for every call, so whoever asks for more gets all.
fn front(buffer: &mut [u8], length: Option<u32>) -> &mut [u8] {
    match length {
        Some(length) if (length as usize) < buffer.len() => &mut buffer[..length as usize],
        _ => buffer,
    }
}
