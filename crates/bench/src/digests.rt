// The digests of a group's marks alone.
use super::rounds::{MARKS, Rounds};
use super::stops::Stop;
use super::works::overwrite;
use sha256::digest;

/// A written state over whose front each digest is written, so that none can be left out.
#[derive(Drop)]
pub struct Digests {
    state: Vec<u8>,
    seats: u32,
}

impl Digests {
    /// The digests of a state at so many seats.
    pub fn new(state: Vec<u8>, seats: u32) -> Digests {
        Digests { state, seats }
    }
}

impl Rounds for Digests {
    fn round(&mut self) -> Result<(), Stop> {
        for _ in 0..MARKS {
            for _ in 0..self.seats {
                let result = digest(&self.state);
                overwrite(&mut self.state, result);
            }
        }
        Ok(())
    }
}
