// Rounds: what is timed is cut into pieces of so many requests, so that works can take turns.
use super::stops::Stop;
use terms::CHECKPOINT_INTERVAL;

/// The checkpoints in a round.
pub const MARKS: u32 = 5;

/// The requests of a round.
pub const ROUND: u32 = MARKS * CHECKPOINT_INTERVAL;

/// A work that is done in rounds.
pub trait Rounds {
    /// Does what a round of requests asks of it.
    fn round(&mut self) -> Result<(), Stop>;
}
