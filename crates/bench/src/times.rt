// How long the rounds of a work took.
use super::rounds::Rounds;
use super::stops::Stop;
use std::alloc::Global;
use std::time::Instant;

/// How long each round of a work took, in nanoseconds.
#[derive(Drop)]
pub struct Times {
    rounds: Vec<u64>,
}

impl Times {
    /// No rounds yet.
    pub fn new(heap: Global) -> Times {
        Times {
            rounds: Vec::new(heap),
        }
    }

    /// Does a round more.
    pub fn take<R: Rounds>(&mut self, rt: &HostRuntime, work: &mut R) -> Result<(), Stop> {
        let start = Instant::now(rt)?;
        work.round()?;
        let nanoseconds = start.elapsed(rt)?.as_nanos();
        self.rounds
            .push(u64::try_from(nanoseconds).unwrap_or(u64::MAX))?;
        Ok(())
    }

    /// The median, or 0 where there was no round.
    pub fn median(mut self) -> u64 {
        self.rounds.sort_unstable();
        self.rounds.get(self.rounds.len() / 2).copied().unwrap_or(0)
    }
}
