// Rounds: letters are handed out, and then every replica does what it can.
use super::dones::Done;
use super::groups::{Group, USUAL};
use super::letters::Letter;
use super::stops::Stop;
use cluster::Call;
use counter::Counter;
use service::Service;
use std::alloc::{AllocError, Global};
use terms::{CHECKPOINT_INTERVAL, LARGEST_GROUP, WINDOW};

// More rounds are not needed. Nobody proposes in a round, so no record gains an entry behind the first delivery: from then
// on each replica votes and carries out at most once for each order of a window, and marks the checkpoints among them and
// the one at which it stands. Every round but the last has at least one of these calls.
const MOST_ROUNDS: u32 = LARGEST_GROUP * (2 * WINDOW + WINDOW / CHECKPOINT_INTERVAL + 1) + 1;

// What replicas did in a round.
#[derive(Drop)]
struct Round {
    moved: bool,
    letters: Vec<Letter>,
}

impl Round {
    fn new(heap: Global) -> Round {
        Round {
            moved: false,
            letters: Vec::new(heap),
        }
    }

    // A call more that was answered.
    fn note(&mut self, done: Done) -> Result<(), AllocError> {
        self.moved = true;
        if let Some(letter) = done.letter() {
            self.letters.push(letter)?;
        }
        Ok(())
    }
}

/// Hands out letters, lets every replica vote, carry out and mark, and so on with what they write, until nothing moves.
pub fn pump<C: Counter + Drop, S: Service + Drop>(
    rt: &HostRuntime,
    number: u64,
    group: &mut Group<C, S>,
    waiting: Vec<Letter>,
) -> Result<(), Stop> {
    let mut letters = waiting;
    for _ in 0..MOST_ROUNDS {
        hand_out_all(rt, group, &letters)?;
        let round = play_round(rt, group)?;
        if !round.moved {
            return Ok(());
        }
        letters = round.letters;
    }
    Err(Stop::Restless(number))
}

// Hands out letters in their order.
fn hand_out_all<C: Counter + Drop, S: Service + Drop>(
    rt: &HostRuntime,
    group: &mut Group<C, S>,
    letters: &[Letter],
) -> Result<(), Stop> {
    for letter in letters {
        hand_out(rt, group, letter)?;
    }
    Ok(())
}

/// Hands a letter to every replica but its writer, lowest seat first, and prints what they say.
pub fn hand_out<C: Counter + Drop, S: Service + Drop>(
    rt: &HostRuntime,
    group: &mut Group<C, S>,
    letter: &Letter,
) -> Result<(), Stop> {
    for seat in 0..group.seats() {
        if seat != letter.seat && group.replica(seat).is_some() {
            let done = group.call(rt.alloc(), seat, Call::Take(&letter.bytes), USUAL)?;
            println!(rt; "  {done}")?;
        }
    }
    Ok(())
}

// Gives every replica its turn, lowest seat first.
fn play_round<C: Counter + Drop, S: Service + Drop>(
    rt: &HostRuntime,
    group: &mut Group<C, S>,
) -> Result<Round, Stop> {
    let mut round = Round::new(rt.alloc());
    for seat in 0..group.seats() {
        take_turn(rt, group, seat, &mut round)?;
    }
    Ok(round)
}

// Lets the replica at a seat vote, carry out and mark, each once, and prints what was answered. A refusal only says that
// there is nothing to do.
fn take_turn<C: Counter + Drop, S: Service + Drop>(
    rt: &HostRuntime,
    group: &mut Group<C, S>,
    seat: u32,
    round: &mut Round,
) -> Result<(), Stop> {
    for call in [Call::Vote, Call::CarryOut, Call::Mark] {
        let done = group.call(rt.alloc(), seat, call, USUAL)?;
        if done.outcome.is_ok() {
            println!(rt; "  {done}")?;
            round.note(done)?;
        }
    }
    Ok(())
}
