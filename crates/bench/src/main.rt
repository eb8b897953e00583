// Times the tag functions and the ordering of requests. `bench WORK COUNT` prints the nanoseconds that the work took
// and the front of its last result, and `bench requests KEY SEATS COUNT` the cost of a request and of its tags; without
// arguments each work is done a few times, and only what does not depend on time is printed.
#![tactic(auto)]

mod certificates;
mod costs;
mod digests;
mod groups;
mod kinds;
mod rounds;
mod stops;
mod times;
mod works;

use console::told;
use costs::{show_requests, time_requests};
use kinds::{COUNTER_KINDS, CounterKind};
use std::env;
use std::process::ExitCode;
use std::time::Instant;
use stops::Stop;
use terms::{LARGEST_GROUP, SMALLEST_GROUP};
use texts::{Hex, read_number};
use works::{WORKS, Work};

fn main(rt: HostRuntime) -> ExitCode {
    let outcome = run(&rt);
    told(&rt, outcome)
}

fn run(rt: &HostRuntime) -> Result<(), Stop> {
    let mut arguments = env::args(rt).map_err(|_| Stop::Arguments)?.skip(1);
    let Some(work) = arguments.next() else {
        return show_all(rt);
    };
    if work.as_str() == "requests" {
        let kind = arguments.next().ok_or(Stop::Arguments)?;
        let kind = kind.as_str().parse::<CounterKind>()?;
        let seats = number(arguments.next())?;
        let count = number(arguments.next())?;
        return time_requests(rt, kind, seats, count);
    }
    let work = work.as_str().parse::<Work>()?;
    let count = number(arguments.next())?;
    time(rt, work, count)
}

// The number that an argument writes.
fn number(argument: Option<String>) -> Result<u32, Stop> {
    let argument = argument.ok_or(Stop::Arguments)?;
    read_number(argument.as_bytes()).ok_or(Stop::Arguments)
}

fn show_all(rt: &HostRuntime) -> Result<(), Stop> {
    for work in WORKS {
        let message = work.run(rt.alloc(), 3)?;
        let front = Hex(message.as_slice().get(..16).unwrap_or(&[]));
        println!(rt; "{work}: {front}")?;
    }
    for kind in COUNTER_KINDS {
        for seats in SMALLEST_GROUP..=LARGEST_GROUP {
            show_requests(rt, kind, seats)?;
        }
    }
    Ok(())
}

fn time(rt: &HostRuntime, work: Work, count: u32) -> Result<(), Stop> {
    let start = Instant::now(rt)?;
    let message = work.run(rt.alloc(), count)?;
    let nanoseconds = start.elapsed(rt)?.as_nanos();
    let front = Hex(message.as_slice().get(..4).unwrap_or(&[]));
    println!(rt; "{nanoseconds} {front}")?;
    Ok(())
}
