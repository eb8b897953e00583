// Playing calls on a trusted counter: the header makes it, and each entry is a call.
use super::named::bytes_of;
use super::records::{Refused, close_counter};
use super::stops::Stop;
use counter::{Counter, Seat, Statement};
use counters::{CmacCounter, HmacCounter};
use script::{Certify, Claim, CounterEntry, CounterHeader, Key, YesNo, read_counter_entry};
use texts::{Hex, Lines};

/// Plays the entries behind a header on the counter that it asks for. A header that is refused ends the run.
pub fn play_counter(
    rt: &HostRuntime,
    number: u64,
    header: CounterHeader,
    lines: Lines,
) -> Result<(), Stop> {
    let CounterHeader { seats, seat, key } = header;
    let taken = match Seat::new(seats, seat) {
        Ok(taken) => taken,
        Err(refusal) => {
            println!(rt; "{number} counter {}", Refused(refusal))?;
            return Err(Stop::Refused(number, refusal));
        }
    };
    println!(rt; "{number} counter {seats} {seat} {key}")?;
    match key {
        Key::Hmac(key) => play_calls(rt, HmacCounter::new(taken, &key), lines),
        Key::Cmac(key) => play_calls(rt, CmacCounter::new(taken, &key), lines),
    }
}

// Makes the calls behind a header on any counter, and closes the record.
fn play_calls<C: Counter + Drop>(
    rt: &HostRuntime,
    mut counter: C,
    lines: Lines,
) -> Result<(), Stop> {
    let mut certificates = YesNo::new();
    let mut tags = YesNo::new();
    for (number, line) in lines {
        let entry = read_counter_entry(line).map_err(|fault| Stop::Line(number, fault))?;
        match entry {
            None => {}
            Some(CounterEntry::Certify(asked)) => {
                certificates.note(certify(rt, &mut counter, number, asked)?)
            }
            Some(CounterEntry::Value(which)) => show_value(rt, &counter, number, which)?,
            Some(CounterEntry::Check(claim)) => tags.note(check(rt, &counter, number, claim)?),
        }
    }
    close_counter(rt, &counter, certificates, tags)
}

// Asks for a certificate and prints its tag or the refusal. Whether it was given.
fn certify<C: Counter>(
    rt: &HostRuntime,
    counter: &mut C,
    number: u64,
    asked: Certify,
) -> Result<bool, Stop> {
    let message = bytes_of(rt.alloc(), number, asked.message)?;
    match counter.certify(asked.kind, asked.number, asked.value, &message) {
        Ok(tag) => {
            println!(rt; "{number} certify tag {}", Hex(&tag))?;
            Ok(true)
        }
        Err(refusal) => {
            println!(rt; "{number} certify {}", Refused(refusal))?;
            Ok(false)
        }
    }
}

// Prints the value of a counter, or the refusal.
fn show_value<C: Counter>(
    rt: &HostRuntime,
    counter: &C,
    number: u64,
    which: u32,
) -> Result<(), Stop> {
    match counter.value(which) {
        Ok(value) => println!(rt; "{number} value {value}")?,
        Err(refusal) => println!(rt; "{number} value {}", Refused(refusal))?,
    }
    Ok(())
}

// Checks a tag that is shown for a statement, and prints whether it is right. Whether it is.
fn check<C: Counter>(
    rt: &HostRuntime,
    counter: &C,
    number: u64,
    claim: Claim,
) -> Result<bool, Stop> {
    let message = bytes_of(rt.alloc(), number, claim.message)?;
    let tag = bytes_of(rt.alloc(), number, claim.tag)?;
    let statement = Statement {
        kind: claim.kind,
        seat: claim.seat,
        number: claim.number,
        new: claim.new,
        old: claim.old,
        message: &message,
    };
    let right = counter.check(statement, &tag);
    println!(rt; "{number} check {}", if right { "yes" } else { "no" })?;
    Ok(right)
}
