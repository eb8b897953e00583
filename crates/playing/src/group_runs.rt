// Playing a whole group: the header makes it, some entries say how its seats begin, and the others play.
use super::closings::close_group;
use super::group_entries::GroupRun;
use super::records::Refused;
use super::seats::Seats;
use super::services::Fresh;
use super::stops::Stop;
use counter::Counter;
use counters::{CmacCounter, HmacCounter};
use registers::{GlyphRegister, ReleaseLine};
use script::{
    GroupEntry, GroupHeader, Key, RegisterKind, ServiceKind, UsedCounter, read_group_entry,
};
use service::Sessions;
use terms::GroupSize;
use texts::Lines;

/// Plays the entries behind a header on the group that it asks for. A header that is refused ends the run.
pub fn play_group(
    rt: &HostRuntime,
    number: u64,
    header: GroupHeader,
    lines: Lines,
) -> Result<(), Stop> {
    let GroupHeader {
        seats,
        key,
        service,
    } = header;
    let size = match GroupSize::new(seats) {
        Ok(size) => size,
        Err(refusal) => {
            println!(rt; "{number} group {}", Refused(refusal))?;
            return Err(Stop::Refused(number, refusal));
        }
    };
    println!(rt; "{number} group {seats} {key} {service}")?;
    match key {
        Key::Hmac(key) => {
            let seats = Seats::fresh(rt.alloc(), size, |seat| HmacCounter::new(seat, &key))?;
            play_service(rt, number, seats, service, lines)
        }
        Key::Cmac(key) => {
            let seats = Seats::fresh(rt.alloc(), size, |seat| CmacCounter::new(seat, &key))?;
            play_service(rt, number, seats, service, lines)
        }
    }
}

// Plays entries on a group with a service of this kind at each seat.
fn play_service<C: Counter + Drop>(
    rt: &HostRuntime,
    number: u64,
    seats: Seats<C>,
    service: ServiceKind,
    lines: Lines,
) -> Result<(), Stop> {
    match service {
        ServiceKind::Alone(RegisterKind::Glyphs) => {
            play_entries::<C, GlyphRegister>(rt, number, seats, lines)
        }
        ServiceKind::Alone(RegisterKind::Release) => {
            play_entries::<C, ReleaseLine>(rt, number, seats, lines)
        }
        ServiceKind::Sessions(RegisterKind::Glyphs) => {
            play_entries::<C, Sessions<GlyphRegister>>(rt, number, seats, lines)
        }
        ServiceKind::Sessions(RegisterKind::Release) => {
            play_entries::<C, Sessions<ReleaseLine>>(rt, number, seats, lines)
        }
    }
}

// Plays entries on a group, and closes the record.
fn play_entries<C: Counter + Drop, S: Fresh + Drop>(
    rt: &HostRuntime,
    number: u64,
    mut seats: Seats<C>,
    mut lines: Lines,
) -> Result<(), Stop> {
    let first = prepare(rt, &mut seats, &mut lines)?;
    let mut run = GroupRun::<C, S>::new(rt, number, seats)?;
    if let Some((number, entry)) = first {
        run.play(rt, number, entry)?;
    }
    for (number, line) in lines {
        if let Some(entry) = read_group_entry(line).map_err(|fault| Stop::Line(number, fault))? {
            run.play(rt, number, entry)?;
        }
    }
    close_group(rt, run.group())
}

// Does what entries say of the seats before the first call, and answers that call, if there is one.
fn prepare<'a, C: Counter + Drop>(
    rt: &HostRuntime,
    seats: &mut Seats<C>,
    lines: &mut Lines<'a>,
) -> Result<Option<(u64, GroupEntry<'a>)>, Stop> {
    for (number, line) in lines.by_ref() {
        let entry = read_group_entry(line).map_err(|fault| Stop::Line(number, fault))?;
        match entry {
            None => {}
            Some(GroupEntry::Other(seat)) => {
                seats.give_away(number, seat)?;
                println!(rt; "{number} other {seat}")?;
            }
            Some(GroupEntry::Used(used)) => use_counter(rt, seats, number, used)?,
            Some(call) => return Ok(Some((number, call))),
        }
    }
    Ok(None)
}

// Uses the counter of a seat once, for an empty message.
fn use_counter<C: Counter + Drop>(
    rt: &HostRuntime,
    seats: &mut Seats<C>,
    number: u64,
    used: UsedCounter,
) -> Result<(), Stop> {
    let seat = used.seat;
    let counter = seats.counter(number, seat)?;
    match counter.certify(used.kind, used.number, used.value, &[]) {
        Ok(_) => println!(rt; "{number} used {seat}")?,
        Err(refusal) => println!(rt; "{number} used {seat} {}", Refused(refusal))?,
    }
    Ok(())
}
