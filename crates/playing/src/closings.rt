// The closing record of a group: where each replica stands, and for a person whether their registers agree.
use super::groups::Group;
use super::lists::show_list;
use super::records::written_state;
use super::shows::open_or_closed;
use super::stops::Stop;
use counter::Counter;
use replica::Replica;
use script::YesNo;
use service::Service;
use sha256::digest;
use texts::Hex;

// The written state of a seat's register, and how many requests were carried out on it.
#[derive(Drop)]
struct Register {
    seat: u32,
    count: u32,
    written: Vec<u8>,
}

/// Prints a line for each replica, how many requests each register carried out, and whether registers of equal counts
/// are equal.
pub fn close_group<C: Counter + Drop, S: Service + Drop>(
    rt: &HostRuntime,
    group: &Group<C, S>,
) -> Result<(), Stop> {
    let mut registers = Vec::new(rt.alloc());
    for seat in 0..group.seats() {
        if let Some(replica) = group.replica(seat) {
            registers.push(close_replica(rt, replica)?)?;
        }
    }
    if registers.is_empty() {
        println!(rt; "no seat has a replica")?;
        return Ok(());
    }
    show_counts(rt, &registers)?;
    show_agreement(rt, &registers)
}

// Prints where a replica stands, and answers what its register is.
fn close_replica<C: Counter, S: Service>(
    rt: &HostRuntime,
    replica: &Replica<C, S>,
) -> Result<Register, Stop> {
    let seat = replica.seat();
    let view = replica.view();
    let standing = open_or_closed(replica.standing());
    let count = replica.count();
    let written = written_state(rt.alloc(), replica.service())?;
    print!(rt;
        "seat {seat} view {view} {standing} low {} end {} ",
        replica.low(),
        replica.end()
    )?;
    println!(rt; "count {count} state {}", Hex(&digest(&written)))?;
    Ok(Register {
        seat,
        count,
        written,
    })
}

// Prints how many requests were carried out, and at which seats.
fn show_counts(rt: &HostRuntime, registers: &[Register]) -> Result<(), Stop> {
    print!(rt; "requests carried out: ")?;
    let mut mark = "";
    for (place, register) in registers.iter().enumerate() {
        let count = register.count;
        if registers[..place]
            .iter()
            .all(|before| before.count != count)
        {
            print!(rt; "{mark}{count} ")?;
            show_seats(rt, registers, count)?;
            mark = ", ";
        }
    }
    println!(rt)?;
    Ok(())
}

// Prints the seats whose registers have a count.
fn show_seats(rt: &HostRuntime, registers: &[Register], count: u32) -> Result<(), Stop> {
    let alike = registers.iter().filter(|register| register.count == count);
    print!(rt;
        "({} ",
        if alike.clone()?.count() == 1 {
            "seat"
        } else {
            "seats"
        }
    )?;
    show_list(rt, alike.map(|register| register.seat), ", ")?;
    print!(rt; ")")?;
    Ok(())
}

// Compares each two registers of equal counts, and prints whether they are equal.
fn show_agreement(rt: &HostRuntime, registers: &[Register]) -> Result<(), Stop> {
    let mut pairs = YesNo::new();
    for (place, register) in registers.iter().enumerate() {
        compare(&registers[..place], register, &mut pairs);
    }
    print!(rt; "registers of equal counts: ")?;
    match (pairs.yes(), pairs.no()) {
        (0, 0) => println!(rt; "none")?,
        (1, 0) => println!(rt; "equal (1 pair)")?,
        (equal, 0) => println!(rt; "equal ({equal} pairs)")?,
        (equal, unequal) => {
            println!(rt; "NOT EQUAL (pairs that differ: {unequal}, that do not: {equal})")?
        }
    }
    Ok(())
}

// Compares a register with those before it that carried out as many requests.
fn compare(before: &[Register], register: &Register, pairs: &mut YesNo) {
    for other in before {
        if other.count == register.count {
            pairs.note(other.written == register.written);
        }
    }
}
