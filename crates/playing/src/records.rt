// How a refusal is printed, and the closing record: the written state for a machine, counts and tables for a person.
use super::stops::Stop;
use counter::{COUNTERS, Counter};
use registers::GlyphRow;
use script::{Tally, YesNo};
use service::{Failure, Service};
use std::alloc::{AllocError, Global};
use std::fmt::{self, Display};
use std::io;
use terms::Refusal;
use texts::Hex;

/// Shows a refusal by its number, and its sentence behind it.
#[derive(Clone, Copy, PartialEq, Eq, Debug)]
pub struct Refused(pub Refusal);

impl fmt::Display for Refused {
    fn fmt<W: fmt::Write>(&self, f: &mut fmt::Formatter<W>) -> fmt::Result {
        let refusal = self.0;
        write!(f, "refused {} ({refusal})", refusal.number())
    }
}

/// Prints the written state, how many requests were applied and how many got each status.
pub fn close<S: Service>(rt: &HostRuntime, service: &S, tally: &Tally) -> Result<(), Stop> {
    let state = written_state(rt.alloc(), service)?;
    let len = state.len();
    let bytes = Hex(state.as_slice());
    println!(rt; "written {len} {bytes}")?;
    let applied = tally.applied();
    println!(rt; "requests applied: {applied}")?;
    show_count(rt, tally, 0, "done")?;
    for failure in Failure::ALL {
        show_count(rt, tally, failure.status(), failure)?;
    }
    Ok(())
}

/// The written state of a service.
pub fn written_state<S: Service>(heap: Global, service: &S) -> Result<Vec<u8>, AllocError> {
    let mut state = vec![in heap; 0; service.written_len()]?;
    let _ = service.write(&mut state);
    Ok(state)
}

// Prints how many requests got a status, if any did.
fn show_count(
    rt: &HostRuntime,
    tally: &Tally,
    status: u32,
    meaning: impl Display + Drop,
) -> io::Result<()> {
    let count = tally.of(status);
    if count > 0 {
        println!(rt; "  status {status}: {count} ({meaning})")?;
    }
    Ok(())
}

/// Prints a table of the glyphs and their numbers.
pub fn show_rows(rt: &HostRuntime, rows: &[GlyphRow]) -> Result<(), Stop> {
    println!(rt; "  {:>10}  {:>7}  {:>7}", "glyph", "advance", "bearing")?;
    for GlyphRow {
        glyph,
        advance,
        bearing,
    } in rows {
        println!(rt; "  {glyph:>10}  {advance:>7}  {bearing:>7}")?;
    }
    Ok(())
}

/// Prints how many certificates were given and how many refused, how many tags were right and how many wrong, and a
/// table of the counter's values.
pub fn close_counter<C: Counter>(
    rt: &HostRuntime,
    counter: &C,
    certificates: YesNo,
    tags: YesNo,
) -> Result<(), Stop> {
    println!(rt;
        "certificates given: {}, refused: {}",
        certificates.yes(),
        certificates.no()
    )?;
    println!(rt; "tags right: {}, wrong: {}", tags.yes(), tags.no())?;
    println!(rt; "  {:>7}  {:>20}", "counter", "value")?;
    for number in 0..COUNTERS as u32 {
        if let Ok(value) = counter.value(number) {
            println!(rt; "  {number:>7}  {value:>20}")?;
        }
    }
    Ok(())
}

/// Prints how many messages were read and how many refused.
pub fn close_mail(rt: &HostRuntime, messages: YesNo) -> Result<(), Stop> {
    println!(rt;
        "messages read: {}, refused: {}",
        messages.yes(),
        messages.no()
    )?;
    Ok(())
}
