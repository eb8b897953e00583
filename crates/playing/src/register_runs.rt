// Playing requests on a register: the header makes it, and each entry is applied to it.
use super::records::{close, show_rows};
use super::stops::Stop;
use registers::{GlyphRegister, ReleaseLine};
use script::{Entry, RegisterKind, ServiceKind, Tally, read_entry};
use service::{Service, Sessions};
use texts::Lines;

/// Plays the entries behind a header on a register of its kind.
pub fn play_register(
    rt: &HostRuntime,
    number: u64,
    kind: ServiceKind,
    lines: Lines,
) -> Result<(), Stop> {
    println!(rt; "{number} register {kind}")?;
    let heap = rt.alloc();
    match kind {
        ServiceKind::Alone(RegisterKind::Glyphs) => {
            let mut glyphs = GlyphRegister::new(heap)?;
            play_entries(rt, &mut glyphs, lines)?;
            show_rows(rt, glyphs.rows())
        }
        ServiceKind::Alone(RegisterKind::Release) => {
            let mut line = ReleaseLine::new();
            play_entries(rt, &mut line, lines)
        }
        ServiceKind::Sessions(RegisterKind::Glyphs) => {
            let mut sessions = Sessions::new(GlyphRegister::new(heap)?);
            play_entries(rt, &mut sessions, lines)?;
            show_rows(rt, sessions.below().rows())
        }
        ServiceKind::Sessions(RegisterKind::Release) => {
            let mut sessions = Sessions::new(ReleaseLine::new());
            play_entries(rt, &mut sessions, lines)
        }
    }
}

// Applies the entries behind a header to any service, and closes the record.
fn play_entries<S: Service>(rt: &HostRuntime, service: &mut S, lines: Lines) -> Result<(), Stop> {
    let mut tally = Tally::new();
    for (number, line) in lines {
        // A `Stop` is wide, so one is made only for a line that cannot be read: to carry each line through it, as
        // `map_err` and `?` do, takes four times as long on empty lines.
        match read_entry(line) {
            Err(fault) => return Err(Stop::Line(number, fault)),
            Ok(None) => {}
            Ok(Some(Entry::Apply(request))) => {
                let (status, value) = service.apply(request);
                tally.note(status);
                println!(rt; "{number} apply status {status} value {value}")?;
            }
        }
    }
    close(rt, service, &tally)
}
