// Playing a script: its header says what is played.
use super::counter_runs::play_counter;
use super::group_runs::play_group;
use super::mail_runs::play_mail;
use super::register_runs::play_register;
use super::stops::Stop;
use script::{Header, read_header};
use texts::Lines;

/// Plays a whole script. One without a header line does nothing.
pub fn play(rt: &HostRuntime, script: &[u8]) -> Result<(), Stop> {
    let mut lines = Lines::of(script);
    for (number, line) in lines.by_ref() {
        match read_header(line) {
            Err(fault) => return Err(Stop::Line(number, fault)),
            Ok(None) => {}
            Ok(Some(header)) => return play_behind(rt, number, header, lines),
        }
    }
    Ok(())
}

// Plays what a header asks for, on the lines behind it.
fn play_behind(rt: &HostRuntime, number: u64, header: Header, lines: Lines) -> Result<(), Stop> {
    match header {
        Header::Register(kind) => play_register(rt, number, kind, lines),
        Header::Counter(counter) => play_counter(rt, number, counter, lines),
        Header::Mail => play_mail(rt, number, lines),
        Header::Group(group) => play_group(rt, number, group, lines),
    }
}
