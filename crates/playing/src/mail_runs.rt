// Looking into recorded mail: each entry shows the message that bytes are, in words.
use super::messages::show_message;
use super::named::bytes_of;
use super::records::{Refused, close_mail};
use super::stops::Stop;
use message::Message;
use script::{Bytes, MailEntry, YesNo, read_mail_entry};
use texts::Lines;

/// Shows what the entries behind a header ask for.
pub fn play_mail(rt: &HostRuntime, number: u64, lines: Lines) -> Result<(), Stop> {
    println!(rt; "{number} mail")?;
    let mut messages = YesNo::new();
    for (number, line) in lines {
        let entry = read_mail_entry(line).map_err(|fault| Stop::Line(number, fault))?;
        match entry {
            None => {}
            Some(MailEntry::Read(bytes)) => messages.note(read(rt, number, bytes)?),
        }
    }
    close_mail(rt, messages)
}

// Prints the message that bytes are, or the refusal. Whether they are one.
fn read(rt: &HostRuntime, number: u64, bytes: Bytes) -> Result<bool, Stop> {
    let bytes = bytes_of(rt.alloc(), number, bytes)?;
    match Message::read(&bytes) {
        Ok(message) => {
            print!(rt; "{number} read ")?;
            show_message(rt, &message)?;
            Ok(true)
        }
        Err(refusal) => {
            println!(rt; "{number} read {}", Refused(refusal))?;
            Ok(false)
        }
    }
}
