// The header: what the script runs.
ghost use Rattle.std.specs.Prelude.{◌≡◌};
ghost use Rattle.texts.specs.Cutting.{words_of};
ghost use Rattle.script.specs.Headers.{header_of, service_of, sessions_of, register_of, counter_of, group_of, HeadersReadBack};

use super::faults::{Expected, Fault};
use super::keys::Key;
use super::words::Words;
use std::fmt;

/// A register that can stand alone or below sessions.
#[derive(Clone, Copy, PartialEq, Eq, Debug)]
pub enum RegisterKind {
    Glyphs,
    Release,
}

/// A service: a register, alone or behind sessions.
#[derive(Clone, Copy, PartialEq, Eq, Debug)]
pub enum ServiceKind {
    Alone(RegisterKind),
    Sessions(RegisterKind),
}

/// A counter alone: the number of the group's seats, the counter's seat, and its key.
#[derive(Clone, Copy, PartialEq, Eq, Debug)]
pub struct CounterHeader {
    pub seats: u32,
    pub seat: u32,
    pub key: Key,
}

/// A group: the number of its seats, the key of its counters, and the service at each seat.
#[derive(Clone, Copy, PartialEq, Eq, Debug)]
pub struct GroupHeader {
    pub seats: u32,
    pub key: Key,
    pub service: ServiceKind,
}

/// What a script runs.
#[derive(Clone, Copy, PartialEq, Eq, Debug)]
pub enum Header {
    Register(ServiceKind),
    Counter(CounterHeader),
    Mail,
    Group(GroupHeader),
}

impl fmt::Display for RegisterKind {
    fn fmt<W: fmt::Write>(&self, f: &mut fmt::Formatter<W>) -> fmt::Result {
        f.write_str(match self {
            RegisterKind::Glyphs => "glyphs",
            RegisterKind::Release => "release",
        })
    }
}

impl fmt::Display for ServiceKind {
    fn fmt<W: fmt::Write>(&self, f: &mut fmt::Formatter<W>) -> fmt::Result {
        match self {
            ServiceKind::Alone(register) => write!(f, "{register}"),
            ServiceKind::Sessions(register) => write!(f, "sessions {register}"),
        }
    }
}

/// The header that a line is, nothing for a line without words, or the first fault from the left.
/// Every header that is written with single spaces reads as itself.
#[tactic(auto, using(crate::proofs::Backs::headers_read_back), unfolding(crate::specs::Words::spelt))]
pub fn read_header(line: &[u8]) -> Result<Option<Header>, Fault>
    ensures value { result ≡ header_of (words_of line.now) }
    ensures back { HeadersReadBack }
{
    let mut words = Words::of(line);
    let fault = words.fault(Expected::Header);
    match words.next() {
        None => Ok(None),
        Some(word) if word == b"register".as_slice() => {
            Ok(Some(Header::Register(read_service(&mut words)?)))
        }
        Some(word) if word == b"counter".as_slice() => {
            Ok(Some(Header::Counter(read_counter(&mut words)?)))
        }
        Some(word) if word == b"mail".as_slice() => words.end_with(Some(Header::Mail)),
        Some(word) if word == b"group".as_slice() => {
            Ok(Some(Header::Group(read_group(&mut words)?)))
        }
        Some(_) => Err(fault),
    }
}

// The seats, the seat and the key of a counter, and nothing behind them.
#[tactic(auto, unfolding(crate::specs::Headers::counter_of))]
fn read_counter(words: &mut Words) -> Result<CounterHeader, Fault>
    ensures { result ≡ counter_of words.old }
{
    let seats = words.number()?;
    let seat = words.number()?;
    let key = Key::next_of(words)?;
    words.end_with(CounterHeader { seats, seat, key })
}

// The seats, the key and the service of a group, and nothing behind them.
#[tactic(auto, unfolding(crate::specs::Headers::group_of))]
fn read_group(words: &mut Words) -> Result<GroupHeader, Fault>
    ensures { result ≡ group_of words.old }
{
    let seats = words.number()?;
    let key = Key::next_of(words)?;
    let service = read_service(words)?;
    Ok(GroupHeader {
        seats,
        key,
        service,
    })
}

// A service, and nothing behind it.
#[tactic(auto, unfolding(crate::specs::Words::spelt, crate::specs::Headers::service_of))]
fn read_service(words: &mut Words) -> Result<ServiceKind, Fault>
    ensures { result ≡ service_of words.old }
{
    let fault = words.fault(Expected::Service);
    let word = words.next().ok_or(fault)?;
    if word == b"sessions".as_slice() {
        return read_sessions(words);
    }
    let register = read_register(word).ok_or(fault)?;
    words.end_with(ServiceKind::Alone(register))
}

// The register behind the sessions, and nothing behind it.
fn read_sessions(words: &mut Words) -> Result<ServiceKind, Fault>
    ensures { result ≡ sessions_of words.old }
{
    let fault = words.fault(Expected::PlainService);
    let register = words.next().and_then(read_register).ok_or(fault)?;
    words.end_with(ServiceKind::Sessions(register))
}

// The register that a word names.
#[tactic(auto, using(crate::proofs::Spelling::spelling))]
fn read_register(word: &[u8]) -> Option<RegisterKind>
    ensures { result ≡ register_of word.now }
{
    match word {
        b"glyphs" => Some(RegisterKind::Glyphs),
        b"release" => Some(RegisterKind::Release),
        _ => None,
    }
}
