// The two kinds of counters whose groups are timed.
use super::stops::Stop;
use std::fmt;
use std::str::FromStr;

/// By which tag function the counters of a group certify.
#[derive(Clone, Copy, PartialEq, Eq, Debug)]
pub enum CounterKind {
    Hmac,
    Cmac,
}

/// Both kinds.
pub const COUNTER_KINDS: [CounterKind; 2] = [CounterKind::Hmac, CounterKind::Cmac];

impl fmt::Display for CounterKind {
    fn fmt<W: fmt::Write>(&self, f: &mut fmt::Formatter<W>) -> fmt::Result {
        f.write_str(match self {
            CounterKind::Hmac => "HMAC-SHA-256",
            CounterKind::Cmac => "AES-CMAC",
        })
    }
}

impl FromStr for CounterKind {
    type Err = Stop;

    fn from_str(word: &str) -> Result<CounterKind, Stop> {
        match word {
            "hmac" => Ok(CounterKind::Hmac),
            "cmac" => Ok(CounterKind::Cmac),
            _ => Err(Stop::Arguments),
        }
    }
}
