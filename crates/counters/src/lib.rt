// The two kinds of trusted counters, by HMAC-SHA-256 and by AES-CMAC: one body over any tag function.
#![tactic(auto)]

mod checkers;
mod macs;
mod tags;
mod trusted;

pub use checkers::TagChecker;
pub use macs::{AesCmac, HmacSha256, Mac};
pub use trusted::{CmacCounter, HmacCounter, TrustedCounter};
