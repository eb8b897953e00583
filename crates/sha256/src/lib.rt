// SHA-256 (FIPS 180-4) and HMAC-SHA-256 (RFC 2104), over bytes that may come in parts.
#![tactic(auto)]

mod compression;
mod constants;
mod functions;
mod hashing;
mod tags;

pub use hashing::{Sha256, digest};
pub use streams::Stream;
pub use tags::{Hmac, HmacKey};
