// AES-128 encryption (FIPS 197), and the tags of AES-CMAC (RFC 4493).
#![tactic(auto)]

mod blocks;
mod bytes;
mod chains;
mod ciphers;
mod expansion;
mod macs;
mod rounds;
mod states;
mod subkeys;

pub use blocks::Block;
pub use bytes::double;
pub use ciphers::Aes128;
pub use macs::CmacKey;
pub use states::Cmac;
pub use streams::Stream;
pub use subkeys::double_block;
