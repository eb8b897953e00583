// The works that are timed: each result is written over the front of the next message, so that none can be left out.
use super::stops::Stop;
use aes::CmacKey;
use sha256::{HmacKey, digest};
use std::alloc::{AllocError, Global};
use std::fmt;
use std::str::FromStr;

// The length of a long message, and of what a counter tags for the shortest message that carries a request.
const LONG: usize = 16384;

const STATEMENT: usize = 60;

/// What is timed.
#[derive(Clone, Copy, PartialEq, Eq, Debug)]
pub enum Work {
    /// SHA-256 of 16 KiB.
    Digests,
    /// HMAC-SHA-256 of 60 bytes, with the key ready.
    HmacTags,
    /// AES-CMAC of 16 KiB, with the key ready.
    LongCmacTags,
    /// AES-CMAC of 60 bytes, with the key ready.
    CmacTags,
}

/// All works.
pub const WORKS: [Work; 4] = [
    Work::Digests,
    Work::HmacTags,
    Work::LongCmacTags,
    Work::CmacTags,
];

impl fmt::Display for Work {
    fn fmt<W: fmt::Write>(&self, f: &mut fmt::Formatter<W>) -> fmt::Result {
        f.write_str(match self {
            Work::Digests => "SHA-256 of 16 KiB",
            Work::HmacTags => "HMAC-SHA-256 of 60 bytes",
            Work::LongCmacTags => "AES-CMAC of 16 KiB",
            Work::CmacTags => "AES-CMAC of 60 bytes",
        })
    }
}

impl FromStr for Work {
    type Err = Stop;

    fn from_str(word: &str) -> Result<Work, Stop> {
        match word {
            "sha256" => Ok(Work::Digests),
            "hmac" => Ok(Work::HmacTags),
            "cmac" => Ok(Work::LongCmacTags),
            "cmac-tags" => Ok(Work::CmacTags),
            _ => Err(Stop::Arguments),
        }
    }
}

impl Work {
    /// Does the work count times, and gives the last message with the last result at its front.
    pub fn run(self, heap: Global, count: u32) -> Result<Vec<u8>, AllocError> {
        match self {
            Work::Digests => repeated(heap, LONG, count, |message| {
                let result = digest(message);
                overwrite(message, result);
            }),
            Work::HmacTags => {
                let key = HmacKey::new(&[7; 32]);
                repeated(heap, STATEMENT, count, |message| {
                    let result = key.tag(message);
                    overwrite(message, result);
                })
            }
            Work::LongCmacTags => repeated_cmac(heap, LONG, count),
            Work::CmacTags => repeated_cmac(heap, STATEMENT, count),
        }
    }
}

fn repeated_cmac(heap: Global, len: usize, count: u32) -> Result<Vec<u8>, AllocError> {
    let key = CmacKey::new(&[7; 16]);
    repeated(heap, len, count, |message| {
        let result = key.tag(message);
        overwrite(message, result);
    })
}

// Works on a message count times, and gives the last message.
fn repeated<F: Fn(&mut [u8])>(
    heap: Global,
    len: usize,
    count: u32,
    work: F,
) -> Result<Vec<u8>, AllocError>
    requires { F.IsAlwaysCallable work }
{
    let mut message = vec![in heap; b'a'; len]?;
    for _ in 0..count {
        work(&mut message);
    }
    Ok(message)
}

/// Writes a result over the front of a message, where it fits.
pub fn overwrite<const N: usize>(message: &mut [u8], tag: [u8; N]) {
    if let Some(front) = message.first_chunk_mut() {
        *front = tag;
    }
}
