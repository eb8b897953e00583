// The bytes that an entry names.
use super::stops::Stop;
use script::Bytes;
use std::alloc::Global;

/// The bytes that an entry names, where no entry of the script writes bytes that another could name by its line.
pub fn bytes_of(heap: Global, number: u64, bytes: Bytes) -> Result<Vec<u8>, Stop> {
    match bytes {
        Bytes::Here(word) => Ok(word.bytes(heap)?),
        Bytes::Line(line) => Err(Stop::NothingWritten(number, u64::from(line))),
    }
}
