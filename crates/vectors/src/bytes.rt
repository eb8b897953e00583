// Bytes as the lines write them.
use std::alloc::{AllocError, Global};
use texts::{read_hex, read_number};

/// The bytes of a word: `-` for none, hexadecimal digits, or `COUNT*DIGITS` for those bytes COUNT times.
pub fn read_bytes(heap: Global, word: &[u8]) -> Result<Option<Vec<u8>>, AllocError> {
    if matches!(word, b"-") {
        return Ok(Some(Vec::new(heap)));
    }
    let Some(star) = word.iter().position(|byte| *byte == b'*') else {
        return read_hex(heap, word);
    };
    let Some(count) = read_number(&word[..star]) else {
        return Ok(None);
    };
    let Some(once) = read_hex(heap, &word[star + 1..])? else {
        return Ok(None);
    };
    Ok(Some(once.as_slice().repeat(heap, count as usize)?))
}
