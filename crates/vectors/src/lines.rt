// One line of published input and result.
use super::bytes::read_bytes;
use super::functions::Function;
use super::stops::{Fault, LineStop};
use std::alloc::Global;
use texts::next_word;

// What is left of a line that is read word by word.
#[derive(Clone, Copy, PartialEq, Eq, Debug)]
struct Line<'a> {
    rest: &'a [u8],
}

impl<'a> Line<'a> {
    // The next word, if there is one.
    fn word(&mut self) -> Option<&'a [u8]> {
        let (word, rest) = next_word(self.rest)?;
        self.rest = rest;
        Some(word)
    }

    // The bytes that the next word writes.
    fn bytes(&mut self, heap: Global) -> Result<Vec<u8>, LineStop> {
        let word = self.word().ok_or(Fault::Unread)?;
        let bytes = read_bytes(heap, word)?.ok_or(Fault::Unread)?;
        Ok(bytes)
    }
}

/// Runs the function that a line names on the line's bytes, and holds the result to the published one.
/// A line that is empty or a comment names none.
pub fn run_line(heap: Global, line: &[u8]) -> Result<Option<Function>, LineStop> {
    let mut line = Line { rest: line };
    let Some(name) = line.word() else {
        return Ok(None);
    };
    let function = Function::try_from(name)?;
    let key = if function.takes_key() {
        line.bytes(heap)?
    } else {
        Vec::new(heap)
    };
    let input = line.bytes(heap)?;
    let published = line.bytes(heap)?;
    if line.word().is_some() {
        return Err(Fault::Unread.into());
    }
    function.compare(&key, &input, &published)?;
    Ok(Some(function))
}
