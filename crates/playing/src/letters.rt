// What the replicas wrote, to be named by the line of the call, or delivered.
use super::stops::Stop;
use script::Bytes;
use std::alloc::{AllocError, Global};

/// Bytes that a call wrote.
#[derive(Clone, Drop)]
pub struct Letter {
    /// The seat whose replica wrote them.
    pub seat: u32,
    pub bytes: Vec<u8>,
}

// A letter by the number of the line whose call wrote it, and whether it is still to be delivered.
#[derive(Drop)]
struct Kept {
    line: u64,
    letter: Letter,
    waits: bool,
}

/// All that was written by the calls of a script, by ascending lines.
#[derive(Drop)]
pub struct Letters {
    kept: Vec<Kept>,
}

impl Letters {
    /// Nothing is written yet.
    pub fn new(heap: Global) -> Letters {
        Letters {
            kept: Vec::new(heap),
        }
    }

    /// Keeps what the call on a line wrote, which is below all lines before. It waits to be delivered.
    pub fn keep(&mut self, line: u64, letter: Letter) -> Result<(), AllocError> {
        self.kept.push(Kept {
            line,
            letter,
            waits: true,
        })?;
        Ok(())
    }

    /// The bytes that the entry on a line names.
    pub fn bytes_of(&self, heap: Global, number: u64, bytes: Bytes) -> Result<Vec<u8>, Stop> {
        match bytes {
            Bytes::Here(word) => Ok(word.bytes(heap)?),
            Bytes::Line(line) => {
                let line = u64::from(line);
                let kept = self.at(line).ok_or(Stop::NothingWritten(number, line))?;
                Ok(kept.letter.bytes.clone()?)
            }
        }
    }

    /// The letter of a line, which the entry of another line delivers.
    pub fn deliver(&mut self, number: u64, line: u64) -> Result<&Letter, Stop> {
        let Ok(place) = self.kept.binary_search_by_key(&line, |kept| kept.line) else {
            return Err(Stop::NothingWritten(number, line));
        };
        let kept = &mut self.kept[place];
        kept.waits = false;
        Ok(&kept.letter)
    }

    /// Copies of all that wait to be delivered, which do so no longer.
    pub fn take_waiting(&mut self, heap: Global) -> Result<Vec<Letter>, AllocError> {
        let mut waiting = Vec::new(heap);
        for kept in &mut self.kept {
            if kept.waits {
                kept.waits = false;
                waiting.push(kept.letter.clone()?)?;
            }
        }
        Ok(waiting)
    }

    // What is kept of a line.
    fn at(&self, line: u64) -> Option<&Kept> {
        let place = self
            .kept
            .binary_search_by_key(&line, |kept| kept.line)
            .ok()?;
        self.kept.get(place)
    }
}
