// The release line: one number that only rises.
ghost use Rattle.std.specs.Prelude.{◌≡◌, ℕ};
ghost use Rattle.service.specs.Failures.{outcome_reply};
ghost use Rattle.xdr.specs.Layout.{int};
ghost use Rattle.registers.specs.Operations.{action_or_failure};
ghost use Rattle.registers.specs.Release.{release_reply, release_next};
ghost use Rattle.registers.specs.ReleaseLaws.{ReleaseLaws};

use service::{Failure, Service, reply_of};
use std::marker::Model;
use terms::Request;
use xdr::{Row, Writer};

// The written state is one number.
const WRITTEN_BYTES: usize = 4;

// What a request's code asks of the release line.
#[derive(Clone, Copy, PartialEq, Eq, Debug)]
enum Action {
    Raise,
    Read,
}

impl TryFrom<u32> for Action {
    type Error = Failure;

    ghost try_from_gives = { λ code answer. answer ≡ action_or_failure code };

    fn try_from(code: u32) -> Result<Action, Failure> {
        match code {
            1 => Ok(Action::Raise),
            2 => Ok(Action::Read),
            _ => Err(Failure::NotTaken),
        }
    }
}

/// The number of the latest release.
#[derive(Drop, Debug)]
pub struct ReleaseLine {
    released: u32,
}

/// A line stands for its latest release.
impl Model for ReleaseLine {
    ghost Value = { ℕ };

    ghost view = { λ s. s.released };
}

impl ReleaseLine {
    /// A line on which nothing was released yet.
    pub fn new() -> ReleaseLine
        ensures start { result ≡ 0 }
        ensures laws { ReleaseLaws }
    {
        ReleaseLine { released: 0 }
    }

    /// The latest release.
    pub fn released(&self) -> u32
        ensures { result ≡ self.now }
    {
        self.released
    }

    // Carries out a request.
    fn carry_out(&mut self, request: Request) -> Result<u32, Failure>
        ensures answer { outcome_reply result ≡ release_reply self.old request }
        ensures after { self.new ≡ release_next self.old request }
    {
        match Action::try_from(request.code)? {
            Action::Raise if request.value <= self.released => return Err(Failure::NotAvailable),
            Action::Raise => self.released = request.value,
            Action::Read => {}
        }
        Ok(self.released)
    }
}

impl Service for ReleaseLine {
    ghost State = { ℕ };

    ghost state = { λ s. s };

    ghost next = { release_next };

    ghost reply = { release_reply };

    ghost written = { int };

    fn apply(&mut self, request: Request) -> (u32, u32) {
        reply_of(self.carry_out(request))
    }

    fn written_len(&self) -> usize {
        WRITTEN_BYTES
    }

    fn write(&self, out: &mut [u8]) -> Option<usize> {
        if out.len() < WRITTEN_BYTES {
            return None;
        }
        let mut writer = Writer::new(out);
        self.released.put_row(&mut writer);
        Some(writer.position())
    }
}
