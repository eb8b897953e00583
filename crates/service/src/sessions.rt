// Sessions over any service: a client's request is applied once, however often it arrives.
ghost use Rattle.std.specs.Prelude.{◌≡◌, List, length, replicate};
ghost use Rattle.service.specs.declared.kept.Kept.{Kept};
ghost use Rattle.service.specs.Laws.{SessionLaws};
ghost use Rattle.service.specs.Sessions.{clients, nothing_kept, session_reply, session_next, session_written};

use super::contract::Service;
use super::failures::Failure;
use super::kept::{KEPT_BYTES, Kept};
use std::cmp::Ordering;
use terms::Request;
use xdr::Writer;

/// Clients are numbered from 0 to one below this.
pub const CLIENTS: usize = 16;

// The written rows of all clients.
const ROWS_BYTES: usize = CLIENTS * KEPT_BYTES;

/// A service over another one, which applies each client's requests in ascending order of their sequences, each once.
#[derive(Drop)]
pub struct Sessions<S: Service> {
    kept: [Kept; CLIENTS],
    below: S,
    ghost full: { length kept ≡ clients },
}

impl<S: Service> Sessions<S> {
    /// Sessions in which no client has asked for anything yet.
    pub fn new(below: S) -> Sessions<S>
        ensures kept { result.kept ≡ replicate clients nothing_kept }
        ensures below { result.below ≡ below }
        ensures laws { SessionLaws S.Service.next S.Service.reply }
    {
        let nothing = Kept {
            sequence: 0,
            reply: (0, 0),
        };
        Sessions {
            kept: [nothing; CLIENTS],
            below,
        }
    }

    /// The service below.
    pub fn below(&self) -> &S
        ensures { result.now ≡ self.now.below }
    {
        &self.below
    }
}

impl<S: Service> Service for Sessions<S> {
    ghost State = { List Kept × S.Service.State };

    ghost state = { λ s. (s.kept, S.Service.state s.below) };

    ghost next = { session_next S.Service.next S.Service.reply };

    ghost reply = { session_reply S.Service.reply };

    ghost written = { session_written S.Service.written };

    fn apply(&mut self, request: Request) -> (u32, u32) {
        let client = request.client as usize;
        let Some(kept) = self.kept.get(client).copied() else {
            return Failure::NoSuchClient.into();
        };
        if request.sequence == 0 {
            return Failure::OldSequence.into();
        }
        match request.sequence.cmp(&kept.sequence) {
            Ordering::Less => Failure::OldSequence.into(),
            Ordering::Equal => kept.reply,
            Ordering::Greater => {
                let reply = self.below.apply(request);
                self.kept[client] = Kept {
                    sequence: request.sequence,
                    reply,
                };
                reply
            }
        }
    }

    fn written_len(&self) -> usize {
        self.below.written_len().saturating_add(ROWS_BYTES)
    }

    fn write(&self, out: &mut [u8]) -> Option<usize> {
        if out.len() < ROWS_BYTES {
            return None;
        }
        let below = self.below.write(&mut out[ROWS_BYTES..])?;
        let mut writer = Writer::new(out);
        writer.put_rows(&self.kept);
        Some(writer.position() + below)
    }
}
