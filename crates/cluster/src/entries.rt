// The entries of a run as a caller makes them, and what each answers.
ghost use Rattle.std.specs.Prelude.{◌≡◌};
ghost use Rattle.cluster.specs.Entries.{seat_of};
ghost use Rattle.xdr.specs.Laws.{Bytes};
ghost use Rattle.cluster.specs.Promises.{CallFits, EntryFits};

use counter::Kind;
use terms::{Order, Request, TAG_BYTES, View};

/// A call on a replica.
#[derive(Clone, Copy, PartialEq, Eq, Debug)]
pub enum Call<'a> {
    Ask(Request),
    Take(&'a [u8]),
    Vote,
    CarryOut,
    Mark,
    Suspect,
    Open,
}

/// An entry of a run.
#[derive(Clone, Copy, PartialEq, Eq, Debug)]
pub enum Entry<'a> {
    /// A call on the replica at a seat.
    At {
        seat: u32,
        call: Call<'a>,
    },
    /// A certificate call on the counter at a seat in other hands.
    Elsewhere {
        seat: u32,
        kind: Kind,
        number: u32,
        new: u64,
        message: &'a [u8],
    },
}

impl Entry<'_> {
    /// The seat that it is for.
    pub fn seat(self) -> u32
        ensures { result ≡ seat_of self.entry }
    {
        match self {
            Entry::At { seat, .. } | Entry::Elsewhere { seat, .. } => seat,
        }
    }
}

/// What an entry that was not refused answers.
#[derive(Clone, Copy, PartialEq, Eq, Debug)]
pub enum Answer {
    /// The order that was answered, and how many bytes were written.
    Ordered(Order, usize),
    /// The view that was answered, and how many bytes were written.
    Viewed(View, usize),
    /// The type of the message that was taken.
    Took(u32),
    /// The order of the request that was carried out, and the reply to it: status and value.
    CarriedOut(Order, (u32, u32)),
    /// The tag of a certificate.
    Certified([u8; TAG_BYTES]),
}

// There is nothing to run in the next three: their contracts say what the types of arguments mean, a number of 32 bits
// or bytes.

fn bytes_fit(bytes: &[u8])
    ensures { Bytes bytes.now }
{}

fn call_fits(call: Call<'_>)
    ensures { CallFits call.entry }
{
    if let Call::Take(bytes) = call {
        bytes_fit(bytes);
    }
}

pub(crate) fn entry_fits(entry: Entry<'_>)
    ensures { EntryFits entry.entry }
{
    if let Entry::At { call, .. } = entry {
        call_fits(call);
    }
}
