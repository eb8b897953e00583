// All that a replica holds, in one line.
use super::lists::{Dotted, show_list};
use super::records::written_state;
use super::stops::Stop;
use counter::{COUNTERS, Counter};
use drafts::CheckpointDraft;
use replica::{Entry, Noted, Replica, Standing};
use service::Service;
use sha256::digest;
use std::fmt;
use terms::LARGEST_GROUP;
use texts::Hex;

// A view that was accepted.
#[derive(Clone, Copy, PartialEq, Eq, Debug)]
struct Accepted(Noted);

impl fmt::Display for Accepted {
    fn fmt<W: fmt::Write>(&self, f: &mut fmt::Formatter<W>) -> fmt::Result {
        let Noted { view, low, top } = self.0;
        write!(f, "{view}/{low}/{top}")
    }
}

// A CHECKPOINT that is held.
#[derive(Clone, Copy, PartialEq, Eq, Debug)]
struct Claimed(CheckpointDraft);

impl fmt::Display for Claimed {
    fn fmt<W: fmt::Write>(&self, f: &mut fmt::Formatter<W>) -> fmt::Result {
        let CheckpointDraft { sender, order, .. } = self.0;
        write!(f, "{sender}:{order}")
    }
}

// An entry of the record, and the seats whose votes for it are held.
#[derive(Clone, Copy, PartialEq, Eq, Debug)]
struct Entered(Entry);

impl fmt::Display for Entered {
    fn fmt<W: fmt::Write>(&self, f: &mut fmt::Formatter<W>) -> fmt::Result {
        let entry = self.0;
        write!(
            f,
            "{}:{}:",
            entry.order(),
            Dotted(entry.proposal.draft.request)
        )?;
        let mut mark = "";
        for seat in 0..LARGEST_GROUP {
            if entry.has_vote(seat) {
                write!(f, "{mark}{seat}")?;
                mark = ",";
            }
        }
        f.write_str(if mark.is_empty() { "-" } else { "" })
    }
}

/// Prints all that a replica holds, behind what stands on the line already.
pub fn show_replica<C: Counter, S: Service>(
    rt: &HostRuntime,
    replica: &Replica<C, S>,
) -> Result<(), Stop> {
    show_record(rt, replica)?;
    show_held(rt, replica)?;
    print!(rt; " count {} counter ", replica.count())?;
    let values = (0..COUNTERS as u32).filter_map(|number| replica.value(number).ok());
    show_list(rt, values, ",")?;
    let written = written_state(rt.alloc(), replica.service())?;
    let bytes = written.as_slice();
    println!(rt; " written {} {}", bytes.len(), Hex(&digest(bytes)))?;
    Ok(())
}

// Prints how a replica stands in its view, and its record.
fn show_record<C: Counter, S: Service>(
    rt: &HostRuntime,
    replica: &Replica<C, S>,
) -> Result<(), Stop> {
    let view = replica.view();
    let standing = open_or_closed(replica.standing());
    print!(rt;
        "view {view} {standing} from {} low {} proof ",
        replica.from(),
        replica.low()
    )?;
    let proof = replica.proof().iter();
    show_list(rt, proof.map(|claim| claim.draft.sender), ",")?;
    print!(rt; " end {} record ", replica.end())?;
    let entries = replica.entries().iter();
    show_list(rt, entries.map(|entry| Entered(*entry)), ";")
}

// Prints which views it accepted, and of which seats it holds VIEW-CHANGEs and CHECKPOINTs.
fn show_held<C: Counter, S: Service>(
    rt: &HostRuntime,
    replica: &Replica<C, S>,
) -> Result<(), Stop> {
    print!(rt; " noted ")?;
    let notes = replica.notes().iter();
    show_list(rt, notes.map(|noted| Accepted(*noted)), ",")?;
    print!(rt; " changes ")?;
    let seats = replica.group().seats();
    show_list(rt, (0..seats).filter(|seat| replica.suspects(*seat)), ",")?;
    print!(rt; " checkpoints ")?;
    let claims = (0..seats).filter_map(|seat| replica.claim(seat));
    show_list(rt, claims.map(|claim| Claimed(claim.draft)), ",")
}

/// Whether a view is open or closed, as a word.
pub fn open_or_closed(standing: Standing) -> &'static str {
    match standing {
        Standing::Open => "open",
        Standing::Closed => "closed",
    }
}
