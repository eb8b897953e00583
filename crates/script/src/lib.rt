// The language of run scripts: the header, the entries that stand below it, and the closing record's counts.
#![tactic(auto)]

mod bytes;
mod counter_entries;
mod entries;
mod faults;
mod group_calls;
mod group_entries;
mod headers;
mod keys;
mod lengths;
mod mail_entries;
mod tallies;
mod verbs;
mod words;

pub use bytes::Bytes;
pub use counter_entries::{Certify, Claim, CounterEntry, read_counter_entry};
pub use entries::{Entry, read_entry};
pub use faults::{Expected, Fault};
pub use group_calls::{Asked, Called, Marked, Taken};
pub use group_entries::{GroupEntry, SeatCertify, UsedCounter, read_group_entry};
pub use headers::{CounterHeader, GroupHeader, Header, RegisterKind, ServiceKind, read_header};
pub use keys::Key;
pub use lengths::Lengths;
pub use mail_entries::{MailEntry, read_mail_entry};
pub use tallies::{Tally, YesNo};
