// What anybody may read of a replica. Reading changes nothing.
ghost use Rattle.std.specs.Prelude.{◌≡◌, None, Option, map, slice_index_or};
ghost use Rattle.std.specs.Option.{option_map};
ghost use Rattle.counter.specs.Certificates.{value_read};
ghost use Rattle.drafts.specs.Says.{kept_checkpoint};
ghost use Rattle.holdings.specs.Kept.{kept_entries, kept_note};
ghost use Rattle.protocol.specs.Standing.{quorum, leader, leads, is_open, end, is_held};
ghost use Rattle.replica.specs.Standings.{standing_of, open_if, leader_if};

use super::replica::Replica;
use super::standing::{Role, Standing};
use counter::Counter;
use drafts::{CheckpointDraft, Tagged};
use holdings::{Entry, Noted};
use service::Service;
use terms::{GroupSize, Order, Refusal, View};

impl<C: Counter, S: Service> Replica<C, S> {
    /// The group.
    pub fn group(&self) -> GroupSize
        ensures { result.seats ≡ (standing_of C.size C.seat C.rule C.values S.state self.now).size }
    {
        self.counter.group()
    }

    /// The replica's seat.
    pub fn seat(&self) -> u32
        ensures { result ≡ (standing_of C.size C.seat C.rule C.values S.state self.now).seat }
    {
        self.counter.seat()
    }

    /// Its view.
    pub fn view(&self) -> View
        ensures { result.0 ≡ (standing_of C.size C.seat C.rule C.values S.state self.now).view }
    {
        self.view
    }

    /// Whether the view is open.
    pub fn standing(&self) -> Standing
        ensures { result ≡ open_if (is_open (standing_of C.size C.seat C.rule C.values S.state self.now)) }
    {
        if self.record.from() == self.view {
            Standing::Open
        } else {
            Standing::Closed
        }
    }

    /// Its part in the view.
    pub fn role(&self) -> Role
        ensures { result ≡ leader_if (leads (standing_of C.size C.seat C.rule C.values S.state self.now)) }
    {
        if self.leader() == self.seat() {
            Role::Leader
        } else {
            Role::Follower
        }
    }

    /// The leader of the view.
    pub fn leader(&self) -> u32
        ensures { result ≡ leader (standing_of C.size C.seat C.rule C.values S.state self.now) }
    {
        self.group().leader(self.view)
    }

    /// The low mark: the last checkpoint that a quorum proved.
    pub fn low(&self) -> Order
        ensures { result.0 ≡ (standing_of C.size C.seat C.rule C.values S.state self.now).low }
    {
        self.record.low()
    }

    /// The CHECKPOINTs that prove the low mark.
    pub fn proof(&self) -> &[Tagged<CheckpointDraft>]
        ensures { map kept_checkpoint result.now ≡ (standing_of C.size C.seat C.rule C.values S.state self.now).proof }
    {
        self.proof.as_slice()
    }

    /// The view that the record is of.
    pub fn from(&self) -> View
        ensures { result.0 ≡ (standing_of C.size C.seat C.rule C.values S.state self.now).from }
    {
        self.record.from()
    }

    /// The entries of the record, the lowest order first.
    pub fn entries(&self) -> &[Entry]
        ensures { kept_entries result.now ≡ (standing_of C.size C.seat C.rule C.values S.state self.now).entries }
    {
        self.record.entries()
    }

    /// The order of the last entry, or the low mark if there is none.
    pub fn end(&self) -> Order
        ensures { result.0 ≡ end (standing_of C.size C.seat C.rule C.values S.state self.now) }
    {
        self.record.end()
    }

    /// The last views that it accepted, the latest last.
    pub fn notes(&self) -> &[Noted]
        ensures { map kept_note result.now ≡ (standing_of C.size C.seat C.rule C.values S.state self.now).noted }
    {
        self.notes.as_slice()
    }

    /// Whether a VIEW-CHANGE of a seat is held.
    pub fn suspects(&self, seat: u32) -> bool
        ensures { result ≡ is_held (slice_index_or (standing_of C.size C.seat C.rule C.values S.state self.now).changes seat None) }
    {
        self.suspicions.is_held(seat)
    }

    /// The latest CHECKPOINT that is held of a seat.
    pub fn claim(&self, seat: u32) -> Option<Tagged<CheckpointDraft>>
        ensures { option_map kept_checkpoint result ≡ slice_index_or (standing_of C.size C.seat C.rule C.values S.state self.now).checkpoints seat None }
    {
        self.claims.of(seat)
    }

    /// How many requests it carried out.
    pub fn count(&self) -> u32
        ensures { result ≡ (standing_of C.size C.seat C.rule C.values S.state self.now).count }
    {
        self.count
    }

    /// The value of a counter of its seat, or refusal 24.
    pub fn value(&self, number: u32) -> Result<u64, Refusal>
        ensures { result ≡ value_read (standing_of C.size C.seat C.rule C.values S.state self.now).values number }
    {
        self.counter.value(number)
    }

    /// Its service, to be read: a shared reference does not apply anything.
    pub fn service(&self) -> &S
        ensures { S.state result.now ≡ (standing_of C.size C.seat C.rule C.values S.state self.now).state }
    {
        &self.service
    }
}
