// take: a replica reads bytes. What a message does depends on its type and on whether the view is open.
ghost use Rattle.std.specs.Prelude.{◌≡◌, true, false};
ghost use Rattle.std.specs.List.{list_all};
ghost use Rattle.protocol.specs.Changes.{complete};
ghost use Rattle.protocol.specs.Standing.{is_open, note_of, note_lacks};
ghost use Rattle.protocol.specs.Take.{any_low_ahead, any_history_missing, taken, take_prepare, take_commit, take_checkpoint, take_view_change, take_new_view};
ghost use Rattle.replica.specs.Judging.{judged, message_tests, change_tests};
ghost use Rattle.replica.specs.Standings.{standing_of, seen_alone, with_change};

use super::replica::Replica;
use super::standing::{Role, Standing};
use again::foundation;
use counter::Counter;
use drafts::Tagged;
use evidence::{Evident, complete, last_of};
use message::{Checkpoint, Commit, Delivered, Message, NewView, Prepare, ViewChange, ViewChanges};
use parts::{CHECKPOINT, COMMIT, NEW_VIEW, PREPARE, VIEW_CHANGE};
use service::Service;
use terms::{CHECKPOINT_INTERVAL, GroupSize, Order, Refusal, WINDOW};

impl<C: Counter, S: Service> Replica<C, S> {
    /// Reads bytes that some other seat is said to have written, and answers the type of the message that was taken.
    #[tactic(auto, unfolding(protocol::specs::Take::taken))]
    pub fn take(&mut self, bytes: &[u8]) -> Result<u32, Refusal>
        ensures { (result, standing_of C.size C.seat C.rule C.values S.state self.new) ≡ seen_alone (taken (standing_of C.size C.seat C.rule C.values S.state self.old) bytes.now) }
    {
        let Ok(message) = Message::read(bytes) else {
            return Err(Refusal::NoMessage);
        };
        match (self.standing(), message) {
            (Standing::Open, Message::Prepare(prepare)) => self.take_prepare(&prepare),
            (Standing::Open, Message::Commit(commit)) => self.take_commit(&commit),
            (Standing::Closed, Message::Prepare(_) | Message::Commit(_)) => {
                Err(Refusal::ViewClosed)
            }
            (_, Message::Checkpoint(checkpoint)) => self.take_checkpoint(&checkpoint),
            (Standing::Open, Message::ViewChange(change)) => {
                if change.target == self.view {
                    Err(Refusal::ViewOpen)
                } else {
                    Err(Refusal::WrongView)
                }
            }
            (Standing::Closed, Message::ViewChange(change)) => self.take_view_change(&change),
            (_, Message::NewView(new_view)) => self.take_new_view(&new_view),
        }
    }

    // In an open view: the leader's next proposal extends the record.
    fn take_prepare(&mut self, prepare: &Prepare) -> Result<u32, Refusal>
        requires { is_open (standing_of C.size C.seat C.rule C.values S.state self.old) ≡ true }
        ensures { (result, standing_of C.size C.seat C.rule C.values S.state self.new) ≡ seen_alone (take_prepare (standing_of C.size C.seat C.rule C.values S.state self.old) prepare.now) }
    {
        if prepare.view != self.view {
            return Err(Refusal::WrongView);
        }
        let Role::Follower = self.role() else {
            return Err(Refusal::OwnMessage);
        };
        let order = u64::from(prepare.order.0);
        if order != u64::from(self.end().0) + 1 {
            return Err(Refusal::WrongOrder);
        }
        if order > u64::from(self.low().0) + u64::from(WINDOW) {
            return Err(Refusal::BeyondWindow);
        }
        if !prepare.tagged(&self.counter) {
            return Err(Refusal::BadTag);
        }
        let leader = self.leader();
        self.record.push(leader, Tagged::from(prepare));
        self.settle();
        Ok(PREPARE)
    }

    // In an open view: a follower's vote is added to the entry of its order.
    fn take_commit(&mut self, commit: &Commit) -> Result<u32, Refusal>
        requires { is_open (standing_of C.size C.seat C.rule C.values S.state self.old) ≡ true }
        ensures { (result, standing_of C.size C.seat C.rule C.values S.state self.new) ≡ seen_alone (take_commit (standing_of C.size C.seat C.rule C.values S.state self.old) commit.now) }
    {
        if commit.view != self.view {
            return Err(Refusal::WrongView);
        }
        if commit.sender == self.leader() {
            return Err(Refusal::WrongRole);
        }
        if commit.sender == self.seat() {
            return Err(Refusal::OwnMessage);
        }
        if !commit.seated(self.group()) {
            return Err(Refusal::NoSuchSender);
        }
        if commit.order <= self.low() || commit.order > self.end() {
            return Err(Refusal::WrongOrder);
        }
        if !commit.tagged(&self.counter) {
            return Err(Refusal::BadTag);
        }
        if let Some(entry) = self.record.entry_at(u64::from(commit.order.0)) {
            if entry.has_vote(commit.sender) {
                return Err(Refusal::AlreadyHeld);
            }
            if commit.request() != entry.proposal.draft.request {
                return Err(Refusal::OtherRequest);
            }
        }
        self.record.add_vote(commit.sender, commit.order);
        self.settle();
        Ok(COMMIT)
    }

    // A CHECKPOINT fills its sender's place, if it is newer than the one there and lies above the low mark.
    fn take_checkpoint(&mut self, checkpoint: &Checkpoint) -> Result<u32, Refusal>
        ensures { (result, standing_of C.size C.seat C.rule C.values S.state self.new) ≡ seen_alone (take_checkpoint (standing_of C.size C.seat C.rule C.values S.state self.old) checkpoint.now) }
    {
        let Checkpoint { sender, order, .. } = checkpoint;
        let (sender, order) = (*sender, *order);
        if sender == self.seat() {
            return Err(Refusal::OwnMessage);
        }
        if !checkpoint.seated(self.group()) {
            return Err(Refusal::NoSuchSender);
        }
        if order.0 == 0 || order.0 % CHECKPOINT_INTERVAL != 0 {
            return Err(Refusal::WrongOrder);
        }
        if !checkpoint.tagged(&self.counter) {
            return Err(Refusal::BadTag);
        }
        if !self.claims.below(sender, order) || order <= self.low() {
            return Err(Refusal::AlreadyHeld);
        }
        self.claims.hold(Tagged::from(checkpoint));
        self.settle();
        Ok(CHECKPOINT)
    }

    // In a closed view: a VIEW-CHANGE to it fills its sender's place.
    fn take_view_change(&mut self, change: &ViewChange) -> Result<u32, Refusal>
        requires { is_open (standing_of C.size C.seat C.rule C.values S.state self.old) ≡ false }
        ensures { (result, standing_of C.size C.seat C.rule C.values S.state self.new) ≡ seen_alone (take_view_change (standing_of C.size C.seat C.rule C.values S.state self.old) change.now) }
    {
        if change.target != self.view {
            return Err(Refusal::WrongView);
        }
        if change.sender == self.seat() {
            return Err(Refusal::OwnMessage);
        }
        if !change.seated(self.group()) {
            return Err(Refusal::NoSuchSender);
        }
        if !change.tagged(&self.counter) {
            return Err(Refusal::BadTag);
        }
        if self.suspicions.is_held(change.sender) {
            return Err(Refusal::AlreadyHeld);
        }
        if !complete(change, self.group()) {
            return Err(Refusal::IncompleteViewChange);
        }
        if change.low > self.low() {
            return Err(Refusal::LowAhead);
        }
        if self.misses(change) {
            return Err(Refusal::HistoryMissing);
        }
        self.hold(change);
        self.settle();
        Ok(VIEW_CHANGE)
    }

    // A NEW-VIEW above the view of the record is accepted, if it follows from a quorum's VIEW-CHANGEs.
    #[tactic(auto, using(crate::proofs::Orders::founded_told, crate::proofs::Orders::accepted_told))]
    fn take_new_view(&mut self, new_view: &NewView) -> Result<u32, Refusal>
        ensures { (result, standing_of C.size C.seat C.rule C.values S.state self.new) ≡ seen_alone (take_new_view (standing_of C.size C.seat C.rule C.values S.state self.old) new_view.now) }
    {
        self.judge_message(new_view)?;
        self.judge_changes(&new_view.changes)?;
        let Some((low, prepares)) = foundation(self.group(), new_view) else {
            return Err(Refusal::UnfoundedNewView);
        };
        self.accept(new_view.view, low, &prepares);
        self.settle();
        Ok(NEW_VIEW)
    }

    // What speaks against a NEW-VIEW as a message: its view, its maker, its senders, its tags.
    fn judge_message(&self, new_view: &NewView) -> Result<(), Refusal>
        ensures { result ≡ judged (message_tests (standing_of C.size C.seat C.rule C.values S.state self.now) new_view.now) }
    {
        if new_view.view <= self.from() {
            return Err(Refusal::WrongView);
        }
        if self.group().leader(new_view.view) == self.seat() {
            return Err(Refusal::OwnMessage);
        }
        if !new_view.seated(self.group()) {
            return Err(Refusal::NoSuchSender);
        }
        if !new_view.tagged(&self.counter) {
            return Err(Refusal::BadTag);
        }
        Ok(())
    }

    // What speaks against the VIEW-CHANGEs in a NEW-VIEW.
    fn judge_changes(&self, changes: &ViewChanges) -> Result<(), Refusal>
        ensures { result ≡ judged (change_tests (standing_of C.size C.seat C.rule C.values S.state self.now) changes.now) }
    {
        if !all_complete(changes, self.group()) {
            return Err(Refusal::IncompleteViewChange);
        }
        if self.lags(changes) {
            return Err(Refusal::LowAhead);
        }
        if self.misses_any(changes) {
            return Err(Refusal::HistoryMissing);
        }
        Ok(())
    }

    // Whether the low mark of a VIEW-CHANGE lies above the replica's own.
    fn lags(&self, changes: &ViewChanges) -> bool
        ensures { result ≡ any_low_ahead (standing_of C.size C.seat C.rule C.values S.state self.now) changes.now }
    {
        let low = self.low();
        changes.iter().any(|change| change.low > low)
    }

    // Holds a VIEW-CHANGE in its sender's place.
    #[tactic(auto, using(crate::proofs::Orders::short_enough, crate::proofs::Orders::holds_back))]
    fn hold(&mut self, change: &ViewChange)
        ensures { standing_of C.size C.seat C.rule C.values S.state self.new ≡ with_change (standing_of C.size C.seat C.rule C.values S.state self.old) change.now }
    {
        self.suspicions.hold(change.sender, change.bytes());
    }

    // Whether a VIEW-CHANGE of several leaves out what this replica accepted.
    fn misses_any(&self, changes: &ViewChanges) -> bool
        ensures { result ≡ any_history_missing (standing_of C.size C.seat C.rule C.values S.state self.now) changes.now }
    {
        changes.iter().any(|change| self.misses(&change))
    }

    // Whether a VIEW-CHANGE leaves out what this replica accepted in the view of its entries, or the replica does not
    // remember that view.
    fn misses(&self, change: &ViewChange) -> bool
        ensures { result ≡ note_lacks change.now (note_of change.now.from (standing_of C.size C.seat C.rule C.values S.state self.now).noted) }
    {
        match self.notes.of(change.from) {
            Some(noted) => change.low < noted.low || last_of(change) < noted.top,
            None => true,
        }
    }
}

// Whether all VIEW-CHANGEs are complete.
fn all_complete(changes: &ViewChanges, group: GroupSize) -> bool
    ensures { result ≡ list_all (complete group.seats) changes.now }
{
    changes.iter().all(|change| complete(&change, group))
}
