// Any message: the bytes are read by the type that begins them.
ghost use Rattle.std.specs.Prelude.{◌≡◌};
ghost use Rattle.std.specs.Option.{ok_or};
ghost use Rattle.counter.specs.Statements.{stated};
ghost use Rattle.terms.specs.declared.refusals.Refusal.TheVariants.{NoMessage};
ghost use Rattle.message.specs.Decoding.{decode, encode, type_number, says, tag_of};
ghost use Rattle.message.specs.Laws.{MessageFits, MessagesExact, MessageSizes};

use super::new_view::NewView;
use super::view_change::ViewChange;
use counter::Statement;
use parts::{
    CHECKPOINT, COMMIT, Checkpoint, Commit, Delivered, NEW_VIEW, PREPARE, Prepare, VIEW_CHANGE,
    read_whole, split_type,
};
use terms::{GroupSize, Refusal, TAG_BYTES};

/// A message of any kind, as a part of delivered bytes.
#[derive(Drop)]
pub enum Message<'a> {
    Prepare(Prepare<'a>),
    Commit(Commit<'a>),
    Checkpoint(Checkpoint<'a>),
    ViewChange(ViewChange<'a>),
    NewView(NewView<'a>),
}

impl<'a> Message<'a> {
    /// The message that bytes are, or refusal 5. Bytes are a message exactly if they are its encoding, and how many
    /// they are follows from what it says.
    #[tactic(auto, using(crate::proofs::Decoding::messages_exact, crate::proofs::Sizes::message_sizes))]
    pub fn read(bytes: &'a [u8]) -> Result<Message<'a>, Refusal>
        ensures value { result ≡ ok_or (decode bytes.now) NoMessage }
        ensures exact { MessagesExact }
        ensures sizes { MessageSizes }
    {
        read_by_type(bytes).ok_or(Refusal::NoMessage)
    }

    /// The number of the message's type, which begins its bytes.
    pub fn type_number(&self) -> u32
        ensures { result ≡ type_number self.now }
    {
        match self {
            Message::Prepare(_) => PREPARE,
            Message::Commit(_) => COMMIT,
            Message::Checkpoint(_) => CHECKPOINT,
            Message::ViewChange(_) => VIEW_CHANGE,
            Message::NewView(_) => NEW_VIEW,
        }
    }

    /// The bytes of the whole message, which is within its limits.
    pub fn bytes(&self) -> &'a [u8]
        ensures value { result.now ≡ encode self.now }
        ensures fits { MessageFits self.now }
    {
        match self {
            Message::Prepare(prepare) => prepare.bytes(),
            Message::Commit(commit) => commit.bytes(),
            Message::Checkpoint(checkpoint) => checkpoint.bytes(),
            Message::ViewChange(change) => change.bytes(),
            Message::NewView(new_view) => new_view.bytes(),
        }
    }

    /// The message's tag.
    pub fn tag(&self) -> &'a [u8; TAG_BYTES]
        ensures { result.now ≡ tag_of self.now }
    {
        match self {
            Message::Prepare(prepare) => prepare.tag,
            Message::Commit(commit) => commit.tag,
            Message::Checkpoint(checkpoint) => checkpoint.tag,
            Message::ViewChange(change) => change.tag,
            Message::NewView(new_view) => new_view.tag,
        }
    }

    /// The statement for which the message is tagged in a group.
    pub fn statement(&self, group: GroupSize) -> Statement<'a>
        ensures { stated result ≡ says group.seats self.now }
    {
        match self {
            Message::Prepare(prepare) => prepare.statement(group),
            Message::Commit(commit) => commit.statement(group),
            Message::Checkpoint(checkpoint) => checkpoint.statement(group),
            Message::ViewChange(change) => change.statement(group),
            Message::NewView(new_view) => new_view.statement(group),
        }
    }
}

// The message that bytes are: the first four are the type, and the rest is read by that type.
#[tactic(auto, unfolding(crate::specs::Decoding::decode))]
fn read_by_type(bytes: &[u8]) -> Option<Message<'_>>
    ensures { result ≡ decode bytes.now }
{
    let (found, rest) = split_type(bytes)?;
    match found {
        PREPARE => Some(Message::Prepare(read_whole(bytes, rest)?)),
        COMMIT => Some(Message::Commit(read_whole(bytes, rest)?)),
        CHECKPOINT => Some(Message::Checkpoint(read_whole(bytes, rest)?)),
        VIEW_CHANGE => Some(Message::ViewChange(read_whole(bytes, rest)?)),
        NEW_VIEW => Some(Message::NewView(read_whole(bytes, rest)?)),
        _ => None,
    }
}
