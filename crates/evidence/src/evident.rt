// The trait `Evident`: what can be told of a message of any kind by its tags and its senders.
ghost use Rattle.std.specs.Prelude.{◌≡◌, bytes_eq};
ghost use Rattle.message.specs.declared.message.Message.{Message};
ghost use Rattle.protocol.specs.Showings.{senders, shows};
ghost use Rattle.evidence.specs.Senders.{all_seated};
ghost use Rattle.evidence.specs.Tags.{tags_hold};

use super::lists::{
    changes_seated, changes_tagged, checkpoints_seated, checkpoints_tagged, prepares_tagged,
};
use counter::Checker;
use message::{Checkpoint, Commit, Delivered, NewView, Prepare, ViewChange};
use terms::{GroupSize, TAG_BYTES};

/// A message of one kind, with all that is nested in it.
pub trait Evident {
    /// The message as one of any kind.
    ghost whole: { Self → Message };

    /// Whether all tags in the message are the tag rule's for their statements.
    fn tagged<K: Checker>(&self, checker: &K) -> bool
        ensures { result ≡ tags_hold (K.rule checker.now) (shows (K.size checker.now) (whole self.now)) };

    /// Whether all senders in the message are seats of the group.
    fn seated(&self, group: GroupSize) -> bool
        ensures { result ≡ all_seated group.seats (senders (whole self.now)) };
}

// Whether a message's own tag is the tag rule's for its statement.
fn own_tag_holds<'a, K: Checker, M: Delivered<'a>>(
    checker: &K,
    message: &M,
    tag: &[u8; TAG_BYTES],
) -> bool
    ensures { result ≡ bytes_eq (K.rule checker.now (M.says (K.size checker.now) message.now)) tag.now }
{
    checker.check(message.statement(checker.group()), tag)
}

impl Evident for Prepare<'_> {
    ghost whole = { Message.Prepare };

    fn tagged<K: Checker>(&self, checker: &K) -> bool {
        own_tag_holds(checker, self, self.tag)
    }

    fn seated(&self, _group: GroupSize) -> bool {
        true
    }
}

impl Evident for Commit<'_> {
    ghost whole = { Message.Commit };

    fn tagged<K: Checker>(&self, checker: &K) -> bool {
        own_tag_holds(checker, self, self.tag)
    }

    fn seated(&self, group: GroupSize) -> bool {
        self.sender < group.seats()
    }
}

impl Evident for Checkpoint<'_> {
    ghost whole = { Message.Checkpoint };

    fn tagged<K: Checker>(&self, checker: &K) -> bool {
        own_tag_holds(checker, self, self.tag)
    }

    fn seated(&self, group: GroupSize) -> bool {
        self.sender < group.seats()
    }
}

impl Evident for ViewChange<'_> {
    ghost whole = { Message.ViewChange };

    fn tagged<K: Checker>(&self, checker: &K) -> bool {
        own_tag_holds(checker, self, self.tag)
            && checkpoints_tagged(checker, &self.proof)
            && prepares_tagged(checker, &self.entries)
    }

    fn seated(&self, group: GroupSize) -> bool {
        self.sender < group.seats() && checkpoints_seated(&self.proof, group)
    }
}

impl Evident for NewView<'_> {
    ghost whole = { Message.NewView };

    fn tagged<K: Checker>(&self, checker: &K) -> bool {
        own_tag_holds(checker, self, self.tag)
            && changes_tagged(checker, &self.changes)
            && prepares_tagged(checker, &self.prepares)
    }

    fn seated(&self, group: GroupSize) -> bool {
        changes_seated(&self.changes, group)
    }
}
