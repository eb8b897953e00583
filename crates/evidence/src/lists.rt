// The tags and the senders of messages that stand in a list.
ghost use Rattle.std.specs.Prelude.{◌≡◌, map, flat_map};
ghost use Rattle.parts.specs.Messages.{Checkpoint};
ghost use Rattle.protocol.specs.Showings.{prepare_shows, checkpoint_shows, change_shows, change_senders};
ghost use Rattle.evidence.specs.Senders.{all_seated};
ghost use Rattle.evidence.specs.Tags.{tags_hold};

use super::evident::Evident;
use counter::Checker;
use message::{Checkpoints, Prepares, ViewChanges};
use terms::GroupSize;

// Whether the tags of all PREPAREs hold.
pub(crate) fn prepares_tagged<K: Checker>(checker: &K, prepares: &Prepares) -> bool
    ensures { result ≡ tags_hold (K.rule checker.now) (map (prepare_shows (K.size checker.now)) prepares.now) }
{
    prepares.iter().all(|prepare| prepare.tagged(checker))
}

// Whether the tags of all CHECKPOINTs hold.
pub(crate) fn checkpoints_tagged<K: Checker>(checker: &K, checkpoints: &Checkpoints) -> bool
    ensures { result ≡ tags_hold (K.rule checker.now) (map (checkpoint_shows (K.size checker.now)) checkpoints.now) }
{
    checkpoints
        .iter()
        .all(|checkpoint| checkpoint.tagged(checker))
}

// Whether all tags in all VIEW-CHANGEs hold.
pub(crate) fn changes_tagged<K: Checker>(checker: &K, changes: &ViewChanges) -> bool
    ensures { result ≡ tags_hold (K.rule checker.now) (flat_map (change_shows (K.size checker.now)) changes.now) }
{
    changes.iter().all(|change| change.tagged(checker))
}

// Whether all senders of CHECKPOINTs are seats.
pub(crate) fn checkpoints_seated(checkpoints: &Checkpoints, group: GroupSize) -> bool
    ensures { result ≡ all_seated group.seats (map (λ (c : Checkpoint). c.sender) checkpoints.now) }
{
    checkpoints
        .iter()
        .all(|checkpoint| checkpoint.seated(group))
}

// Whether all senders in VIEW-CHANGEs are seats.
pub(crate) fn changes_seated(changes: &ViewChanges, group: GroupSize) -> bool
    ensures { result ≡ all_seated group.seats (flat_map change_senders changes.now) }
{
    changes.iter().all(|change| change.seated(group))
}
