// Every number of the rules and every limit that follows from one, in one place: a larger group is a change of
// `LARGEST_GROUP` here and of `largest_group` in specs/Numbers.antt.
ghost use Rattle.std.specs.Prelude.{◌≡◌};
ghost use Rattle.terms.specs.Numbers.{limits_in_force, LimitsInFigures};

/// The fewest seats of a group.
pub const SMALLEST_GROUP: u32 = 3;
/// The most seats of a group.
pub const LARGEST_GROUP: u32 = 5;
/// The quorum of the largest group: the most CHECKPOINTs in a proof and the most VIEW-CHANGEs in a NEW-VIEW.
pub const LARGEST_QUORUM: u32 = LARGEST_GROUP / 2 + 1;
/// How many order numbers above the low mark may be proposed.
pub const WINDOW: u32 = 16;
/// Every multiple of this number above 0 is a checkpoint.
pub const CHECKPOINT_INTERVAL: u32 = 8;
/// How many accepted views a replica remembers.
pub const NOTED_VIEWS: u32 = 8;

/// A request's five unsigned ints.
pub const REQUEST_BYTES: usize = 20;

pub const TAG_BYTES: usize = 32;

pub const DIGEST_BYTES: usize = 32;
/// Type, view, order, request, tag.
pub const PREPARE_BYTES: usize = 12 + REQUEST_BYTES + TAG_BYTES;
/// Type, sender, view, order, request, tag.
pub const COMMIT_BYTES: usize = 16 + REQUEST_BYTES + TAG_BYTES;
/// Type, sender, order, digest, tag.
pub const CHECKPOINT_BYTES: usize = 12 + DIGEST_BYTES + TAG_BYTES;
/// Type, sender, target, previous, from, low, two counts, tag.
pub const SHORTEST_VIEW_CHANGE: usize = 36 + TAG_BYTES;
/// A whole quorum of CHECKPOINTs and a PREPARE for each order of the window.
pub const LONGEST_VIEW_CHANGE: usize = SHORTEST_VIEW_CHANGE
    + LARGEST_QUORUM as usize * CHECKPOINT_BYTES
    + WINDOW as usize * PREPARE_BYTES;
/// Type, view, two counts, tag.
pub const SHORTEST_NEW_VIEW: usize = 16 + TAG_BYTES;
/// A whole quorum of the longest VIEW-CHANGEs and a PREPARE for each order of the window.
pub const LONGEST_NEW_VIEW: usize = SHORTEST_NEW_VIEW
    + LARGEST_QUORUM as usize * LONGEST_VIEW_CHANGE
    + WINDOW as usize * PREPARE_BYTES;
/// Every call that writes a message is lent at least this much room: the longest message fits.
pub const OUT_BYTES: usize = LONGEST_NEW_VIEW;

/// The limits as one value.
#[derive(Clone, Copy, PartialEq, Eq, Debug)]
pub struct Limits {
    pub smallest_group: u32,
    pub largest_group: u32,
    pub largest_quorum: u32,
    pub window: u32,
    pub checkpoint_interval: u32,
    pub noted_views: u32,
    pub prepare_bytes: usize,
    pub commit_bytes: usize,
    pub checkpoint_bytes: usize,
    pub shortest_view_change: usize,
    pub longest_view_change: usize,
    pub shortest_new_view: usize,
    pub longest_new_view: usize,
    pub out_bytes: usize,
}

/// The limits in force. Its contract ties the constants above to the definitions that the other contracts cite.
pub fn limits_in_force() -> Limits
    ensures value { result ≡ limits_in_force }
    ensures figures { LimitsInFigures }
{
    Limits {
        smallest_group: SMALLEST_GROUP,
        largest_group: LARGEST_GROUP,
        largest_quorum: LARGEST_QUORUM,
        window: WINDOW,
        checkpoint_interval: CHECKPOINT_INTERVAL,
        noted_views: NOTED_VIEWS,
        prepare_bytes: PREPARE_BYTES,
        commit_bytes: COMMIT_BYTES,
        checkpoint_bytes: CHECKPOINT_BYTES,
        shortest_view_change: SHORTEST_VIEW_CHANGE,
        longest_view_change: LONGEST_VIEW_CHANGE,
        shortest_new_view: SHORTEST_NEW_VIEW,
        longest_new_view: LONGEST_NEW_VIEW,
        out_bytes: OUT_BYTES,
    }
}
