// How a replica stands: whether its view is open, and what its part in it is.

/// Whether requests are ordered in the replica's view.
#[derive(Clone, Copy, PartialEq, Eq, Debug)]
pub enum Standing {
    /// The replica accepted the view: its record is of it.
    Open,
    /// The replica gave the view before up, and waits for this one's NEW-VIEW.
    Closed,
}

/// A replica's part in its view.
#[derive(Clone, Copy, PartialEq, Eq, Debug)]
pub enum Role {
    Leader,
    Follower,
}
