// What a replica is made of.
ghost use Rattle.std.specs.Prelude.{◌≡◌};
ghost use Rattle.protocol.specs.Replicas.{founded};
ghost use Rattle.replica.specs.Standings.{standing_of};

use counter::Counter;
use holdings::{Claims, Notes, Proof, Record, Suspicions};
use service::Service;
use terms::View;

/// A replica of a register group. Its counter and its service move into it, and are its own from then on.
/// All that it will ever hold has its room in it, so no call needs memory.
#[derive(Drop)]
pub struct Replica<C: Counter, S: Service> {
    pub(crate) counter: C,
    pub(crate) service: S,
    pub(crate) view: View,
    pub(crate) record: Record,
    /// The CHECKPOINTs that prove the record's low mark.
    pub(crate) proof: Proof,
    pub(crate) notes: Notes,
    /// The VIEW-CHANGE that is held of each seat.
    pub(crate) suspicions: Suspicions,
    /// The latest CHECKPOINT that is held of each seat.
    pub(crate) claims: Claims,
    /// How many requests were carried out.
    pub(crate) count: u32,
}

impl<C: Counter, S: Service> Replica<C, S> {
    /// A replica that has done nothing yet, at the counter's seat.
    pub fn new(counter: C, service: S) -> Replica<C, S>
        ensures { standing_of C.size C.seat C.rule C.values S.state result ≡ founded (C.size counter) (C.seat counter) (C.rule counter) (C.values counter) (S.state service) }
    {
        Replica {
            counter,
            service,
            view: View(0),
            record: Record::new(),
            proof: Proof::new(),
            notes: Notes::new(),
            suspicions: Suspicions::new(),
            claims: Claims::new(),
            count: 0,
        }
    }
}
