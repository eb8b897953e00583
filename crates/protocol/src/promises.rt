// What is promised of the rules, for every kind of service. There is nothing to run: the contracts hold the promises.
ghost use Rattle.std.specs.Prelude.{ℕ, List};
ghost use Rattle.protocol.specs.Agreement.{GroupAgrees, LaterViewsBring, LowMarksTell};
ghost use Rattle.protocol.specs.Meanings.{meaning};
ghost use Rattle.protocol.specs.Refusals.{RefusalsLeaveAll};
ghost use Rattle.protocol.specs.Telling.{AnswersTell};

use service::Service;

/// After every run of every group, refused calls and other seats' certificates included, its correct replicas agree:
/// proposals are unique, of two lists of carried-out requests one begins the other, each register is what its list made,
/// and equal counts mean equal registers.
#[tactic(auto, using(crate::proofs::Runs::group_agrees))]
pub fn group_agrees<S: Service>()
    ensures { (digest : List ℕ → List ℕ) → GroupAgrees (meaning S.Service.next S.Service.reply S.Service.written digest) }
{}

/// Once a quorum's order messages for a request at an order of a view are issued, every NEW-VIEW of a later view that a
/// correct replica accepts proposes that request there again, or has its low at or above that order.
#[tactic(auto, using(crate::proofs::Runs::later_views_bring))]
pub fn later_views_bring<S: Service>()
    ensures { (digest : List ℕ → List ℕ) → LaterViewsBring (meaning S.Service.next S.Service.reply S.Service.written digest) }
{}

/// No correct replica's low mark is above its count. A low mark above 0 is proved by CHECKPOINTs of a quorum, and their
/// digest is that of the register behind as many requests, of every correct replica that has carried out that many.
#[tactic(auto, using(crate::proofs::Runs::low_marks_tell))]
pub fn low_marks_tell<S: Service>()
    ensures { (digest : List ℕ → List ℕ) → LowMarksTell (meaning S.Service.next S.Service.reply S.Service.written digest) }
{}

/// The message that an answered call wrote reads back, is what the call is for, and carries the tag of its statement; the
/// number that is answered is the message's. Carry out answers the service's reply behind all requests before.
#[tactic(auto, using(crate::proofs::Runs::answers_tell))]
pub fn answers_tell<S: Service>()
    ensures { (digest : List ℕ → List ℕ) → AnswersTell (meaning S.Service.next S.Service.reply S.Service.written digest) }
{}

/// A refused call leaves the replica, its counter, its register and every buffer as they were, and the world of a run.
#[tactic(auto, using(crate::proofs::Quiet::refusals_leave_all))]
pub fn refusals_leave_all<S: Service>()
    ensures { (digest : List ℕ → List ℕ) → RefusalsLeaveAll (meaning S.Service.next S.Service.reply S.Service.written digest) }
{}
