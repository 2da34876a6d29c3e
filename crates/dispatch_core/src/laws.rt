//! Laws: what holds of every run of a group, which is every list of events that may happen from its
//! beginning on. Each is the contract of a function that does nothing. They are stated over the
//! definitions that the contracts of [`State`](crate::State) and [`replay`](crate::replay) cite, so
//! they are about what these do.
ghost use Rattle.std.specs.Prelude.{◌≡◌, ◌≢◌, ◌<◌, ◌↔◌, ℕ, true, List, [], ◌∷◌, ◌++◌, Some, IsSome, All};
ghost use Rattle.dispatch_core.specs.GroupState.{GroupState, IsEmpty, spot_of, firsts_of, accepted_of};
ghost use Rattle.dispatch_core.specs.Step.{Step, MayHappen, NeedsOpen, KeepsMark};
ghost use Rattle.dispatch_core.specs.Reasons.{Hinders};
ghost use Rattle.dispatch_core.specs.History.{IsRun, StopsAt};
ghost use Rattle.dispatch_core.specs.Lawful.{IsLawful};
ghost use Rattle.dispatch_core.specs.Mentions.{job_of, first_member_of, HandsOutJob, accepts_of, AreSame};
ghost use Rattle.dispatch_core.specs.Told.{firsts_in, job_after, spot_after, NoneNames};

use crate::error::Why;
use crate::event::{Event, Job, Spot};

/// **Every run is lawful.** The jobs that have a spot are those that were accepted, of each port as many
/// as it accepted in the run; each member's first hand-outs keep the order of each port (4.6); the
/// queued jobs of a port are its youngest; a queued job was handed to nobody, and every other accepted
/// one had its one first hand-out, to one member, once.
///
/// A step keeps a state lawful, whatever led to it.
pub fn lawful_law()
    ensures lawful { (events : List Event) (state : GroupState) → IsRun events state → IsLawful state }
    ensures accepted { (events : List Event) (state : GroupState) → IsRun events state →
        (port : ℕ) → accepted_of state port ≡ accepts_of events port }
    ensures step { (old : GroupState) (event : Event) (new : GroupState) →
        IsLawful old → Step old event new → IsLawful new }
{}

/// **A fate is for good.** A job that was refused goes to nobody else: no hand-out of it, for the first
/// time or again, follows (4.8.2). The same holds of one that was discarded (3.3.2.3.3, 3.1.2.11.4), and of
/// one that was acknowledged. Each stays where it is.
pub fn fate_law()
    ensures refused { (before behind : List Event) (member : ℕ) (job : Job) (state : GroupState) →
        IsRun (before ++ Event.Refuse member job ∷ behind) state →
        All (λ later. ¬ HandsOutJob job later) behind × (spot_of state job ≡ Some (Spot.Refused member)) }
    ensures discarded { (before behind : List Event) (member : ℕ) (job : Job) (state : GroupState) →
        IsRun (before ++ Event.Discard member job ∷ behind) state →
        All (λ later. ¬ HandsOutJob job later) behind × (spot_of state job ≡ Some (Spot.Discarded member)) }
    ensures acknowledged { (before behind : List Event) (member : ℕ) (job : Job) (state : GroupState) →
        IsRun (before ++ Event.Ack member job ∷ behind) state →
        All (λ later. ¬ HandsOutJob job later) behind × (spot_of state job ≡ Some (Spot.Acked member)) }
{}

/// **Nothing is accepted or handed out after close.** No `Accept`, `First` or `Again` follows a
/// `Close`, and the group stays closed.
pub fn closing_law()
    ensures { (before behind : List Event) (state : GroupState) →
        IsRun (before ++ Event.Close ∷ behind) state →
        All (λ later. ¬ NeedsOpen later) behind × (state.closed ≡ true) }
{}

/// **An event keeps what it does not name:** every job but the one that it is about, the first
/// hand-outs of every member but the one whom it hands a job for the first time, and the mark, if it is
/// not a `Close`.
pub fn keeping_law()
    ensures jobs { (old : GroupState) (event : Event) (new : GroupState) → Step old event new →
        (job : Job) → job_of old event ≢ Some job → spot_of new job ≡ spot_of old job }
    ensures firsts { (old : GroupState) (event : Event) (new : GroupState) → Step old event new →
        (member : ℕ) → first_member_of event ≢ Some member → firsts_of new member ≡ firsts_of old member }
    ensures mark { (old : GroupState) (event : Event) (new : GroupState) → Step old event new →
        event ≢ Event.Close → KeepsMark old new }
{}

/// **The events tell the state.** A job was accepted exactly where its number is below the count of its
/// port's `Accept` events; a member's first hand-outs are the jobs of its `First` events, in their order;
/// and a job is where its last event left it: the `Accept` whose number it has, or the last event that
/// names it.
pub fn telling_law()
    ensures accepted { (events : List Event) (state : GroupState) → IsRun events state →
        (job : Job) → IsSome (spot_of state job) ↔ (job.number < accepts_of events job.port) }
    ensures firsts { (events : List Event) (state : GroupState) → IsRun events state →
        (member : ℕ) → firsts_of state member ≡ firsts_in events member }
    ensures spot { (before behind : List Event) (event : Event) (job : Job) (state : GroupState) →
        IsRun (before ++ event ∷ behind) state → job_after before event ≡ Some job →
        NoneNames job behind → spot_of state job ≡ spot_after event }
{}

/// **A run and one more step is a run**, and the events of an empty group are none. So who does one step
/// with each event has a run.
pub fn growing_law()
    ensures begins { (state : GroupState) → IsEmpty state → IsRun [] state }
    ensures goes_on { (events : List Event) (old : GroupState) (event : Event) (new : GroupState) →
        IsRun events old → Step old event new → IsRun (events ++ event ∷ []) new }
{}

/// **The events fix the state.** Two states that the same events lead to cannot be told apart. So a
/// replay that stops at an event has not missed a run: there is none of these events.
pub fn exactness_law()
    ensures one_state { (events : List Event) (one other : GroupState) →
        IsRun events one → IsRun events other → AreSame one other }
    ensures no_run { (events : List Event) (at : ℕ) (why : Why) → StopsAt events at why →
        (state : GroupState) → ¬ IsRun events state }
{}

/// **The reasons are all there are.** An event may happen exactly where none of the reasons against it
/// holds.
pub fn reasons_law()
    ensures { (state : GroupState) (event : Event) →
        MayHappen state event ↔ ((why : Why) → ¬ Hinders state event why) }
{}
