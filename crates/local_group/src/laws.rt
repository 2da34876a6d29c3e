//! Laws of a group on one thread. Each is the contract of a function that does nothing, stated over the definitions that the
//! contracts of [`LocalGroup`](crate::LocalGroup) cite.
ghost use Rattle.std.specs.Prelude.{◌≡◌, ◌≢◌, ℕ, Some};
ghost use Rattle.dispatch_core.specs.declared.event.Job.{Job};
ghost use Rattle.dispatch_core.specs.declared.event.Event.{Event};
ghost use Rattle.dispatch_core.specs.Lawful.{IsLawful};
ghost use Rattle.dispatch_core.specs.Mentions.{job_of};
ghost use Rattle.group_jobs.specs.declared.fate.Fate.{Fate};
ghost use Rattle.group_jobs.specs.declared.message.Message.{Message};
ghost use Rattle.group_jobs.specs.declared.report.Report.{Report};
ghost use Rattle.group_jobs.specs.declared.stamp.Stamp.{Stamp};
ghost use Rattle.group_jobs.specs.Reports.{fates_of, times_accepted};
ghost use Rattle.group_jobs.specs.Stamps.{Held as Envelope, job_of as stamped};
ghost use Rattle.local_group.specs.Alike.{AreAlike};
ghost use Rattle.local_group.specs.Groups.{Group, IsHeld, IsFresh, Adds, Accepts, MayOffer, Takes, TakesBack, Settles, GivesBack, Closes};
ghost use Rattle.local_group.specs.Reporting.{Reports};

/// **One fate each.** The report names each accepted job in exactly one of its lists, once, and no other job in any.
pub fn one_fate_law()
    ensures { (group : Group) (report : Report) → IsLawful group.state → Reports group report → (job : Job) →
        fates_of report job ≡ times_accepted report.accepted.items job }
{}

/// **Who spends what it was handed can.** What is handed out is held, and it stays so whatever else happens, until an event
/// of its own job.
pub fn holding_law()
    ensures taken { (old new : Group) (place : ℕ) (envelope : Envelope) → Takes old place (Some envelope) new → IsHeld new envelope }
    ensures taken_back { (old new : Group) (place : ℕ) (envelope : Envelope) → TakesBack old place (Some envelope) new → IsHeld new envelope }
    ensures stays { (old new : Group) (event : Event) (envelope : Envelope) → IsHeld old envelope → Adds old event new →
        job_of old.state event ≢ Some (stamped envelope.stamp) → IsHeld new envelope }
{}

/// **Groups that are alike stay alike**, call by call, and each call answers both alike. New groups of one slot and one capacity are alike.
pub fn one_outcome_law()
    ensures new { (one other : Group) → IsFresh one → IsFresh other → one.slot ≡ other.slot → one.capacity ≡ other.capacity → AreAlike one other }
    ensures may { (one other : Group) (port : ℕ) → AreAlike one other → MayOffer one port → MayOffer other port }
    ensures accepted { (one other one' other' : Group) (port : ℕ) (message : Message) (stamp stamp' : Stamp) → AreAlike one other →
        Accepts one port message stamp one' → Accepts other port message stamp' other' → (stamp ≡ stamp') × AreAlike one' other' }
    ensures taken { (one other one' other' : Group) (place : ℕ) (envelope envelope' : Envelope) → AreAlike one other →
        Takes one place (Some envelope) one' → Takes other place (Some envelope') other' → (envelope ≡ envelope') × AreAlike one' other' }
    ensures taken_back { (one other one' other' : Group) (place : ℕ) (envelope envelope' : Envelope) → AreAlike one other →
        TakesBack one place (Some envelope) one' → TakesBack other place (Some envelope') other' → (envelope ≡ envelope') × AreAlike one' other' }
    ensures settled { (one other one' other' : Group) (envelope : Envelope) (fate : Fate) → AreAlike one other →
        Settles one envelope fate one' → Settles other envelope fate other' → AreAlike one' other' }
    ensures given_back { (one other one' other' : Group) (envelope : Envelope) → AreAlike one other →
        GivesBack one envelope one' → GivesBack other envelope other' → AreAlike one' other' }
    ensures closed { (one other one' other' : Group) → AreAlike one other → Closes one one' → Closes other other' → AreAlike one' other' }
{}
