//! What holds of each run of a worker. It is the contract of a function that does nothing.
ghost use Rattle.std.specs.Prelude.{◌≡◌, ◌≤◌, ℕ, List, Result, Err, true, false};
ghost use Rattle.std.specs.List.{AllByRecursion};
ghost use Rattle.conn_supply.specs.declared.supply.OfferRefusal.TheVariants.{Shut};
ghost use Rattle.group_jobs.specs.declared.message.Message.{Message as Offered};
ghost use Rattle.group_queue.specs.Ports.{PortState};
ghost use Rattle.session_desk.specs.Attaching.{Request};
ghost use Rattle.session_desk.specs.Calls as AtDesk;
ghost use Rattle.session_desk.specs.declared.attached.Attached.{Attached};
ghost use Rattle.session_desk.specs.declared.error.DeskError.{DeskError};
ghost use Rattle.session_desk.specs.declared.newcomers.Newcomers.TheVariants.{Refused};
ghost use Rattle.group_jobs.specs.Stamps.{Held};
ghost use Rattle.group_queue.specs.Places.{PlaceState};
ghost use Rattle.conn_supply.specs.SupplyCalls.SupplyCall.{Attach};
ghost use Rattle.shared_supply.specs.Calls.{Calls, IsToldOfDesk, OffersIn};
ghost use Rattle.shared_supply.specs.Workers.{Worker};
ghost use Rattle.worker_connections.specs.Chains.{Deed, Makes, MakesAll, RunState};
ghost use Rattle.worker_connections.specs.Draining.{tells_to_drain};

use broker_groups::Broker;
use transport::Transport;

/// **A worker that drains accepts nothing**, to its end: whatever it does from then on, nothing comes into its ports (`accepts_nothing`). It drains from a wait on whose
/// poller told it so (`told`), and from no other moment on (`untold`). One that does not drain answers as a closed broker does for a slot alone that no group has (`refuses`).
/// And for a client that has no session it has the desk begin none (`no_newcomer`).
pub fn draining_law<B: Broker, T: Transport>()
    ensures accepts_nothing { (deeds : List (Deed T)) (old new : RunState T) → MakesAll B.group B.Seen.Witness T.counts T.given T.accepted deeds old new
        → old.supply.draining ≡ true → (new.supply.ports ≡ old.supply.ports) × (new.supply.draining ≡ true) }
    ensures told { (deed : Deed T) (old new : RunState T) → Makes B.group B.Seen.Witness T.counts T.given T.accepted deed old new
        → tells_to_drain deed ≡ true → new.supply.draining ≡ true }
    ensures untold { (deeds : List (Deed T)) (old new : RunState T) → MakesAll B.group B.Seen.Witness T.counts T.given T.accepted deeds old new
        → AllByRecursion (λ deed. tells_to_drain deed ≡ false) deeds → new.supply.draining ≡ old.supply.draining }
    ensures no_newcomer { (old new : Worker) (request : Request) (answer : Result (Attached Held PlaceState) DeskError) → Calls B.group B.Seen.Witness old (Attach request answer) new
        → old.draining ≡ true → IsToldOfDesk old.desk (AtDesk.Attach Refused request answer) new.desk }
    ensures refuses { (old new : List PortState) (slot : ℕ) (message : Offered) → OffersIn B.group B.Seen.Witness false old slot message (Err Shut) new → 8 ≤ slot }
{}
