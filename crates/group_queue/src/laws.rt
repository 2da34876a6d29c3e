//! Laws of the queues of a group. Each is the contract of a function that does nothing, stated over what stood in a queue at
//! one moment: the contracts of [`SharedGroup`](crate::SharedGroup)'s calls say which moment that was.
ghost use Rattle.std.specs.Prelude.{◌≡◌, ◌≢◌, ◌+◌, ◌<◌, ◌++◌, ℕ, List, length, Some, slice_get, Contains, sum_by};
ghost use mathlib.Core.Option.{some};
ghost use lib.ListN.{get_elem?};
ghost use Rattle.dispatch_core.specs.declared.event.Job.{Job};
ghost use Rattle.dispatch_core.specs.Lawful.{RisesByPort};
ghost use Rattle.group_queue.specs.declared.posted.Posted.{Posted};
ghost use Rattle.group_queue.specs.declared.view.View.{View};
ghost use Rattle.group_queue.specs.declared.view.Bag.{Bag};
ghost use Rattle.group_queue.specs.declared.view.Name.TheVariants.{Port, Place};
ghost use Rattle.group_queue.specs.Views.{one, keeper};
ghost use Rattle.group_queue.specs.Past.{HasPast, Stands, IsKnown, IsWithOne, through};
ghost use Rattle.group_queue.specs.Returns.{Gives};
ghost use Rattle.group_queue.specs.Places.{jobs_in};

/// **The main queue law.** At every moment of every schedule: what stands in the queue of a port's messages is, in order, the
/// end of what the port sent (`end`); each place's first hand-outs keep each port's order (`order`), and so none is there
/// twice; and what one place was the first to be handed no other place was the first to be handed (`one_place`), nor does it
/// still stand in the queue (`left`). Each of them is the message that the port sent as the one of its number (`carried`), and
/// while a group is not ended, each message that a port sent before those that still stand in the queue is among the first
/// hand-outs of exactly one of its places (`none_lost`).
pub fn main_queue_law()
    ensures end { (port : ℕ) (sent items : List Posted) → Stands (one (Port port) sent) items →
        (front : List Posted) × (sent ≡ front ++ through port items) }
    ensures order { (place : ℕ) (firsts items : List Posted) → Stands (one (Place place) firsts) items → RisesByPort (jobs_in firsts) }
    ensures one_place { (items : List Posted) (views : List View) → HasPast items views →
        (pass other m n : ℕ) (firsts others : List Posted) → pass ≢ other →
        get_elem? views pass ≡ some (one (Place m) firsts) → get_elem? views other ≡ some (one (Place n) others) →
        (job : Job) → Contains (jobs_in firsts) job → ¬ Contains (jobs_in others) job }
    ensures left { (place : ℕ) (firsts items : List Posted) → Stands (one (Place place) firsts) items →
        (job : Job) → Contains (jobs_in firsts) job → ¬ Contains (jobs_in items) job }
    ensures carried { (items : List Posted) (views : List View) → HasPast items views → (place port : ℕ) (firsts sent : List Posted) →
        IsKnown views (one (Place place) firsts) → IsKnown views (one (Port port) sent) →
        (posted : Posted) → Contains firsts posted → posted.job.port ≡ port → slice_get sent posted.job.number ≡ Some posted }
    ensures none_lost { (items : List Posted) (views : List View) → HasPast items views → (ports places : ℕ) → IsKnown views (keeper ports places) →
        ((place : ℕ) → place < places → (firsts : List Posted) × IsKnown views (one (Place place) firsts)) →
        (port : ℕ) (sent : List Posted) → IsKnown views (one (Port port) sent) →
        (number : ℕ) (posted : Posted) → slice_get sent number ≡ Some posted → number + length (through port items) < length sent →
        IsWithOne views places posted }
{}

/// **The returns queue law.** At every moment of every schedule, whatever each message counts for: what stands in the queue
/// and what all places were handed again counts for as much as what all places gave back. So no message is there more often
/// than it was given back, and none is lost.
pub fn returns_queue_law()
    ensures { (items : List Posted) (views : List Bag) → Gives items views → (worth : Posted → ℕ) →
        sum_by worth items + sum_by (λ v. sum_by worth v.popped) views ≡ sum_by (λ v. sum_by worth v.pushed) views }
{}
