//! How a group ends, with a report.
ghost use Rattle.std.specs.Prelude.{◌≡◌, ◌≤◌, ◌+◌, [], sum_by, length, vec_capacity, All, None};
ghost use Rattle.limits.specs.Limits.{most_members};
ghost use Rattle.dispatch_core.specs.declared.event.Job.{Job as job_type};
ghost use Rattle.dispatch_core.specs.JobRuns.{count_of};
ghost use Rattle.group_jobs.specs.declared.fate.Fate.{Fate as fate_type};
ghost use Rattle.group_jobs.specs.Settled.{settled_as, runs_of, spare_of};
ghost use Rattle.group_queue.specs.Ports.{IsPortOf};
ghost use Rattle.group_queue.specs.Places.{IsPlaceOf};
ghost use Rattle.group_queue.specs.Openings.{AreLeftOf};
ghost use Rattle.group_queue.specs.Ends.{place_numbers, HasAll, IsWhole, Reports};
ghost use Rattle.group_queue.specs.Finishing.{Finishes, IsPrepared};
ghost use Rattle.shared_ledger.specs.Givers.{IsNewHolder};
ghost use Rattle.group_queue.specs.Known.{AreReady, IsJoined, HasGathered};

use crate::checking::place_of;
use crate::ending::{join_place, join_places, join_ports, pop_queued, pop_returned};
use crate::error::FinishError;
use crate::group::SharedGroup;
use crate::main_queue;
use crate::place::{Passes, Place};
use crate::port::Port;
use crate::reserving::{Lists, reserve};
use crate::witness::{LawfulWitness, Nobody, Witness};
use group_jobs::{Docket, Envelope, Ledger, Report};
use shared_ledger::Holder;
use std::alloc::Global;
use std::sync::Wait;

/// A group that was not ended, and why, with all that was given to end it. The same call may be made again, or all be given
/// up.
pub struct Unfinished<'a, W: Witness = Nobody> {
    pub error: FinishError,
    pub group: SharedGroup<'a, W>,
    pub ports: Vec<Port<W>>,
    pub places: Vec<Place<W>>,
    pub held: Vec<Envelope>,
}

impl<'a, W: Witness> Unfinished<'a, W> {
    /// Gives all of it up, and tells why the group was not ended.
    pub fn abandon(self) -> FinishError
        ensures { result ≡ self.entry.error }
    {
        let Unfinished {
            error,
            group,
            ports: _,
            places: _,
            held,
        } = self;
        spend(held);
        group.abandon();
        error
    }
}

impl<'a, W: LawfulWitness> SharedGroup<'a, W> {
    /// Ends the group and says what became of its messages. It is given all of its ports and places, and the envelopes that
    /// are out. A step of a queue may wait for another thread's.
    ///
    /// # Errors
    ///
    /// [`Unfinished`], with all that was given, for the first of these reasons that applies:
    ///
    /// - 505 [`FinishError::Missing`]: a port, a place or an envelope, in this order, is not there.
    /// - 507 [`FinishError::Stranger`]: an envelope is there more often than its message is out.
    /// - 506 [`FinishError::Memory`]. All room is made before anything is joined or popped.
    pub fn finish<R: Wait>(
        self,
        rt: &R,
        alloc: Global,
        ports: Vec<Port<W>>,
        places: Vec<Place<W>>,
        held: Vec<Envelope>,
    ) -> Result<Report, Unfinished<'a, W>>
        requires ports { All (IsPortOf self) ports.items }
        requires places { All (IsPlaceOf self) places.items }
        ensures { Finishes self.entry ports.items places.items held.items result }
    {
        let mut places = places;
        match self.prepare(rt, alloc, &ports, &mut places, &held) {
            Ok((lists, holder)) => Ok(self.end(rt, lists, holder, ports, places, held)),
            Err(error) => Err(Unfinished {
                error,
                group: self,
                ports,
                places,
                held,
            }),
        }
    }

    // Looks whether all is there, takes the group's ledger up, and makes room for the report.
    fn prepare<R: Wait>(
        &self,
        rt: &R,
        alloc: Global,
        ports: &[Port<W>],
        places: &mut Vec<Place<W>>,
        held: &[Envelope],
    ) -> Result<(Lists, Holder), FinishError>
        requires { All (IsPlaceOf self.now) places.old.items }
        ensures same { places.new.items ≡ places.old.items }
        ensures answer { IsPrepared self.now ports.now places.old.items held.now result }
    {
        self.check(alloc, ports, places, held)?;
        let mut holder = self.hold(rt, places);
        match reserve(alloc, self.ports, ports, places, held, &mut holder) {
            Ok(lists) => Ok((lists, holder)),
            Err(error) => {
                self.ledger.put_back(rt, holder);
                Err(FinishError::from(error))
            }
        }
    }

    // Takes the group's ledger up, which no place has in hands.
    fn hold<R: Wait>(&self, rt: &R, places: &mut Vec<Place<W>>) -> Holder
        requires places { All (IsPlaceOf self.now) places.old.items }
        requires whole { HasAll self.now.shape.places (place_numbers places.old.items) }
        ensures same { places.new.items ≡ places.old.items }
        ensures holder { IsNewHolder self.now.ledger result }
    {
        let ledger = &self.ledger;
        let place = &mut places[0];
        ledger.hold(rt, &mut place.giver)
    }

    // Ends a group of which all is there, with room for the report.
    fn end<R: Wait>(
        self,
        rt: &R,
        lists: Lists,
        holder: Holder,
        ports: Vec<Port<W>>,
        places: Vec<Place<W>>,
        held: Vec<Envelope>,
    ) -> Report
        requires ports { All (IsPortOf self) ports.items }
        requires places { All (IsPlaceOf self) places.items }
        requires whole { IsWhole self ports.items places.items held.items }
        requires ready { AreReady self.shape.ports ports.items places.items held.items lists holder }
        requires holder { IsNewHolder self.ledger holder }
        ensures { Reports self.entry ports.items places.items held.items result }
    {
        spend(held);
        let Lists {
            accepted,
            held,
            mut dockets,
            mut queued,
            mut returned,
        } = lists;
        let mut holder = holder;
        let mut passes = self.join_all(ports, places, &mut dockets, &mut holder);
        let mut settled = self.ledger.end(holder);
        main_queue::look(&self.main, &mut passes.main);
        pop_returned(rt, &self.returns, &mut passes.returns, &mut returned);
        pop_queued(rt, &self.main, &mut passes.main, &mut queued);
        self.abandon();
        merge_all(&mut settled, dockets);
        Report {
            accepted,
            settled,
            held,
            queued,
            returned,
        }
    }

    // Takes all passes in into those of who opened the group.
    fn join_all(
        &self,
        ports: Vec<Port<W>>,
        places: Vec<Place<W>>,
        dockets: &mut Vec<Docket>,
        holder: &mut Holder,
    ) -> Passes
        requires ports { All (IsPortOf self.now) ports.items }
        requires places { All (IsPlaceOf self.now) places.items }
        requires whole { HasAll self.now.shape.places (place_numbers places.items) }
        requires none { dockets.old.items ≡ [] }
        requires room { length places.items ≤ vec_capacity dockets.old }
        requires holder { IsNewHolder self.now.ledger holder.old }
        ensures joined { IsJoined self.now ports.items places.items result dockets.new.items }
        ensures given { HasGathered self.now places.items holder.old holder.new }
    {
        let mut places = places;
        let Some(at) = place_of(&places, self.places - 1) else {
            unreachable!()
        };
        let mut last = places.remove(at);
        let mut passes = self.take_keeper(&mut last);
        let (docket, giver) = join_place(&self.main, &self.returns, &mut passes, last);
        self.ledger.take_in(holder, giver);
        dockets.push_reserved(docket);
        join_places(
            &self.main,
            &self.returns,
            &self.ledger,
            &mut passes,
            holder,
            places,
            dockets,
        );
        join_ports(&self.main, &mut passes.main, ports);
        passes
    }

    // What is left of the passes of who opened the group, out of the last place.
    fn take_keeper(&self, place: &mut Place<W>) -> Passes
        requires of { IsPlaceOf self.now place.old }
        requires last { place.old.number + 1 ≡ self.now.shape.places }
        ensures left { AreLeftOf self.now self.now.shape.places result }
        ensures few { self.now.shape.places ≤ most_members }
        ensures place { place.new ≡ record place.old { keeps = None } }
    {
        let Some(keeper) = place.keeper.take() else {
            unreachable!()
        };
        keeper
    }
}

// Puts what all dockets settled into one ledger.
fn merge_all(settled: &mut Ledger, dockets: Vec<Docket>)
    requires { (fate : fate_type) → sum_by (λ docket. length (runs_of fate docket.settled)) dockets.items ≤ spare_of fate settled.old }
    ensures { (fate : fate_type) (job : job_type) → count_of job (settled_as fate settled.new)
        ≡ count_of job (settled_as fate settled.old) + sum_by (λ docket. count_of job (settled_as fate docket.settled)) dockets.items }
{
    for docket in dockets {
        settled.merge(docket.into_settled());
    }
}

// Spends envelopes, whose messages are let go.
fn spend(held: Vec<Envelope>) {
    let mut held = held;
    for _ in 0..held.len() {
        let Some(envelope) = held.pop() else {
            unreachable!()
        };
        let (_stamp, _message) = envelope.open();
    }
    held.destroy_empty();
}
