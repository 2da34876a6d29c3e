//! Whether all of a group is there: what `finish` looks at first.
ghost use Rattle.std.specs.Prelude.{◌≡◌, ◌≤◌, ◌<◌, ◌↔◌, ◌*◌, length, sum_by, All, slice_index_or, Contains, IsTrue, MatchOption, MatchResult};
ghost use Rattle.dispatch_core.specs.JobRuns.{count_of};
ghost use Rattle.group_jobs.specs.declared.stamp.Stamp.{Stamp as stamp_type};
ghost use Rattle.group_jobs.specs.Stamps.{stamp_of};
ghost use Rattle.group_queue.specs.Ports.{PortState};
ghost use Rattle.group_queue.specs.Places.{PlaceState};
ghost use Rattle.group_queue.specs.Ends.{port_numbers, place_numbers, HasAll, times_held, times_out, IsWhole, IsBecause};
ghost use Rattle.group_queue.specs.Known.{IsCompared};

use crate::error::{FinishError, Lack};
use crate::group::SharedGroup;
use crate::place::Place;
use crate::port::Port;
use crate::witness::Witness;
use dispatch_core::Job;
use group_jobs::{Envelope, Stamp};
use std::alloc::Global;
use std::collections::VecDeque;

impl<'a, W: Witness> SharedGroup<'a, W> {
    /// Looks at ports, places, lacking envelopes and strangers, in this order.
    pub(crate) fn check(
        &self,
        alloc: Global,
        ports: &[Port<W>],
        places: &[Place<W>],
        held: &[Envelope],
    ) -> Result<(), FinishError>
        ensures { MatchResult result (λ _. IsWhole self.now ports.now places.now held.now) (IsBecause self.now ports.now places.now held.now) }
    {
        if let Some(number) = lacking_port(ports, self.ports) {
            return Err(FinishError::Missing(Lack::Port(number)));
        }
        if let Some(number) = lacking_place(places, self.places) {
            return Err(FinishError::Missing(Lack::Place(number)));
        }
        match self.compare(alloc, places, held) {
            Some(compared) => compared,
            None => self.count(places, held),
        }
    }

    // Counts envelopes and what is out, each as often as there are jobs.
    fn count(&self, places: &[Place<W>], held: &[Envelope]) -> Result<(), FinishError>
        ensures { IsCompared self.now places.now held.now result }
    {
        if let Some(stamp) = self.lacking_envelope(places, held) {
            return Err(FinishError::Missing(Lack::Envelope(stamp)));
        }
        if let Some(stamp) = self.stranger(places, held) {
            return Err(FinishError::Stranger(stamp));
        }
        Ok(())
    }

    // The stamp of a message that is out and has no envelope here.
    fn lacking_envelope(&self, places: &[Place<W>], held: &[Envelope]) -> Option<Stamp>
        ensures { MatchOption result ((stamp : stamp_type) → times_out self.now stamp places.now ≤ times_held stamp held.now)
            (λ stamp. times_held stamp held.now < times_out self.now stamp places.now) }
    {
        for place in places {
            if let Some(stamp) = self.lacking_of(place.docket.out(), places, held) {
                return Some(stamp);
            }
        }
        None
    }

    // The same of some of the messages that are out.
    fn lacking_of(
        &self,
        out: &VecDeque<Job>,
        places: &[Place<W>],
        held: &[Envelope],
    ) -> Option<Stamp>
        ensures { MatchOption result (All (λ job. times_out self.now (stamp_of self.now.slot job) places.now ≤ times_held (stamp_of self.now.slot job) held.now) out.now.items)
            (λ stamp. times_held stamp held.now < times_out self.now stamp places.now) }
    {
        for job in out {
            let stamp = Stamp::of(self.slot, *job);
            if times_held(stamp, held) < self.times_out(stamp, places) {
                return Some(stamp);
            }
        }
        None
    }

    // The stamp of an envelope that is here more often than its message is out.
    fn stranger(&self, places: &[Place<W>], held: &[Envelope]) -> Option<Stamp>
        ensures { MatchOption result ((stamp : stamp_type) → times_held stamp held.now ≤ times_out self.now stamp places.now)
            (λ stamp. times_out self.now stamp places.now < times_held stamp held.now) }
    {
        for envelope in held {
            let stamp = envelope.stamp();
            if self.times_out(stamp, places) < times_held(stamp, held) {
                return Some(stamp);
            }
        }
        None
    }

    // How often a message of this stamp is out.
    fn times_out(&self, stamp: Stamp, places: &[Place<W>]) -> u128
        ensures { result ≡ times_out self.now stamp places.now }
    {
        if stamp.group == self.slot {
            times_among(stamp.job(), places)
        } else {
            0
        }
    }
}

// The least number of a port that is not there.
fn lacking_port<W: Witness>(ports: &[Port<W>], count: u8) -> Option<u8>
    ensures { MatchOption result (HasAll count (port_numbers ports.now)) (λ number. (number < count) × ¬ Contains (port_numbers ports.now) number) }
{
    for number in 0..count {
        let Some(_) = accepted_by(ports, number) else {
            return Some(number);
        };
    }
    None
}

// How many messages the port of this number sent.
pub(crate) fn accepted_by<W: Witness>(ports: &[Port<W>], number: u8) -> Option<u64>
    ensures { MatchOption result (¬ Contains (port_numbers ports.now) number)
        (λ count. (port : PortState) × Contains ports.now port × (port.number ≡ number) × (count ≡ length port.sent)) }
{
    for port in ports {
        if port.number == number {
            return Some(port.accepted);
        }
    }
    None
}

// The least number of a place that is not there.
fn lacking_place<W: Witness>(places: &[Place<W>], count: u8) -> Option<u8>
    ensures { MatchOption result (HasAll count (place_numbers places.now)) (λ number. (number < count) × ¬ Contains (place_numbers places.now) number) }
{
    for number in 0..count {
        let Some(_) = place_of(places, number) else {
            return Some(number);
        };
    }
    None
}

// Where the place of this number stands.
pub(crate) fn place_of<W: Witness>(places: &[Place<W>], number: u8) -> Option<usize>
    ensures { MatchOption result (¬ Contains (place_numbers places.now) number)
        (λ at. (at < length places.now) × ((d : PlaceState) → (slice_index_or places.now at d).number ≡ number)) }
{
    for (at, place) in places.iter().enumerate() {
        if place.number == number {
            return Some(at);
        }
    }
    None
}

// How often the stamp is among the envelopes.
fn times_held(stamp: Stamp, held: &[Envelope]) -> u128
    ensures { result ≡ times_held stamp held.now }
{
    let mut times = 0;
    for envelope in held {
        if envelope.stamp() == stamp {
            times += 1;
        }
    }
    times
}

// How often a job is out with these places.
fn times_among<W: Witness>(job: Job, places: &[Place<W>]) -> u128
    ensures { result ≡ sum_by (λ place. count_of job place.docket.out) places.now }
{
    let mut times = 0;
    for place in places {
        times += times_in(job, place.docket.out());
    }
    times
}

// How often a job is in the list.
fn times_in(job: Job, jobs: &VecDeque<Job>) -> u128
    ensures times { result ≡ count_of job jobs.now.items }
    ensures few { result ≤ 18446744073709551615 }
{
    let mut times = 0;
    for other in jobs {
        if *other == job {
            times += 1;
        }
    }
    times
}
