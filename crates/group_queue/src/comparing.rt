//! Whether exactly the envelopes are there whose messages are out, by sorted lists of both.
ghost use Rattle.std.specs.Prelude.{◌≡◌, ◌≤◌, ◌<◌, ◌+◌, ◌↔◌, ◌∷◌, [], All, Contains, IfOk, OnOk, IfSome, IsTrue, MatchOption, sum_by};
ghost use Rattle.dispatch_core.specs.declared.event.Job.{Job as job_type};
ghost use Rattle.dispatch_core.specs.JobRuns.{jobs_of, count_of};
ghost use Rattle.group_jobs.specs.Stamps.{Held, stamp_of, job_of};
ghost use Rattle.group_queue.specs.Places.{PlaceState};
ghost use Rattle.group_queue.specs.Ends.{times_held};
ghost use Rattle.group_queue.specs.Known.{IsAmong, IsCompared};

use crate::error::{FinishError, Lack};
use crate::group::SharedGroup;
use crate::place::Place;
use crate::witness::Witness;
use dispatch_core::{Job, Runs};
use group_jobs::{Envelope, JobError, Stamp};
use std::alloc::Global;
use std::collections::VecDeque;

impl<'a, W: Witness> SharedGroup<'a, W> {
    /// Compares the envelopes with what is out. `None` where memory is refused, and where the lists differ in how often
    /// they have a job alone: then each has to be counted.
    pub(crate) fn compare(
        &self,
        alloc: Global,
        places: &[Place<W>],
        held: &[Envelope],
    ) -> Option<Result<(), FinishError>>
        ensures { IfSome result (IsCompared self.now places.now held.now) }
    {
        let Ok(out) = list_out(alloc, places) else {
            return None;
        };
        let Ok(known) = self.list_known(alloc, &out, held) else {
            return None;
        };
        if !are_same(&out, &known) {
            let job = first_lacking(&known, places)?;
            let stamp = Stamp::of(self.slot, job);
            return Some(Err(FinishError::Missing(Lack::Envelope(stamp))));
        }
        match self.first_stranger(&out, held) {
            Some(stamp) => Some(Err(FinishError::Stranger(stamp))),
            None => Some(Ok(())),
        }
    }

    // The jobs of the envelopes whose messages are among these.
    fn list_known(&self, alloc: Global, out: &Runs, held: &[Envelope]) -> Result<Runs, JobError>
        requires small { All (λ job. job.number < u64.MAX) (jobs_of out.now.runs) }
        ensures { IfOk result (λ known. (job : job_type) → Contains (jobs_of out.now.runs) job →
            count_of job (jobs_of known.runs) ≡ times_held (stamp_of self.now.slot job) held.now) }
    {
        let mut known = Runs::new(alloc);
        known.reserve(held.len())?;
        for envelope in held {
            self.put_known(out, &mut known, envelope);
        }
        Ok(known)
    }

    // Puts the job of an envelope into the list, if its message is among these.
    fn put_known(&self, out: &Runs, known: &mut Runs, envelope: &Envelope)
        requires small { All (λ job. job.number < u64.MAX) (jobs_of out.now.runs) }
        requires room { 1 ≤ known.old.spare }
        ensures counts { (job : job_type) → Contains (jobs_of out.now.runs) job →
            count_of job (jobs_of known.new.runs) ≡ count_of job (jobs_of known.old.runs) + times_held (stamp_of self.now.slot job) (envelope.now ∷ []) }
        ensures room { known.old.spare ≤ known.new.spare + 1 }
    {
        let stamp = envelope.stamp();
        if self.is_among(out, stamp) {
            known.add(stamp.job());
        }
    }

    // Whether a message is among these.
    fn is_among(&self, out: &Runs, stamp: Stamp) -> bool
        ensures { IsTrue result ↔ IsAmong self.now (jobs_of out.now.runs) stamp }
    {
        stamp.group == self.slot && out.contains(stamp.job())
    }

    // The stamp of an envelope whose message is not among these.
    fn first_stranger(&self, out: &Runs, held: &[Envelope]) -> Option<Stamp>
        ensures { MatchOption result (All (λ envelope. IsAmong self.now (jobs_of out.now.runs) envelope.stamp) held.now)
            (λ stamp. (envelope : Held) × Contains held.now envelope × (envelope.stamp ≡ stamp) × ¬ IsAmong self.now (jobs_of out.now.runs) stamp) }
    {
        for envelope in held {
            if !self.is_among(out, envelope.stamp()) {
                return Some(envelope.stamp());
            }
        }
        None
    }
}

// What is out, as a sorted list.
fn list_out<W: Witness>(alloc: Global, places: &[Place<W>]) -> Result<Runs, JobError>
    ensures counts { IfOk result (λ out. (job : job_type) →
        count_of job (jobs_of out.runs) ≡ sum_by (λ place. count_of job place.docket.out) places.now) }
    ensures small { IfOk result (λ out. All (λ job. job.number < u64.MAX) (jobs_of out.runs)) }
{
    let mut out = Runs::new(alloc);
    for place in places {
        put_out(&mut out, place)?;
    }
    Ok(out)
}

// Puts what a place has out into the list.
fn put_out<W: Witness>(list: &mut Runs, place: &Place<W>) -> Result<(), JobError>
    requires small { All (λ job. job.number < u64.MAX) (jobs_of list.old.runs) }
    ensures counts { OnOk result ((job : job_type) →
        count_of job (jobs_of list.new.runs) ≡ count_of job (jobs_of list.old.runs) + count_of job place.now.docket.out) }
    ensures small { OnOk result (All (λ job. job.number < u64.MAX) (jobs_of list.new.runs)) }
{
    let jobs = place.out();
    list.reserve(jobs.len())?;
    for job in jobs {
        list.add(*job);
    }
    Ok(())
}

// Whether both have the same jobs, each as often.
fn are_same(one: &Runs, other: &Runs) -> bool
    ensures { IsTrue result → one.now.runs ≡ other.now.runs }
{
    one == other
}

// A job that is out and not in the list.
fn first_lacking<W: Witness>(known: &Runs, places: &[Place<W>]) -> Option<Job>
    ensures { IfSome result (λ job. (place : PlaceState) × Contains places.now place × Contains place.docket.out job × ¬ Contains (jobs_of known.now.runs) job) }
{
    for place in places {
        if let Some(job) = lacking_of(known, place.docket.out()) {
            return Some(job);
        }
    }
    None
}

// The first of these jobs that is not in the list.
fn lacking_of(known: &Runs, jobs: &VecDeque<Job>) -> Option<Job>
    ensures { IfSome result (λ job. Contains jobs.now.items job × ¬ Contains (jobs_of known.now.runs) job) }
{
    for job in jobs {
        if !known.contains(*job) {
            return Some(*job);
        }
    }
    None
}
