//! Room for what a report says. It is made before anything is joined or popped, so that who has no memory keeps all.
ghost use Rattle.std.specs.Prelude.{◌≡◌, ◌≤◌, ◌<◌, ◌+◌, [], map, length, sum_by, IfOk, OnOk, vec_capacity};
ghost use Rattle.group_jobs.specs.declared.fate.Fate.{Fate as fate_type};
ghost use Rattle.group_jobs.specs.Settled.{least_spare, runs_of};
ghost use Rattle.group_jobs.specs.Stamps.{job_of};
ghost use Rattle.group_queue.specs.Ends.{port_numbers, HasAll, AreCounts};
ghost use Rattle.group_queue.specs.Known.{AreReady, IsBounded, IsRoomFor, ended, runs_kept};

use crate::checking::accepted_by;
use crate::place::Place;
use crate::port::Port;
use crate::witness::Witness;
use dispatch_core::Job;
use group_jobs::{Docket, Envelope, JobError};
use shared_ledger::Holder;
use std::alloc::Global;

/// What a report says, as far as it is known, and room for the rest.
#[derive(Drop)]
pub struct Lists {
    pub accepted: Vec<u64>,
    pub held: Vec<Job>,
    // No docket, and room for that of each place.
    pub dockets: Vec<Docket>,
    // Nothing, and room for what was accepted and is neither settled nor out.
    pub queued: Vec<Job>,
    pub returned: Vec<Job>,
}

/// Makes room, also in the group's ledger for what all places settled: no more than what the ports, the places and the envelopes
/// have.
pub fn reserve<W: Witness>(
    alloc: Global,
    count: u8,
    ports: &[Port<W>],
    places: &[Place<W>],
    held: &[Envelope],
    holder: &mut Holder,
) -> Result<Lists, JobError>
    requires { HasAll count (port_numbers ports.now) }
    ensures ready { IfOk result (λ lists. AreReady count ports.now places.now held.now lists holder.new) }
    ensures bounded { IfOk result (IsBounded count ports.now places.now held.now) }
    ensures same { holder.new ≡ record holder.old { settled = holder.new.settled } }
{
    room_for(holder, places)?;
    let left = left_over(ports, places, holder)?;
    Ok(Lists {
        accepted: counts_of(alloc, count, ports)?,
        held: jobs_of(alloc, held)?,
        dockets: Vec::with_capacity(alloc, places.len())?,
        queued: Vec::with_capacity(alloc, left)?,
        returned: Vec::with_capacity(alloc, left)?,
    })
}

// How many messages each port sent, by the ports' numbers.
fn counts_of<W: Witness>(alloc: Global, count: u8, ports: &[Port<W>]) -> Result<Vec<u64>, JobError>
    requires { HasAll count (port_numbers ports.now) }
    ensures counts { IfOk result (λ counts. AreCounts count ports.now counts.items) }
    ensures room { IfOk result (λ counts. vec_capacity counts ≡ count) }
{
    let mut counts = Vec::with_capacity(alloc, usize::from(count))?;
    for number in 0..count {
        let Some(accepted) = accepted_by(ports, number) else {
            unreachable!()
        };
        counts.push_reserved(accepted);
    }
    Ok(counts)
}

// The jobs of the envelopes, in their order.
fn jobs_of(alloc: Global, held: &[Envelope]) -> Result<Vec<Job>, JobError>
    ensures jobs { IfOk result (λ jobs. jobs.items ≡ map (λ envelope. job_of envelope.stamp) held.now) }
    ensures room { IfOk result (λ jobs. vec_capacity jobs ≡ length held.now) }
{
    let mut jobs = Vec::with_capacity(alloc, held.len())?;
    for envelope in held {
        jobs.push_reserved(envelope.stamp().job());
    }
    Ok(jobs)
}

// Makes room in the group's ledger for what all places settled. It asks once, since each time that a ledger has to grow its room
// may double.
fn room_for<W: Witness>(holder: &mut Holder, places: &[Place<W>]) -> Result<(), JobError>
    ensures room { OnOk result ((fate : fate_type) → sum_by (λ place. length (runs_of fate place.docket.settled)) places.now ≤ least_spare holder.new.settled) }
    ensures same { holder.new ≡ record holder.old { settled = holder.new.settled } }
{
    holder.reserve(runs_in_all(places)?)
}

// In how many runs the jobs that all places settled are, counting at each place the fate that has most of them.
fn runs_in_all<W: Witness>(places: &[Place<W>]) -> Result<usize, JobError>
    ensures enough { IfOk result (λ runs. (fate : fate_type) → sum_by (λ place. length (runs_of fate place.docket.settled)) places.now ≤ runs) }
    ensures no_more { IfOk result (λ runs. runs ≤ sum_by runs_kept places.now) }
{
    let mut total: usize = 0;
    for place in places {
        let Some(sum) = total.checked_add(most_runs(place)) else {
            return Err(JobError::Memory);
        };
        total = sum;
    }
    Ok(total)
}

// In how many runs the jobs are that a place settled, of the fate that has most of them.
fn most_runs<W: Witness>(place: &Place<W>) -> usize
    ensures each { (fate : fate_type) → length (runs_of fate place.now.docket.settled) ≤ result }
    ensures no_more { result ≤ runs_kept place.now }
{
    let settled = place.docket.settled();
    let acknowledged = settled.acknowledged.run_count();
    let refused = settled.refused.run_count();
    let discarded = settled.discarded.run_count();
    acknowledged.max(refused).max(discarded)
}

// For how many messages there has to be room: what was accepted and is neither settled nor out.
fn left_over<W: Witness>(
    ports: &[Port<W>],
    places: &[Place<W>],
    holder: &Holder,
) -> Result<usize, JobError>
    ensures enough { IfOk result (IsRoomFor ports.now places.now holder.now.settled) }
    ensures no_more { IfOk result (λ left. left ≤ sum_by (λ port. length port.sent) ports.now) }
{
    let ended = ended_in_all(places).saturating_add(holder.len());
    match usize::try_from(accepted_in_all(ports).saturating_sub(ended)) {
        Ok(left) => Ok(left),
        Err(_) => Err(JobError::Memory),
    }
}

// How many messages all ports sent.
fn accepted_in_all<W: Witness>(ports: &[Port<W>]) -> u128
    ensures { result ≡ sum_by (λ port. length port.sent) ports.now }
{
    let mut total: u128 = 0;
    for port in ports {
        total += u128::from(port.accepted);
    }
    total
}

// How many hand-outs ended by a fate or are out, or fewer where they are more than a number can say.
fn ended_in_all<W: Witness>(places: &[Place<W>]) -> u128
    ensures { result ≤ sum_by ended places.now + sum_by (λ place. length place.docket.out) places.now }
{
    let mut total: u128 = 0;
    for place in places {
        let out = place.docket.out().len() as u128;
        total = total.saturating_add(place.docket.settled().len().saturating_add(out));
    }
    total
}
