//! The report of a group: one walk over all of its jobs.
ghost use Rattle.std.specs.Prelude.{◌≡◌, ◌≢◌, ◌+◌, ◌<◌, ◌++◌, OnOk, IfOk};
ghost use Rattle.group_jobs.specs.declared.fate.Fate.{Fate as fate_type};
ghost use Rattle.group_jobs.specs.Settled.{settled_as};
ghost use Rattle.local_group.specs.Reporting.{Reports};
ghost use Rattle.local_group.specs.Spots.{jobs_in};
ghost use Rattle.local_group.specs.Tallies.{Tallies, AreAccepted, Counts, Gains};

use crate::group::LocalGroup;
use crate::waiting::Waiting;
use dispatch_core::{Job, Spot, State};
use group_jobs::{Fate, JobError, Ledger, Report};
use limits::MOST_PORTS;
use std::alloc::Global;
use std::collections::VecDeque;

/// What was counted so far: how many each port accepted, and the jobs that are settled or held.
#[derive(Drop)]
pub(crate) struct Tally {
    accepted: Vec<u64>,
    settled: Ledger,
    held: Vec<Job>,
}

impl LocalGroup {
    /// What became of the messages. It goes over all jobs that the group ever accepted.
    ///
    /// # Errors
    ///
    /// 503 [`JobError::Memory`].
    pub fn report(&self, alloc: Global) -> Result<Report, JobError>
        ensures { IfOk result (Reports self.now) }
    {
        let tally = tally_all(alloc, self.state())?;
        Ok(Report {
            accepted: tally.accepted,
            settled: tally.settled,
            held: tally.held,
            queued: jobs_in(alloc, self.queue())?,
            returned: jobs_in(alloc, self.returned())?,
        })
    }
}

/// Counts all jobs.
fn tally_all(alloc: Global, state: &State) -> Result<Tally, JobError>
    ensures jobs { IfOk result (Tallies state.now 64 0) }
    ensures accepted { IfOk result (λ tally. AreAccepted state.now 64 tally.accepted.items) }
{
    let mut tally = Tally {
        accepted: Vec::with_capacity(alloc, usize::from(MOST_PORTS))?,
        settled: Ledger::new(alloc),
        held: Vec::new(alloc),
    };
    for port in 0..MOST_PORTS {
        tally_port(state, port, &mut tally)?;
    }
    Ok(tally)
}

/// Counts the jobs of a port.
fn tally_port(state: &State, port: u8, tally: &mut Tally) -> Result<(), JobError>
    ensures jobs { OnOk result (Tallies state.now port 0 tally.old → Tallies state.now (port + 1) 0 tally.new) }
    ensures accepted { OnOk result (AreAccepted state.now port tally.old.accepted.items → AreAccepted state.now (port + 1) tally.new.accepted.items) }
{
    let count = state.accepted(port);
    for number in 0..count {
        let job = Job { port, number };
        tally_job(state.spot(job), job, tally)?;
    }
    tally.accepted.push(count)?;
    Ok(())
}

/// Counts a job at this spot.
fn tally_job(spot: Option<Spot>, job: Job, tally: &mut Tally) -> Result<(), JobError>
    requires { job.number < u64.MAX }
    ensures { OnOk result (Counts spot job tally.old tally.new) }
{
    match spot {
        Some(Spot::Held(_)) => tally.held.push(job)?,
        Some(Spot::Acked(_)) => settle(&mut tally.settled, job, Fate::Acknowledged)?,
        Some(Spot::Refused(_)) => settle(&mut tally.settled, job, Fate::Refused)?,
        Some(Spot::Discarded(_)) => settle(&mut tally.settled, job, Fate::Discarded)?,
        None | Some(Spot::Queued | Spot::Returned) => (),
    }
    Ok(())
}

/// Puts a job to those of this fate.
fn settle(settled: &mut Ledger, job: Job, fate: Fate) -> Result<(), JobError>
    requires { job.number < u64.MAX }
    ensures gained { OnOk result (Gains 1 job (settled_as fate settled.old) (settled_as fate settled.new)) }
    ensures others { OnOk result ((other : fate_type) → other ≢ fate → settled_as other settled.new ≡ settled_as other settled.old) }
{
    settled.reserve(1)?;
    settled.add(job, fate);
    Ok(())
}

/// The jobs of the messages that wait, in their order.
fn jobs_in(alloc: Global, waiting: &VecDeque<Waiting>) -> Result<Vec<Job>, JobError>
    ensures { IfOk result (λ jobs. jobs.items ≡ jobs_in waiting.now.items) }
{
    let mut jobs = Vec::with_capacity(alloc, waiting.len())?;
    let (front, behind) = waiting.as_slices();
    push_jobs(&mut jobs, front)?;
    push_jobs(&mut jobs, behind)?;
    Ok(jobs)
}

/// Puts the jobs of the messages after others.
fn push_jobs(jobs: &mut Vec<Job>, waiting: &[Waiting]) -> Result<(), JobError>
    ensures { OnOk result (jobs.new.items ≡ jobs.old.items ++ jobs_in waiting.now) }
{
    for message in waiting {
        jobs.push(message.job)?;
    }
    Ok(())
}
