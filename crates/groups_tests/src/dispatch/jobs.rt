//! Lists of jobs: what runs they make, and that each call succeeds with ample memory.
ghost use Rattle.std.specs.Prelude.{◌≡◌, ◌≤◌};

use crate::asserting::assert_same;
use dispatch_core::{Job, RoomError, Run, Runs};
use std::alloc::Global;
use std::test::Fail;

/// The job of this port with this number.
fn job(port: u8, number: u64) -> Job
    ensures { result ≡ record { port = port; number = number } }
{
    Job { port, number }
}

/// Whether these are the runs of a list.
fn has_runs(jobs: &Runs, runs: &[Run]) -> bool {
    let mut left = jobs.runs();
    for run in runs {
        if left.next() != Some(*run) {
            return false;
        }
    }
    left.next().is_none()
}

/// Adds a job for which there is room.
fn add(runs: &mut Runs, job: Job) {
    if runs.spare() > 0 && job.number < u64::MAX {
        runs.add(job);
    }
}

#[test]
fn jobs_as_runs(rt: HostRuntime) -> Result<(), Fail> {
    let mut runs = Runs::new(rt.alloc());
    assert!(rt; runs.is_empty());
    runs.reserve(3)?;
    for number in [5, 7, 6] {
        add(&mut runs, job(0, number));
    }
    let run = Run {
        port: 0,
        from: 5,
        last: 7,
    };
    assert!(rt; has_runs(&runs, &[run]));
    assert_same(&rt, &runs.len(), &3);
    runs.reserve(1)?;
    add(&mut runs, job(0, 6));
    let again = Run {
        port: 0,
        from: 6,
        last: 6,
    };
    assert!(rt; has_runs(&runs, &[run, again]));
    assert_same(&rt, &runs.len(), &4);
    assert!(rt; runs.contains(job(0, 7)));
    assert!(rt; !runs.contains(job(0, 8)));
    assert_same(&rt, &runs.job_at(1), &Some(job(0, 6)));
    assert_same(&rt, &runs.job_at(3), &Some(job(0, 6)));
    assert_same(&rt, &runs.job_at(4), &None);
    Ok(())
}

#[test]
fn many_jobs_in_one_run(rt: HostRuntime) -> Result<(), Fail> {
    let mut runs = Runs::new(rt.alloc());
    runs.reserve(1)?;
    let spare = runs.spare();
    for number in 0..1 << 20u64 {
        add(&mut runs, job(63, number));
    }
    let run = Run {
        port: 63,
        from: 0,
        last: (1 << 20) - 1,
    };
    assert!(rt; has_runs(&runs, &[run]));
    assert_same(&rt, &(runs.spare() + 1), &spare);
    Ok(())
}

/// A list of one job.
fn single(alloc: Global, job: Job) -> Result<Runs, RoomError>
    requires { job.number ≤ 9 }
{
    let mut runs = Runs::new(alloc);
    runs.reserve(1)?;
    runs.add(job);
    Ok(runs)
}

/// The list of two jobs, each first in a list of its own.
fn pair(alloc: Global, one: Job, other: Job) -> Result<Runs, RoomError>
    requires small { one.number ≤ 9 }
    requires small_too { other.number ≤ 9 }
{
    let mut runs = single(alloc, one)?;
    let more = single(alloc, other)?;
    runs.reserve(more.runs().count())?;
    runs.merge(more);
    Ok(runs)
}

#[test]
fn two_lists_in_one(rt: HostRuntime) -> Result<(), Fail> {
    let touching = pair(rt.alloc(), job(0, 4), job(0, 3))?;
    let run = Run {
        port: 0,
        from: 3,
        last: 4,
    };
    assert!(rt; has_runs(&touching, &[run]));
    let apart = pair(rt.alloc(), job(1, 4), job(0, 5))?;
    assert_same(&rt, &apart.runs().count(), &2);
    assert_same(&rt, &apart.job_at(0), &Some(job(0, 5)));
    let twice = pair(rt.alloc(), job(2, 7), job(2, 7))?;
    assert_same(&rt, &twice.runs().count(), &2);
    assert_same(&rt, &twice.len(), &2);
    assert!(rt; twice.contains(job(2, 7)));
    Ok(())
}

/// The lists of isolated jobs over these ports, one at a time, keep their order.
#[test]
fn isolated_jobs_over_ports(rt: HostRuntime) -> Result<(), Fail> {
    let mut runs = Runs::new(rt.alloc());
    runs.reserve(3001)?;
    for number in 0..1000u64 {
        for port in [2, 0, 1] {
            add(&mut runs, job(port, 2 * number));
        }
    }
    assert_same(&rt, &runs.len(), &3000);
    assert_same(&rt, &runs.job_at(999), &Some(job(0, 1998)));
    assert_same(&rt, &runs.job_at(1000), &Some(job(1, 0)));
    let mut jobs = runs.jobs();
    assert_same(&rt, &jobs.next(), &Some(job(0, 0)));
    assert_same(&rt, &jobs.next(), &Some(job(0, 2)));
    assert!(rt; runs.contains(job(2, 1998)));
    assert!(rt; !runs.contains(job(2, 1997)));
    for number in 0..999u64 {
        for port in [1, 2, 0] {
            add(&mut runs, job(port, 2 * number + 1));
        }
    }
    let whole = |port| Run {
        port,
        from: 0,
        last: 1998,
    };
    assert!(rt; has_runs(&runs, &[whole(0), whole(1), whole(2)]));
    Ok(())
}
