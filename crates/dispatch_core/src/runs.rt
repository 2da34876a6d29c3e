//! Lists of jobs, kept as runs of consecutive numbers.
ghost use Rattle.std.specs.Prelude.{◌≡◌, ◌<◌, ◌≤◌, ◌+◌, ◌*◌, ◌↔◌, [], ◌∷◌, ◌++◌, length, IsTrue, OnOk, OnErr, All, Contains, slice_get};
ghost use Rattle.std.proofs.Common.{rules};
ghost use Rattle.std.specs.Cmp.{on_per};
ghost use Rattle.std.specs.Cmp.Lexicographic.{pointwise, lists_per};
ghost use Rattle.std.specs.Cmp.Rules.{comparing};
ghost use Rattle.std.specs.List.Sorted.{IsPermutation};
ghost use Rattle.dispatch_core.specs.JobRuns.{jobs_of, jobs_of_run, IsFilled, AreKept, NoneTwice, GetsOwnRun, JoinsRuns};
ghost use Rattle.dispatch_core.specs.Joining.{covers};

use crate::error::RoomError;
use crate::event::Job;
use crate::joining::{any_has, gets_own, has_either, insert_at, join, place_of};
use crate::merging::{make_way, merge_into, recent_room, short_room, tidy};
use crate::tiers::Tiers;
use crate::walks::{InOrder, Jobs, job_at};
use std::alloc::Global;
use std::marker::Model;

/// Jobs of one port with consecutive numbers, from the first to the last. In a list of [`Runs`] it has at
/// least one job.
///
/// Runs are ordered by port, then by first number.
#[derive(Clone, Copy, Debug, PartialEq, Eq, PartialOrd, Ord)]
pub struct Run {
    /// Its port.
    pub port: u8,
    /// The number of its first job.
    pub from: u64,
    /// The number of its last job.
    pub last: u64,
}

impl Run {
    /// How many jobs it has.
    pub(crate) fn len(&self) -> u64
        requires { IsFilled self.now }
        ensures { result ≡ length (jobs_of_run self.now) }
    {
        self.last - self.from + 1
    }

    /// Whether it has this job.
    pub(crate) fn contains(&self, job: Job) -> bool
        ensures { result ≡ covers job self.now }
    {
        self.port == job.port && self.from <= job.number && job.number <= self.last
    }
}

/// A list of jobs as a sorted list of runs. Its memory grows with the gaps between the jobs and not with
/// the jobs: jobs with consecutive numbers make one run.
///
/// Contracts see the runs, whose jobs, run after run, are the list of jobs, and beside them `spare`, the
/// number of runs for which there is room. No call but [`Runs::reserve`] takes memory.
#[derive(Debug, Drop)]
pub struct Runs {
    // The runs lie in sorted lists that are seen as one, so that a new run moves only the recent ones.
    older: Tiers,
    recent: Vec<Run>,
    // Some job is there twice, so one run lies in another. Else no two runs touch.
    has_repeats: bool,
}

impl Model for Runs {
    ghost use Rattle.std.specs.Prelude.{vec_len, vec_capacity, ◌-◌, ◌+◌};
    ghost use Rattle.dispatch_core.specs.JobRuns.{JobRuns};
    ghost use Rattle.dispatch_core.specs.Merging.{merged, IsKeptIn};
    ghost use Rattle.dispatch_core.specs.Tiered.{both};

    ghost Value = { JobRuns };

    ghost view = { λ r. record {
      runs = merged (both r.older) r.recent.items;
      spare = vec_capacity r.older.long - (vec_len r.older.long + vec_len r.older.short + vec_len r.recent);
    } };

    ghost invariant = { λ r. IsKeptIn (both r.older) r.recent.items (vec_capacity r.older.long) (vec_capacity r.recent) r.has_repeats };
}

impl Runs {
    /// No jobs, and no room for any run.
    pub fn new(alloc: Global) -> Runs
        ensures { result ≡ record { runs = []; spare = 0 } }
    {
        Runs {
            older: Tiers {
                long: Vec::new(alloc),
                short: Vec::new(alloc),
            },
            recent: Vec::new(alloc),
            has_repeats: false,
        }
    }

    /// Makes room for so many more runs, of whatever ports: a run takes 24 bytes, the recent ones, of which there
    /// are at most 128, as many once more, and from 1024 runs in all on, so do up to 4096 of them.
    ///
    /// # Errors
    ///
    /// 302 [`RoomError::Memory`] where memory was refused. Nothing has changed then.
    pub fn reserve(&mut self, count: usize) -> Result<(), RoomError>
        ensures ok { OnOk result (count ≤ self.new.spare) }
        ensures runs { self.new.runs ≡ self.old.runs }
        ensures spare { self.old.spare ≤ self.new.spare }
        ensures err { OnErr result (self.new ≡ self.old) }
        ensures full { OnErr result (self.old.spare < count) }
    {
        if count <= self.spare() {
            // More room for recent runs is welcome, and not needed.
            let _ = self.recent.reserve(recent_room(count));
            return Ok(());
        }
        let besides = self.older.short.len() + self.recent.len();
        let Some(wanted) = count.checked_add(besides) else {
            return Err(RoomError::Memory);
        };
        let all = wanted.saturating_add(self.older.long.len());
        let short = short_room(all).saturating_sub(self.older.short.len());
        self.recent.reserve(recent_room(count))?;
        self.older.short.reserve(short)?;
        self.older.long.reserve(wanted)?;
        Ok(())
    }

    /// For how many more runs there is room.
    pub fn spare(&self) -> usize
        ensures { result ≡ self.now.spare }
    {
        self.older.long.capacity()
            - (self.older.long.len() + self.older.short.len() + self.recent.len())
    }

    /// The runs, in rising order of port and first number. Where no job is there twice, the runs of a port
    /// never touch.
    pub fn runs(&self) -> InOrder<'_>
        ensures value { result ≡ self.now.runs }
        ensures kept { AreKept self.now.runs }
    {
        InOrder::of(&self.older, &self.recent)
    }

    /// The jobs, run after run.
    pub fn jobs(&self) -> Jobs<'_>
        ensures { result ≡ jobs_of self.now.runs }
    {
        Jobs::of(self.runs())
    }

    /// Whether the job is there. Where no job is there twice, this looks at as many runs as their number
    /// has binary digits, and else at all.
    pub fn contains(&self, job: Job) -> bool
        ensures { IsTrue result ↔ Contains (jobs_of self.now.runs) job }
    {
        if self.has_repeats {
            self.older.any_has(job) || any_has(&self.recent, job)
        } else {
            has_either(&self.older, &self.recent, job)
        }
    }

    /// Puts a job into the list. It joins the runs that it touches; one that is there already gets a run of
    /// its own, and so does each job from then on.
    ///
    /// It costs no more than [`Runs::contains`] where the job joins the run before it, as at the end of its
    /// port. Where it gets a run of its own, it moves recent runs, of which there are at most 128; each 128th
    /// time it goes over at most 4096 runs, and each 4096th time over all. Where it joins the run after it, it
    /// may move all that follow.
    ///
    /// There is room for a run, as [`Runs::spare`] tells, and the number is below 2^64 - 1.
    pub fn add(&mut self, job: Job)
        requires room { 1 ≤ self.old.spare }
        requires small { job.number < u64.MAX }
        ensures jobs { IsPermutation (job ∷ jobs_of self.old.runs) (jobs_of self.new.runs) }
        ensures room { length self.new.runs + self.new.spare ≡ length self.old.runs + self.old.spare }
        ensures grown { length self.new.runs ≤ length self.old.runs + 1 }

        // A job that is there already, and one where none is there twice.
        ensures own_run { Contains (jobs_of self.old.runs) job → GetsOwnRun self.old.runs job self.new.runs }
        ensures joins { NoneTwice (job ∷ jobs_of self.old.runs) →
            JoinsRuns (jobs_of self.old.runs) job (length self.old.runs) (length self.new.runs) }
    {
        make_way(&mut self.older, &mut self.recent);
        let places = self.older.places_of(job);
        let near = place_of(&self.recent, job);
        if gets_own(
            self.has_repeats,
            &self.older,
            &self.recent,
            places,
            near,
            job,
        ) {
            insert_at(&mut self.recent, near, Run::of(job));
            self.has_repeats = true;
        } else {
            join(&mut self.older, &mut self.recent, places, near, job);
        }
    }

    /// How many jobs there are.
    pub fn len(&self) -> u128
        ensures { result ≡ length (jobs_of self.now.runs) }
    {
        self.older.count() + count(&self.recent)
    }

    /// How many runs there are. It looks at none of them.
    pub fn run_count(&self) -> usize
        ensures { result ≡ length self.now.runs }
    {
        self.older.long.len() + self.older.short.len() + self.recent.len()
    }

    /// Whether there is no job.
    pub fn is_empty(&self) -> bool
        ensures { IsTrue result ↔ (jobs_of self.now.runs ≡ []) }
    {
        self.older.is_empty() && self.recent.is_empty()
    }

    /// The job at this place of the list, from 0; `None` from [`Runs::len`] on.
    pub fn job_at(&self, at: u128) -> Option<Job>
        ensures { result ≡ slice_get (jobs_of self.now.runs) at }
    {
        job_at(self.runs(), at)
    }

    /// Puts all jobs of another list into this one: a job that is in both is there twice then. It goes over the
    /// runs of both a fixed number of times.
    ///
    /// There is room for the other's runs, as [`Runs::spare`] tells.
    pub fn merge(&mut self, other: Runs)
        requires room { length other.runs ≤ self.old.spare }
        ensures jobs { IsPermutation (jobs_of self.old.runs ++ jobs_of other.runs) (jobs_of self.new.runs) }
        ensures room { length self.new.runs + self.new.spare ≡ length self.old.runs + self.old.spare }
        ensures grown { length self.new.runs ≤ length self.old.runs + length other.runs }
    {
        let mut other = other;
        other.older.settle_all(&mut other.recent);
        self.older.settle_all(&mut self.recent);
        merge_into(&mut self.older.long, &other.older.long);
        self.has_repeats = tidy(&mut self.older.long);
    }
}

impl PartialEq for Runs {
    ghost eq = { λ a b. pointwise ⟦<Run as PartialEq>⟧.eq a.runs b.runs };

    ghost laws = { on_per (λ r. r.runs) (lists_per (Prim.search (comparing, rules))) };

    /// Whether both have the same runs, and so the same jobs. For how many more there is room is not
    /// compared.
    fn eq(&self, other: &Runs) -> bool {
        let mut others = other.runs();
        for run in self.runs() {
            if others.next() != Some(run) {
                return false;
            }
        }
        others.next().is_none()
    }
}

/// How many jobs the runs have.
pub(crate) fn count(runs: &[Run]) -> u128
    requires { All IsFilled runs.now }
    ensures jobs { result ≡ length (jobs_of runs.now) }
    ensures bound { result ≤ 18446744073709551615 * length runs.now }
{
    let mut jobs: u128 = 0;
    for run in runs {
        jobs += u128::from(run.len());
    }
    jobs
}
