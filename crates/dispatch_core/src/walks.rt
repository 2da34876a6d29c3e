//! The runs of a list of jobs, and its jobs, one after the other.
ghost use Rattle.std.specs.Prelude.{◌≡◌, ◌<◌, ◌++◌, All, slice_get, length};
ghost use Rattle.std.specs.Iterator.{YieldsFirst, item_count};
ghost use Rattle.dispatch_core.specs.JobRuns.{jobs_of, IsFilled};
ghost use Rattle.dispatch_core.specs.Merging.{merged};
ghost use Rattle.dispatch_core.specs.Tiered.{both};

use crate::event::Job;
use crate::runs::Run;
use crate::tiers::Tiers;
use std::marker::Model;

/// The runs that are left of a list of jobs, in rising order of port and first number. Contracts see it as
/// that list.
#[derive(Debug, Drop)]
pub struct InOrder<'a> {
    // The first of the older runs that are left.
    ahead: Option<Run>,
    older: Older<'a>,
    recent: &'a [Run],
}

impl<'a> Model for InOrder<'a> {
    ghost use Rattle.std.specs.Prelude.{List};
    ghost use Rattle.dispatch_core.specs.declared.runs.Run.{Run};
    ghost use Rattle.dispatch_core.specs.Merging.{merged};
    ghost use Rattle.dispatch_core.specs.Walks.{ahead_of};

    ghost Value = { List Run };

    ghost view = { λ s. merged (ahead_of s.ahead s.older) s.recent.now };
}

impl<'a> InOrder<'a> {
    /// The runs of older and recent ones that are one list.
    pub(crate) fn of(older: &'a Tiers, recent: &'a [Run]) -> InOrder<'a>
        ensures { result ≡ merged (both older.now) recent.now }
    {
        let mut older = Older {
            long: &older.long,
            short: &older.short,
        };
        InOrder {
            ahead: older.next(),
            older,
            recent,
        }
    }
}

impl<'a> Iterator for InOrder<'a> {
    type Item = Run;

    ghost next_gives = { YieldsFirst (λ s. s) };

    ghost remaining = { item_count (λ s. s) };

    fn next(&mut self) -> Option<Run> {
        let Some(run) = self.ahead else {
            let (run, recent) = self.recent.split_first()?;
            self.recent = recent;
            return Some(*run);
        };
        match self.recent.split_first() {
            Some((other, recent)) if !run.begins_by(other.first()) => {
                self.recent = recent;
                Some(*other)
            }
            _ => {
                self.ahead = self.older.next();
                Some(run)
            }
        }
    }
}

/// The runs that are left of two sorted lists, in order.
#[derive(Debug, Drop)]
struct Older<'a> {
    long: &'a [Run],
    short: &'a [Run],
}

impl<'a> Model for Older<'a> {
    ghost use Rattle.std.specs.Prelude.{List};
    ghost use Rattle.dispatch_core.specs.declared.runs.Run.{Run};
    ghost use Rattle.dispatch_core.specs.Merging.{merged};

    ghost Value = { List Run };

    ghost view = { λ s. merged s.long.now s.short.now };
}

impl<'a> Iterator for Older<'a> {
    type Item = Run;

    ghost next_gives = { YieldsFirst (λ s. s) };

    ghost remaining = { item_count (λ s. s) };

    fn next(&mut self) -> Option<Run> {
        let Some((run, long)) = self.long.split_first() else {
            let (run, short) = self.short.split_first()?;
            self.short = short;
            return Some(*run);
        };
        match self.short.split_first() {
            Some((other, short)) if !run.begins_by(other.first()) => {
                self.short = short;
                Some(*other)
            }
            _ => {
                self.long = long;
                Some(*run)
            }
        }
    }
}

/// The job at this place of the list.
pub(crate) fn job_at(runs: InOrder<'_>, at: u128) -> Option<Job>
    requires { All IsFilled runs }
    ensures { result ≡ slice_get (jobs_of runs.entry) at }
{
    let mut ahead = at;
    for run in runs {
        let jobs = u128::from(run.len());
        if ahead < jobs {
            return Some(Job {
                port: run.port,
                number: run.from + ahead as u64,
            });
        }
        ahead -= jobs;
    }
    None
}

/// The jobs that are left of a list of jobs, run after run. Contracts see it as that list.
#[derive(Debug, Drop)]
pub struct Jobs<'a> {
    // What is left of the run that was begun.
    begun: Option<Run>,
    runs: InOrder<'a>,
}

impl<'a> Model for Jobs<'a> {
    ghost use Rattle.std.specs.Prelude.{List, ◌++◌};
    ghost use Rattle.dispatch_core.specs.declared.event.Job.{Job};
    ghost use Rattle.dispatch_core.specs.JobRuns.{jobs_of};
    ghost use Rattle.dispatch_core.specs.Walks.{jobs_begun, AreWalked};

    ghost Value = { List Job };

    ghost view = { λ s. jobs_begun s.begun ++ jobs_of s.runs };

    ghost invariant = { λ s. AreWalked s.begun s.runs };
}

impl<'a> Jobs<'a> {
    /// The jobs of these runs.
    pub(crate) fn of(runs: InOrder<'a>) -> Jobs<'a>
        requires { All IsFilled runs }
        ensures { result ≡ jobs_of runs.entry }
    {
        Jobs { begun: None, runs }
    }
}

impl<'a> Iterator for Jobs<'a> {
    type Item = Job;

    ghost next_gives = { YieldsFirst (λ s. s) };

    ghost remaining = { item_count (λ s. s) };

    fn next(&mut self) -> Option<Job> {
        let run = match self.begun {
            Some(run) => run,
            None => self.runs.next()?,
        };
        self.begun = run.behind_first();
        Some(run.first())
    }
}
