//! Sorted runs in two sorted lists that are seen as one: what is put among them moves mostly the short list.
ghost use Rattle.std.specs.Prelude.{◌≡◌, ◌<◌, ◌≤◌, ◌+◌, ◌*◌, ◌↔◌, [], length, IsTrue, All, Contains, take, vec_len, vec_capacity};
ghost use Rattle.dispatch_core.specs.JobRuns.{jobs_of, IsFilled, EachBefore, BeginsBefore, LiesApart};
ghost use Rattle.dispatch_core.specs.Merging.{merged, TakesBehind, Lengthens};
ghost use Rattle.dispatch_core.specs.Tiered.{both, ArePlacesOf, AreCutAt};

use crate::event::Job;
use crate::joining::{any_has, has_at, lengthen, place_of, take_behind};
use crate::merging::settle;
use crate::runs::{Run, count};

/// A long sorted list of runs and a short one.
#[derive(Debug, Drop)]
pub(crate) struct Tiers {
    pub(crate) long: Vec<Run>,
    pub(crate) short: Vec<Run>,
}

/// How many runs of each list begin by a job.
#[derive(Clone, Copy, Debug)]
pub(crate) struct Places {
    pub(crate) long: usize,
    pub(crate) short: usize,
}

impl Tiers {
    /// Whether there is no run.
    pub(crate) fn is_empty(&self) -> bool
        ensures { IsTrue result ↔ (both self.now ≡ []) }
    {
        self.long.is_empty() && self.short.is_empty()
    }

    /// How many jobs the runs have.
    pub(crate) fn count(&self) -> u128
        requires { All IsFilled (both self.now) }
        ensures jobs { result ≡ length (jobs_of (both self.now)) }
        ensures bound { result ≤ 85070591730234615865843651857942052864 }
    {
        count(&self.long) + count(&self.short)
    }

    /// Whether one of the runs has this job.
    pub(crate) fn any_has(&self, job: Job) -> bool
        ensures { IsTrue result ↔ Contains (jobs_of (both self.now)) job }
    {
        any_has(&self.long, job) || any_has(&self.short, job)
    }

    /// How many runs of each list begin at this job or before it.
    pub(crate) fn places_of(&self, job: Job) -> Places
        requires { EachBefore BeginsBefore (both self.now) }
        ensures { ArePlacesOf self.now job result }
    {
        Places {
            long: place_of(&self.long, job),
            short: place_of(&self.short, job),
        }
    }

    /// Whether one of the runs has this job, where they lie apart and so many of them begin by it.
    pub(crate) fn has_at(&self, places: Places, job: Job) -> bool
        requires places { ArePlacesOf self.now job places }
        requires apart { EachBefore LiesApart (both self.now) }
        ensures { IsTrue result ↔ Contains (jobs_of (both self.now)) job }
    {
        has_at(&self.long, places.long, job) || has_at(&self.short, places.short, job)
    }

    /// Takes the run right after the job out, if there is one, and gives its last number.
    pub(crate) fn take_behind(&mut self, places: Places, job: Job) -> Option<u64>
        requires places { ArePlacesOf self.old job places }
        requires filled { All IsFilled (both self.old) }
        requires apart { EachBefore LiesApart (both self.old) }
        requires small { job.number < u64.MAX }
        ensures taken { TakesBehind (both self.old) (places.long + places.short) job result (both self.new) }
        ensures cut { AreCutAt self.new job places }
        ensures capacity { vec_capacity self.new.long ≡ vec_capacity self.old.long }
    {
        match take_behind(&mut self.long, places.long, job) {
            Some(last) => Some(last),
            None => take_behind(&mut self.short, places.short, job),
        }
    }

    /// Lets the run that ends right before the job go on to this last number, and tells whether there is one.
    pub(crate) fn lengthen(&mut self, places: Places, job: Job, last: u64) -> bool
        requires cut { AreCutAt self.old job places }
        requires filled { All IsFilled (take (places.long + places.short) (both self.old)) }
        requires apart { EachBefore LiesApart (take (places.long + places.short) (both self.old)) }
        ensures lengthened { Lengthens (both self.old) (places.long + places.short) job last result (both self.new) }
        ensures capacity { vec_capacity self.new.long ≡ vec_capacity self.old.long }
    {
        lengthen(&mut self.long, places.long, job, last)
            || lengthen(&mut self.short, places.short, job, last)
    }

    /// Puts sorted runs among these: among the short list, if it has room, and else that is put into the long
    /// one first. It takes no memory: the long list has room for all of them.
    pub(crate) fn take_in(&mut self, recent: &mut Vec<Run>)
        requires sorted { EachBefore BeginsBefore (both self.old) }
        requires recent_sorted { EachBefore BeginsBefore recent.old.items }
        requires room { vec_len self.old.long + vec_len self.old.short + vec_len recent.old ≤ vec_capacity self.old.long }
        ensures same { both self.new ≡ merged (both self.old) recent.old.items }
        ensures none { recent.new.items ≡ [] }
        ensures capacity { vec_capacity self.new.long ≡ vec_capacity self.old.long }
        ensures recent { vec_capacity recent.new ≡ vec_capacity recent.old }
    {
        if recent.len() <= self.short.capacity() - self.short.len() {
            settle(&mut self.short, recent);
            return;
        }
        settle(&mut self.long, &mut self.short);
        if recent.len() <= self.short.capacity() {
            settle(&mut self.short, recent);
        } else {
            settle(&mut self.long, recent);
        }
    }

    /// Puts all of these, and sorted runs besides, into the long list, which has room for them. It takes no memory.
    pub(crate) fn settle_all(&mut self, recent: &mut Vec<Run>)
        requires sorted { EachBefore BeginsBefore (both self.old) }
        requires recent_sorted { EachBefore BeginsBefore recent.old.items }
        requires room { vec_len self.old.long + vec_len self.old.short + vec_len recent.old ≤ vec_capacity self.old.long }
        ensures long { self.new.long.items ≡ merged (both self.old) recent.old.items }
        ensures short { self.new.short.items ≡ [] }
        ensures none { recent.new.items ≡ [] }
        ensures capacity { vec_capacity self.new.long ≡ vec_capacity self.old.long }
        ensures recent { vec_capacity recent.new ≡ vec_capacity recent.old }
    {
        settle(&mut self.long, &mut self.short);
        settle(&mut self.long, recent);
    }
}
