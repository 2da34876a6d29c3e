//! Sorted runs: where a job belongs among them, and how it is joined with those that it touches.
ghost use Rattle.std.specs.Prelude.{◌≡◌, false, ◌<◌, ◌≤◌, ◌+◌, ◌++◌, ◌↔◌, length, IsTrue, MatchBool, All, take, drop, vec_len, vec_capacity, Contains, insert};
ghost use Rattle.std.specs.List.{list_any};
ghost use Rattle.dispatch_core.specs.JobRuns.{alone, jobs_of, IsFilled, EachBefore, BeginsBefore, LiesApart};
ghost use Rattle.dispatch_core.specs.Joining.{covers, begins_by, LiesClear, IsPlaceOf, EndsBefore, BeginsBehind, Joins};
ghost use Rattle.dispatch_core.specs.Merging.{merged, TakesBehind, Lengthens, IsOpened, Shortens, GetsOwnIf, first_of};
ghost use Rattle.dispatch_core.specs.Tiered.{both, ArePlacesOf, AreCutAt};
ghost use Rattle.dispatch_core.specs.Walks.{IsBehindFirst};

use crate::event::Job;
use crate::runs::Run;
use crate::tiers::{Places, Tiers};

impl Run {
    /// The run of one job.
    pub(crate) fn of(job: Job) -> Run
        ensures { result ≡ alone job }
    {
        Run {
            port: job.port,
            from: job.number,
            last: job.number,
        }
    }

    /// Its first job.
    pub(crate) fn first(&self) -> Job
        ensures { result ≡ first_of self.now }
    {
        Job {
            port: self.port,
            number: self.from,
        }
    }

    /// What is left of it after its first job, if anything is.
    pub(crate) fn behind_first(self) -> Option<Run>
        requires { IsFilled self }
        ensures { IsBehindFirst self result }
    {
        if self.from == self.last {
            return None;
        }
        Some(Run {
            from: self.from + 1,
            ..self
        })
    }

    /// Whether it ends before the other begins. They may touch.
    pub(crate) fn lies_clear(&self, other: Run) -> bool
        ensures { MatchBool result (LiesClear self.now other) (¬ LiesClear self.now other) }
    {
        self.port < other.port || (self.port == other.port && self.last < other.from)
    }

    /// Whether it begins at this job, or before it.
    pub(crate) fn begins_by(&self, job: Job) -> bool
        ensures { result ≡ begins_by job self.now }
    {
        self.port < job.port || (self.port == job.port && self.from <= job.number)
    }
}

/// Whether one of the runs has this job.
pub(crate) fn any_has(runs: &[Run], job: Job) -> bool
    ensures { result ≡ list_any (covers job) runs.now }
{
    runs.iter().any(|run| run.contains(job))
}

/// Whether one of the runs has this job, where they lie apart and so many of them begin by it.
pub(crate) fn has_at(runs: &[Run], place: usize, job: Job) -> bool
    requires place { IsPlaceOf runs.now job place }
    requires apart { EachBefore LiesApart runs.now }
    ensures { IsTrue result ↔ Contains (jobs_of runs.now) job }
{
    let (front, _behind) = runs.split_at(place);
    match front.last() {
        Some(run) => run.contains(job),
        None => false,
    }
}

/// Whether one of these runs has this job, where they lie apart.
pub(crate) fn has_either(older: &Tiers, recent: &[Run], job: Job) -> bool
    requires sorted { EachBefore BeginsBefore (merged (both older.now) recent.now) }
    requires apart { EachBefore LiesApart (merged (both older.now) recent.now) }
    ensures { IsTrue result ↔ Contains (jobs_of (merged (both older.now) recent.now)) job }
{
    older.has_at(older.places_of(job), job) || has_at(recent, place_of(recent, job), job)
}

/// Whether the job gets a run of its own: it is there, or some job is there twice.
pub(crate) fn gets_own(
    has_repeats: bool,
    older: &Tiers,
    recent: &[Run],
    places: Places,
    near: usize,
    job: Job,
) -> bool
    requires places { ArePlacesOf older.now job places }
    requires near { IsPlaceOf recent.now job near }
    requires apart { has_repeats ≡ false → EachBefore LiesApart (merged (both older.now) recent.now) }
    ensures { GetsOwnIf has_repeats (jobs_of (merged (both older.now) recent.now)) job result }
{
    if has_repeats {
        return true;
    }
    older.has_at(places, job) || has_at(recent, near, job)
}

/// How many of the sorted runs begin at this job or before it.
pub(crate) fn place_of(runs: &[Run], job: Job) -> usize
    requires { EachBefore BeginsBefore runs.now }
    ensures { IsPlaceOf runs.now job result }
{
    runs.partition_point(|run| run.begins_by(job))
}

/// Whether the last of these runs ends right before the job.
pub(crate) fn ends_before(runs: &[Run], job: Job) -> bool
    requires { All IsFilled runs.now }
    ensures { MatchBool result (EndsBefore runs.now job) (¬ EndsBefore runs.now job) }
{
    match runs.last() {
        Some(run) => run.port == job.port && run.last + 1 == job.number,
        None => false,
    }
}

/// Whether the first of these runs begins right after the job.
fn begins_behind(runs: &[Run], job: Job) -> bool
    requires { job.number < u64.MAX }
    ensures { MatchBool result (BeginsBehind runs.now job) (¬ BeginsBehind runs.now job) }
{
    match runs.first() {
        Some(run) => run.port == job.port && job.number + 1 == run.from,
        None => false,
    }
}

/// Takes the run right after the job out, if there is one, and gives its last number. So many of the runs
/// begin by the job.
pub(crate) fn take_behind(runs: &mut Vec<Run>, place: usize, job: Job) -> Option<u64>
    requires within { place ≤ vec_len runs.old }
    requires small { job.number < u64.MAX }
    ensures taken { TakesBehind runs.old.items place job result runs.new.items }
    ensures capacity { vec_capacity runs.new ≡ vec_capacity runs.old }
{
    let (_front, back) = runs.split_at(place);
    if !begins_behind(back, job) {
        return None;
    }
    Some(runs.remove(place).last)
}

/// Lets the run that ends right before the job go on to this last number, and tells whether there is one.
/// So many of the runs begin by the job.
pub(crate) fn lengthen(runs: &mut Vec<Run>, place: usize, job: Job, last: u64) -> bool
    requires within { place ≤ vec_len runs.old }
    requires filled { All IsFilled (take place runs.old.items) }
    ensures lengthened { Lengthens runs.old.items place job last result runs.new.items }
    ensures capacity { vec_capacity runs.new ≡ vec_capacity runs.old }
{
    let (front, _back) = runs.split_at(place);
    if !ends_before(front, job) {
        return false;
    }
    runs[place - 1].last = last;
    true
}

/// Puts a job that is not there among these runs, and joins it with those that it touches. `places` of the
/// older runs and `near` of the recent ones begin by it. It takes no memory: there is room for one more recent
/// run.
pub(crate) fn join(older: &mut Tiers, recent: &mut Vec<Run>, places: Places, near: usize, job: Job)
    requires filled { All IsFilled (merged (both older.old) recent.old.items) }
    requires sorted { EachBefore BeginsBefore (merged (both older.old) recent.old.items) }
    requires apart { EachBefore LiesApart (merged (both older.old) recent.old.items) }
    requires places { ArePlacesOf older.old job places }
    requires near { IsPlaceOf recent.old.items job near }
    requires absent { ¬ Contains (jobs_of (merged (both older.old) recent.old.items)) job }
    requires small { job.number < u64.MAX }
    requires room { vec_len recent.old < vec_capacity recent.old }
    ensures joined { Joins (merged (both older.old) recent.old.items) job (merged (both older.new) recent.new.items) }
    ensures older { vec_capacity older.new.long ≡ vec_capacity older.old.long }
    ensures recent { vec_capacity recent.new ≡ vec_capacity recent.old }
{
    let last = take_either(older, recent, places, near, job);
    if older.lengthen(places, job, last) || lengthen(recent, near, job, last) {
        return;
    }
    let run = Run {
        port: job.port,
        from: job.number,
        last,
    };
    insert_at(recent, near, run);
}

/// Takes the run right after the job out of the list that has it, and gives the last number to which the
/// job's run goes then.
fn take_either(
    older: &mut Tiers,
    recent: &mut Vec<Run>,
    places: Places,
    near: usize,
    job: Job,
) -> u64
    requires filled { All IsFilled (merged (both older.old) recent.old.items) }
    requires apart { EachBefore LiesApart (merged (both older.old) recent.old.items) }
    requires places { ArePlacesOf older.old job places }
    requires near { IsPlaceOf recent.old.items job near }
    requires small { job.number < u64.MAX }
    ensures opened { IsOpened (merged (drop (places.long + places.short) (both older.old)) (drop near recent.old.items)) job result
        (merged (drop (places.long + places.short) (both older.new)) (drop near recent.new.items)) }
    ensures older { Shortens (both older.old) (places.long + places.short) job (both older.new) }
    ensures cut { AreCutAt older.new job places }
    ensures recent { Shortens recent.old.items near job recent.new.items }
    ensures older_capacity { vec_capacity older.new.long ≡ vec_capacity older.old.long }
    ensures recent_capacity { vec_capacity recent.new ≡ vec_capacity recent.old }
{
    match older.take_behind(places, job) {
        Some(last) => last,
        None => match take_behind(recent, near, job) {
            Some(last) => last,
            None => job.number,
        },
    }
}

/// Puts a run at this place. It takes no memory: there is room for one more.
pub(crate) fn insert_at(runs: &mut Vec<Run>, place: usize, run: Run)
    requires within { place ≤ vec_len runs.old }
    requires room { vec_len runs.old < vec_capacity runs.old }
    ensures items { runs.new.items ≡ insert runs.old.items place run }
    ensures capacity { vec_capacity runs.new ≡ vec_capacity runs.old }
{
    match runs.insert(place, run) {
        Ok(()) => (),
        Err(_) => unreachable!(),
    }
}
