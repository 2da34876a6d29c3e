//! The docket of a place: what it has out, and what it settled.
ghost use Rattle.std.specs.Prelude.{◌≡◌, ◌≤◌, ◌<◌, ◌+◌, ◌↔◌, [], ◌∷◌, ◌++◌, IfOk, OnOk, OnErr, IsTrue, Contains, slice_get, Some, ◌≢◌, ℕ};
ghost use Rattle.std.specs.VecDeque.{deque_capacity, deque_len};
ghost use Rattle.group_jobs.specs.Settled.{KeepsSettled, IsUnsettled, Settles, least_spare};
ghost use Rattle.group_jobs.specs.Dockets.{TakesOff};

use crate::error::JobError;
use crate::fate::Fate;
use crate::ledger::Ledger;
use dispatch_core::Job;
use std::alloc::Global;
use std::collections::VecDeque;
use std::marker::Model;
use std::mem;

/// The jobs that a place has out, in the order in which they were handed out, and those that it settled.
///
/// Contracts see it as a `Kept`, with the number of hand-outs for which there is room: a job that is out has the room of its
/// fate, so that no call but [`Docket::reserve`] takes memory.
#[derive(Debug, Drop)]
pub struct Docket {
    out: VecDeque<Job>,
    settled: Ledger,
}

impl Model for Docket {
    ghost use Rattle.std.specs.VecDeque.{deque_capacity};
    ghost use Rattle.group_jobs.specs.Dockets.{Kept, docket_of, HasRoom};

    ghost Value = { Kept };

    ghost view = { λ d. docket_of d.out.items (deque_capacity d.out) d.settled };

    ghost invariant = { λ d. HasRoom d.out.items d.settled };
}

impl Docket {
    /// Nothing is out, and nothing was settled.
    pub fn new(alloc: Global) -> Docket
        ensures out { result.out ≡ [] }
        ensures settled { IsUnsettled result.settled }
    {
        Docket {
            out: VecDeque::new(alloc),
            settled: Ledger::new(alloc),
        }
    }

    /// Makes room for a hand-out and for its end.
    ///
    /// # Errors
    ///
    /// 503 [`JobError::Memory`]. There was no such room then, and what the docket has is as it was.
    pub fn reserve(&mut self) -> Result<(), JobError>
        ensures ok { OnOk result (1 ≤ self.new.room) }
        ensures out { self.new.out ≡ self.old.out }
        ensures settled { KeepsSettled self.old.settled self.new.settled }
        ensures room { self.old.room ≤ self.new.room }
        ensures full { OnErr result (self.old.room ≡ 0) }
    {
        if self.room() > 0 {
            return Ok(());
        }
        self.out.reserve(1)?;
        self.settled.reserve(self.out.len() + 1)?;
        Ok(())
    }

    /// For how many hand-outs there is room.
    pub fn room(&self) -> usize
        ensures { result ≡ self.now.room }
    {
        self.out.capacity().min(self.settled.spare()) - self.out.len()
    }

    /// A job is handed out. There is room for it, and its number is below 2^64 - 1.
    pub fn take_out(&mut self, job: Job)
        requires room { 1 ≤ self.old.room }
        requires small { job.number < u64.MAX }
        ensures out { self.new.out ≡ self.old.out ++ job ∷ [] }
        ensures settled { self.new.settled ≡ self.old.settled }
        ensures room { self.new.room + 1 ≡ self.old.room }
    {
        self.out.push_back_reserved(job);
    }

    /// Whether a job is out.
    pub fn has_out(&self, job: Job) -> bool
        ensures { IsTrue result ↔ Contains self.now.out job }
    {
        self.out.contains(&job)
    }

    /// The jobs that are out, in the order in which they were handed out.
    pub fn out(&self) -> &VecDeque<Job>
        ensures { result.now.items ≡ self.now.out }
    {
        &self.out
    }

    /// The jobs that were settled.
    pub fn settled(&self) -> &Ledger
        ensures { result.now ≡ self.now.settled }
    {
        &self.settled
    }

    /// The jobs that were settled, of a docket that ends.
    pub fn into_settled(self) -> Ledger
        ensures { result ≡ self.settled }
    {
        self.settled
    }

    /// A ledger in which nothing is settled, with no less room than the docket's own has left.
    ///
    /// # Errors
    ///
    /// 503 [`JobError::Memory`].
    pub fn equal_room(&self, alloc: Global) -> Result<Ledger, JobError>
        ensures none { IfOk result IsUnsettled }
        ensures room { IfOk result (λ ledger. least_spare self.now.settled ≤ least_spare ledger) }
    {
        let mut ledger = Ledger::new(alloc);
        ledger.reserve(self.settled.spare())?;
        Ok(ledger)
    }

    /// Gives away what was settled, and goes on with another ledger, which has no less room.
    pub fn exchange(&mut self, ledger: Ledger) -> Ledger
        requires { least_spare self.old.settled ≤ least_spare ledger }
        ensures given { result ≡ self.old.settled }
        ensures settled { self.new.settled ≡ ledger }
        ensures out { self.new.out ≡ self.old.out }
        ensures room { self.old.room ≤ self.new.room }
    {
        mem::replace(&mut self.settled, ledger)
    }

    /// A job that is out is settled.
    pub fn settle(&mut self, job: Job, fate: Fate)
        requires { Contains self.old.out job }
        ensures out { TakesOff self.old.out job self.new.out }
        ensures settled { Settles self.old.settled job fate self.new.settled }
        ensures room { self.old.room ≤ self.new.room }
    {
        take_off(&mut self.out, job);
        self.settled.add(job, fate);
    }

    /// A job that is out goes back, and leaves its room to another.
    pub fn give_back(&mut self, job: Job)
        requires { Contains self.old.out job }
        ensures out { TakesOff self.old.out job self.new.out }
        ensures settled { self.new.settled ≡ self.old.settled }
        ensures room { self.new.room ≡ self.old.room + 1 }
    {
        take_off(&mut self.out, job);
    }
}

/// Takes a job off the list. What was taken out first mostly ends first, so it stands in front.
fn take_off(out: &mut VecDeque<Job>, job: Job)
    requires { Contains out.old.items job }
    ensures taken { TakesOff out.old.items job out.new.items }
    ensures capacity { deque_capacity out.new ≡ deque_capacity out.old }
{
    let place = place_of(out, job);
    if place == 0 {
        out.pop_front();
    } else {
        out.remove(place);
    }
}

/// The place at which a job first stands in the list.
fn place_of(jobs: &VecDeque<Job>, job: Job) -> usize
    requires { Contains jobs.now.items job }
    ensures within { result < deque_len jobs.now }
    ensures there { slice_get jobs.now.items result ≡ Some job }
    ensures first { (place : ℕ) → place < result → slice_get jobs.now.items place ≢ Some job }
{
    for place in 0..jobs.len() {
        if jobs[place] == job {
            return place;
        }
    }
    unreachable!()
}
