//! Settled jobs, by fate.
ghost use Rattle.std.specs.Prelude.{◌≡◌, ◌≤◌, ◌<◌, ◌+◌, ◌++◌, length, min, sum_by, IfOk, OnOk, OnErr};
ghost use Rattle.std.specs.List.Sorted.{IsPermutation};

use crate::error::JobError;
use crate::fate::Fate;
use dispatch_core::{Job, Runs};
use std::alloc::Global;

/// Settled jobs, each under its fate. They are kept as runs of consecutive numbers, so that the memory grows with the gaps
/// between them and not with the jobs. No call but [`Ledger::reserve`] takes memory.
#[derive(Debug, Drop, PartialEq)]
pub struct Ledger {
    /// The jobs that were acknowledged.
    pub acknowledged: Runs,
    /// The jobs that were refused.
    pub refused: Runs,
    /// The jobs that were discarded.
    pub discarded: Runs,
}

impl Ledger {
    ghost use Rattle.group_jobs.specs.declared.fate.Fate.{Fate as fate_type};
    ghost use Rattle.group_jobs.specs.Settled.{fates, list_of, runs_of, spare_of, least_spare, settled_as, KeepsSettled, IsUnsettled, Settles};

    /// Nothing settled, and no room.
    pub fn new(alloc: Global) -> Ledger
        ensures { IsUnsettled result }
    {
        Ledger {
            acknowledged: Runs::new(alloc),
            refused: Runs::new(alloc),
            discarded: Runs::new(alloc),
        }
    }

    /// The jobs of this fate.
    pub fn list(&self, fate: Fate) -> &Runs
        ensures { result.now ≡ list_of fate self.now }
    {
        match fate {
            Fate::Acknowledged => &self.acknowledged,
            Fate::Refused => &self.refused,
            Fate::Discarded => &self.discarded,
        }
    }

    /// Makes room for so many more runs of each fate.
    ///
    /// # Errors
    ///
    /// 503 [`JobError::Memory`]. The jobs stay, and there is no less room than before.
    pub fn reserve(&mut self, count: usize) -> Result<(), JobError>
        ensures ok { OnOk result ((fate : fate_type) → count ≤ spare_of fate self.new) }
        ensures kept { KeepsSettled self.old self.new }
        ensures spare { (fate : fate_type) → spare_of fate self.old ≤ spare_of fate self.new }
        ensures full { ((fate : fate_type) → count ≤ spare_of fate self.old) → result ≡ Ok tt }
    {
        self.acknowledged.reserve(count)?;
        self.refused.reserve(count)?;
        self.discarded.reserve(count)?;
        Ok(())
    }

    /// Makes room for the runs of another ledger, so that it may be merged.
    ///
    /// # Errors
    ///
    /// 503 [`JobError::Memory`]. The jobs stay, and there is no less room than before.
    pub fn make_room_for(&mut self, other: &Ledger) -> Result<(), JobError>
        ensures ok { OnOk result ((fate : fate_type) → length (runs_of fate other.now) ≤ spare_of fate self.new) }
        ensures kept { KeepsSettled self.old self.new }
        ensures spare { (fate : fate_type) → spare_of fate self.old ≤ spare_of fate self.new }
    {
        let acknowledged = other.acknowledged.run_count();
        let refused = other.refused.run_count();
        let discarded = other.discarded.run_count();
        self.acknowledged.reserve(acknowledged)?;
        self.refused.reserve(refused)?;
        self.discarded.reserve(discarded)?;
        Ok(())
    }

    /// Makes room for the runs of another ledger, beside all the room that there is: so room for several is added up.
    ///
    /// # Errors
    ///
    /// 503 [`JobError::Memory`]. The jobs stay, and there is no less room than before.
    pub fn reserve_for(&mut self, other: &Ledger) -> Result<(), JobError>
        ensures ok { OnOk result ((fate : fate_type) → least_spare self.old + length (runs_of fate other.now) ≤ least_spare self.new) }
        ensures kept { KeepsSettled self.old self.new }
        ensures spare { (fate : fate_type) → spare_of fate self.old ≤ spare_of fate self.new }
    {
        let acknowledged = other.acknowledged.run_count();
        let refused = other.refused.run_count();
        let discarded = other.discarded.run_count();
        let most = acknowledged.max(refused).max(discarded);
        let Some(room) = self.spare().checked_add(most) else {
            return Err(JobError::Memory);
        };
        self.reserve(room)?;
        Ok(())
    }

    /// For how many more runs of any one fate there is room.
    pub fn spare(&self) -> usize
        ensures value { result ≡ least_spare self.now }
        ensures each { (fate : fate_type) → result ≤ spare_of fate self.now }
    {
        self.acknowledged
            .spare()
            .min(self.refused.spare())
            .min(self.discarded.spare())
    }

    /// How many jobs there are, of whatever fate, or 2^128 - 1 where there are more.
    pub fn len(&self) -> u128
        ensures { result ≡ min (sum_by (λ fate. length (settled_as fate self.now)) fates) u128.MAX }
    {
        self.acknowledged
            .len()
            .saturating_add(self.refused.len())
            .saturating_add(self.discarded.len())
    }

    /// How many runs the jobs are in, of whatever fate, or 2^64 - 1 where they are in more. It looks at none of them.
    pub fn run_count(&self) -> usize
        ensures { result ≡ min (sum_by (λ fate. length (runs_of fate self.now)) fates) usize.MAX }
    {
        self.acknowledged
            .run_count()
            .saturating_add(self.refused.run_count())
            .saturating_add(self.discarded.run_count())
    }

    /// Puts a job to those of this fate. There is room for a run, and the number is below 2^64 - 1.
    pub fn add(&mut self, job: Job, fate: Fate)
        requires room { 1 ≤ spare_of fate self.old }
        requires small { job.number < u64.MAX }
        ensures settled { Settles self.old job fate self.new }
        ensures room { spare_of fate self.old ≤ spare_of fate self.new + 1 }
    {
        match fate {
            Fate::Acknowledged => self.acknowledged.add(job),
            Fate::Refused => self.refused.add(job),
            Fate::Discarded => self.discarded.add(job),
        }
    }

    /// Puts all jobs of another ledger to those here. For each fate there is room for the other's runs.
    pub fn merge(&mut self, other: Ledger)
        requires { (fate : fate_type) → length (runs_of fate other) ≤ spare_of fate self.old }
        ensures jobs { (fate : fate_type) → IsPermutation (settled_as fate self.old ++ settled_as fate other) (settled_as fate self.new) }
        ensures room { (fate : fate_type) → spare_of fate self.old ≤ spare_of fate self.new + length (runs_of fate other) }
    {
        let Ledger {
            acknowledged,
            refused,
            discarded,
        } = other;
        self.acknowledged.merge(acknowledged);
        self.refused.merge(refused);
        self.discarded.merge(discarded);
    }
}
