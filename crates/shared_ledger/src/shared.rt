//! A ledger to which many give.
ghost use Rattle.std.specs.Prelude.{◌≡◌, ◌≤◌, ◌+◌, ◌-◌, ◌++◌, [], IfOk};
ghost use Rattle.dispatch_core.specs.declared.event.Job.{Job};
ghost use Rattle.dispatch_core.specs.JobRuns.{count_of};
ghost use Rattle.group_jobs.specs.declared.fate.Fate.{Fate};
ghost use Rattle.group_jobs.specs.Settled.{settled_as};
ghost use Rattle.shared_ledger.specs.Giving.{times_in};
ghost use Rattle.shared_ledger.specs.Givers.{new_giver, Gathers, IsNewHolder};

use crate::giver::{Giver, Holder};
use crate::queue;
use crate::queue::LedgerQueue;
use crate::witness::{LawfulLedgerWitness, LedgerWitness};
use group_jobs::{Docket, JobError, Ledger};
use std::alloc::Global;
use std::marker::{Model, PhantomData};
use std::sync::Wait;

/// One ledger to which many give. Contracts see it as which ledger it is.
#[derive(Drop)]
pub struct SharedLedger<W: LedgerWitness> {
    queue: LedgerQueue<W>,
}

impl<W: LedgerWitness> Model for SharedLedger<W> {
    ghost use Rattle.std.specs.Prelude.{◌≡◌};
    ghost use Rattle.atomic_table.specs.Seated.{TableId};
    ghost use Rattle.crossbeam_queue.specs.Passes.{ruled_capacity};

    ghost Value = { TableId };

    ghost view = { λ l. l.queue.table.shared.table_id };

    ghost invariant = { λ l. ruled_capacity l.queue ≡ 1 };
}

impl<W: LawfulLedgerWitness> SharedLedger<W> {
    /// A ledger in which nothing is settled, and a giver that has all 64 parts of it.
    ///
    /// # Errors
    ///
    /// 503 [`JobError::Memory`].
    pub fn open(alloc: Global) -> Result<(SharedLedger<W>, Giver<W>), JobError>
        ensures { IfOk result (λ opened. opened.1 ≡ new_giver opened.0 64) }
    {
        let (queue, pass) = queue::open(alloc)?;
        Ok((
            SharedLedger { queue },
            Giver {
                pass,
                witness: PhantomData,
            },
        ))
    }

    /// A giver with one part, which is taken off another's.
    pub fn another(&self, giver: &mut Giver<W>) -> Giver<W>
        requires of { giver.old.ledger ≡ self.now }
        requires parts { 2 ≤ giver.old.parts }
        ensures rest { giver.new ≡ record giver.old { parts = giver.old.parts - 1 } }
        ensures new { result ≡ new_giver self.now 1 }
    {
        Giver {
            pass: queue::cut(&self.queue, &mut giver.pass),
            witness: PhantomData,
        }
    }

    /// Takes the ledger up, once nobody else has it in hands. The giver is as it was.
    pub fn hold<R: Wait>(&self, rt: &R, giver: &mut Giver<W>) -> Holder
        requires { giver.old.ledger ≡ self.now }
        ensures same { giver.new ≡ giver.old }
        ensures holder { IsNewHolder self.now result }
    {
        let mut pass = queue::cut_none(&self.queue, &mut giver.pass);
        let ledger = queue::wait_for(rt, &self.queue, &mut pass);
        Holder { pass, ledger }
    }

    /// Puts the ledger down as it was taken up.
    pub fn put_back<R: Wait>(&self, rt: &R, holder: Holder)
        requires { holder.ledger ≡ self.now }
    {
        let Holder { mut pass, ledger } = holder;
        queue::put_back(rt, &self.queue, &mut pass, ledger);
    }

    /// Takes in a giver, with its parts and what it gave.
    pub fn take_in(&self, holder: &mut Holder, giver: Giver<W>)
        requires of { (holder.old.ledger ≡ self.now) × (giver.ledger ≡ self.now) }
        requires parts { 1 ≤ giver.parts }
        ensures { holder.new ≡ record holder.old { parts = holder.old.parts + giver.parts; gave = holder.old.gave ++ giver.gave } }
    {
        queue::join(&self.queue, &mut holder.pass, giver.pass);
    }

    /// **The ledger has what all gave.** Who has it in hands, and all of its parts, gets it: each job is there, under each
    /// fate, as often as it was given.
    pub fn end(&self, holder: Holder) -> Ledger
        requires of { holder.ledger ≡ self.now }
        requires all { 64 ≤ holder.parts }
        ensures value { result ≡ holder.settled }
        ensures counts { (fate : Fate) (job : Job) → count_of job (settled_as fate result) ≡ times_in holder.gave fate job }
    {
        let Holder { mut pass, ledger } = holder;
        queue::look(&self.queue, &mut pass);
        ledger
    }
}

impl<W: LedgerWitness> SharedLedger<W> {
    /// Moves what a docket settled into the ledger, where the runs of all who give join. `false` only where the
    /// [`LedgerWitness`] saw that another had the ledger in hands; nothing has changed then. A step of the queue may wait for another thread's.
    ///
    /// # Errors
    ///
    /// 503 [`JobError::Memory`]. Nothing has changed then.
    pub fn gather<R: Wait>(
        &self,
        rt: &R,
        alloc: Global,
        giver: &mut Giver<W>,
        docket: &mut Docket,
    ) -> Result<bool, JobError>
        requires of { giver.old.ledger ≡ self.now }
        requires parts { 1 ≤ giver.old.parts }
        ensures answer { Gathers W.saw_ledger giver.old docket.old result giver.new docket.new }
        ensures room { docket.old.room ≤ docket.new.room }
    {
        let room = docket.equal_room(alloc)?;
        let pass = &mut giver.pass;
        let Some(mut ledger) = queue::take_up(rt, &self.queue, pass) else {
            return Ok(false);
        };
        let Ok(()) = ledger.make_room_for(docket.settled()) else {
            queue::put_back(rt, &self.queue, pass, ledger);
            return Err(JobError::Memory);
        };
        ledger.merge(docket.exchange(room));
        queue::give(rt, &self.queue, pass, ledger);
        Ok(true)
    }
}
