//! What workers have of the bells: a listener at the bell of each group, and ringers at all of them.
ghost use Rattle.std.specs.Prelude.{◌≡◌, ◌≢◌, ◌≤◌, ◌<◌, ℕ, true, length, slice_get, IfOk, OnOk};
ghost use Rattle.std.specs.Arc.{arc_value};
ghost use Rattle.limits.specs.Limits.{most_groups};
ghost use Rattle.bell.specs.Calls.{AreListenersOf, AreRingersOf};
ghost use Rattle.worker_bells.specs.Ringing.{AreRung, HasSettledAt, HearsAt, IsIdle, IsRung, RingsAt};
ghost use Rattle.worker_bells.specs.Joining.{AreJoined, AreJoinedBut, HasListeningMore, HasRingingMore};
ghost use Rattle.worker_bells.specs.Wishing.{IsWished};

use crate::bells::{Listening, Ringing};
use crate::calls::Mailboxes;
use crate::members::Members;
use bell::{Bell, Listener, MOST_WORKERS, Ringer, Wake};
use conn_supply::NoMemory;
use std::alloc::Global;
use std::marker::Model;
use std::sync::Arc;

/// How many groups there are.
pub const SLOTS: usize = 8;

/// What one worker has of the bells. Contracts see it as an `WorkerBellsState`.
#[derive(Drop)]
pub struct WorkerBells<W> {
    listenings: Vec<Listening>,
    ringings: Vec<Ringing<W>>,
}

impl<W> Model for WorkerBells<W> {
    ghost use Rattle.worker_bells.specs.Ringing.{WorkerBellsState};

    ghost Value = { WorkerBellsState };

    ghost view = { λ o. record { listenings = o.listenings.items; ringings = o.ringings.items } };
}

impl<W: Wake> WorkerBells<W> {
    /// Whether it rang for the members of a group since they were served, and whether this worker may have been called for it. They are served from now on.
    pub fn take(&mut self, slot: usize) -> (bool, bool)
        ensures { self.new ≡ self.old }
    {
        match self.listenings.get_mut(slot) {
            Some(listening) => (listening.take_rung(), listening.take_called()),
            None => (false, false),
        }
    }

    /// Hears whether the bell of a group rang while this worker was idle there, so that it may be the one that was called.
    pub fn hear(&mut self, slot: usize) -> bool
        ensures heard { HearsAt slot self.old.listenings result self.new.listenings }
        ensures ringings { self.new.ringings ≡ self.old.ringings }
    {
        match self.listenings.get_mut(slot) {
            Some(listening) => listening.hear(),
            None => false,
        }
    }

    /// The worker is idle from now on at the bells of the groups of which it has members that would be handed a job. Whether it may wait.
    pub fn settle(&mut self, members: &Members) -> bool
        ensures { result ≡ true → IsIdle members.now self.new.listenings }
    {
        let mut may_wait = true;
        'slots: for slot in 0..SLOTS {
            let settled = self.settle_at(slot, members);
            may_wait &= settled;
        }
        may_wait
    }

    /// It is idle from now on at the bell of a group, where it has members that would be handed a job. Whether it may wait.
    fn settle_at(&mut self, slot: usize, members: &Members) -> bool
        ensures settled { result ≡ true → slot < most_groups → IsWished slot members.now → HasSettledAt self.new.listenings slot }
        ensures others { (k : ℕ) → k ≢ slot → slice_get self.new.listenings k ≡ slice_get self.old.listenings k }
        ensures ringings { self.new.ringings ≡ self.old.ringings }
    {
        if !members.has_taker(slot) {
            return true;
        }
        match self.listenings.get_mut(slot) {
            Some(listening) => listening.slot() == slot && listening.settle(),
            None => false,
        }
    }

    /// Notes of each group that there is something for the worker's own members, where there are so many messages.
    pub fn note_each(&mut self, messages: &[u32; SLOTS])
        ensures { self.new ≡ self.old }
    {
        'slots: for slot in 0..SLOTS {
            self.note_some(slot, messages[slot]);
        }
    }

    /// Notes that there is something for the worker's own members of a group, where there are so many messages.
    fn note_some(&mut self, slot: usize, count: u32)
        ensures { self.new ≡ self.old }
    {
        if count > 0 {
            if let Some(listening) = self.listenings.get_mut(slot) {
                listening.note();
            }
        }
    }

    /// Rings for so many workers that have members of a group: for those first whose bits are set, the lowest that of worker 0.
    pub fn ring(&mut self, slot: usize, wanted: usize, first: u64)
        ensures rung { IsRung slot wanted self.old.ringings self.new.ringings }
        ensures listenings { self.new.listenings ≡ self.old.listenings }
    {
        let mut left = wanted;
        'ringings: for ringing in 0..self.ringings.len() {
            left = self.ring_by(ringing, slot, left, first);
        }
    }

    /// Rings for so many workers that have members of each group, one group after the other, and for these of them first.
    pub fn ring_each(&mut self, wanted: &[u32; SLOTS], first: &[u64; SLOTS])
        ensures { AreRung 0 wanted.now self.old.ringings self.new.ringings }
    {
        'slots: for slot in 0..SLOTS {
            self.ring(slot, wanted[slot] as usize, first[slot]);
        }
    }

    /// Rings by one of its ringers, where that is at a bell of this group. How many are still to be woken.
    fn ring_by(&mut self, ringing: usize, slot: usize, left: usize, first: u64) -> usize
        requires { ringing < length self.old.ringings }
        ensures rung { RingsAt ringing slot left result self.old.ringings self.new.ringings }
        ensures listenings { self.new.listenings ≡ self.old.listenings }
    {
        self.ringings[ringing].ring(slot, left, first)
    }
}

/// What each of so many workers has of the bells, in their order: the ringers of each are at the bells of all listeners.
pub fn all_own_bells<W: Wake + Drop>(
    alloc: Global,
    mailboxes: &Mailboxes<W>,
    workers: usize,
) -> Result<Vec<WorkerBells<W>>, NoMemory>
    ensures count { IfOk result (λ all_own_bells. length all_own_bells.items ≡ workers) }
    ensures joined { IfOk result (λ all_own_bells. AreJoined all_own_bells.items) }
{
    let mut all = Vec::with_capacity(alloc, workers)?;
    'all_own_bells: for _ in 0..workers {
        all.push(WorkerBells {
            listenings: Vec::new(alloc),
            ringings: Vec::new(alloc),
        })?;
    }
    'slots: for slot in 0..SLOTS {
        fit_slot(alloc, mailboxes.alarms(), slot, all.as_mut_slice())?;
    }
    Ok(all)
}

/// Gives the workers of all bell groups what they have of the bells of a group.
fn fit_slot<W: Wake + Drop>(
    alloc: Global,
    bell_groups: &[Arc<Vec<W>, Global>],
    slot: usize,
    all: &mut [WorkerBells<W>],
) -> Result<(), NoMemory>
    ensures { OnOk result (AreJoined all.old → AreJoined all.new) }
{
    let mut first = 0usize;
    'bell_groups: for bell_group in bell_groups {
        let count = fit_bell_group(alloc, bell_group, slot, first, all)?;
        first = first.saturating_add(count);
    }
    Ok(())
}

/// Gives the workers of a bell group a listener at its bell, and every worker a ringer there. How many workers the bell group has.
fn fit_bell_group<W: Wake + Drop>(
    alloc: Global,
    bell_group: &Arc<Vec<W>, Global>,
    slot: usize,
    first: usize,
    all: &mut [WorkerBells<W>],
) -> Result<usize, NoMemory>
    ensures { OnOk result (AreJoined all.old → AreJoined all.new) }
{
    let count = bell_group.len();
    if count == 0 || count > MOST_WORKERS {
        return Ok(count);
    }
    let (bell, listeners, ringers) = bell_of(alloc, count, all.len())?;
    seat_listenings(&bell, slot, listeners, first, all)?;
    seat_ringings(&bell, bell_group, slot, first, ringers, all)?;
    Ok(count)
}

/// A bell for so many workers, its listeners, and so many ringers.
fn bell_of(
    alloc: Global,
    count: usize,
    ringings: usize,
) -> Result<(Arc<Bell, Global>, Vec<Listener>, Vec<Ringer>), NoMemory>
    requires count { (1 ≤ count) × (count ≤ MOST_WORKERS) }
    ensures count { IfOk result (λ opened. (arc_value opened.0).workers ≡ count) }
    ensures listeners { IfOk result (λ opened. AreListenersOf (arc_value opened.0).word opened.1.items) }
    ensures ringers { IfOk result (λ opened. AreRingersOf (arc_value opened.0).word opened.2.items × (length opened.2.items ≡ ringings)) }
{
    let (bell, listeners, ringers) = Bell::open(alloc, count, ringings).map_err(|_| NoMemory)?;
    let bell = Arc::new(alloc, bell)?;
    Ok((bell, listeners, ringers))
}

/// Gives workers, from the first of a bell group on, a listener at its bell, in the order of its listeners.
fn seat_listenings<W>(
    bell: &Arc<Bell, Global>,
    slot: usize,
    listeners: Vec<Listener>,
    first: usize,
    all: &mut [WorkerBells<W>],
) -> Result<(), NoMemory>
    requires { AreListenersOf (arc_value bell.now).word listeners.items }
    ensures { OnOk result (AreJoined all.old → AreJoinedBut (arc_value bell.now) slot all.new) }
{
    let mut worker = first;
    'listeners: for listener in listeners {
        seat_listening_of(all, worker, bell, slot, listener)?;
        worker = worker.saturating_add(1);
    }
    Ok(())
}

/// A listener more of a worker at a bell, where there is that worker.
fn seat_listening_of<W>(
    all: &mut [WorkerBells<W>],
    worker: usize,
    bell: &Arc<Bell, Global>,
    slot: usize,
    listener: Listener,
) -> Result<(), NoMemory>
    requires { listener.bell ≡ (arc_value bell.now).word }
    ensures { OnOk result (AreJoinedBut (arc_value bell.now) slot all.old → AreJoinedBut (arc_value bell.now) slot all.new) }
{
    if worker < all.len() {
        seat_listening(&mut all[worker], bell, slot, listener)
    } else {
        drop(listener);
        Ok(())
    }
}

/// A listener more at a bell.
fn seat_listening<W>(
    own_bells: &mut WorkerBells<W>,
    bell: &Arc<Bell, Global>,
    slot: usize,
    listener: Listener,
) -> Result<(), NoMemory>
    requires { listener.bell ≡ (arc_value bell.now).word }
    ensures listening { OnOk result (HasListeningMore (arc_value bell.now) slot own_bells.old.listenings own_bells.new.listenings) }
    ensures ringings { OnOk result (own_bells.new.ringings ≡ own_bells.old.ringings) }
{
    match Arc::try_clone(bell) {
        Ok(bell) => Ok(
            own_bells
                .listenings
                .push(Listening::new(bell, listener, slot))?,
        ),
        Err(_) => {
            drop(listener);
            Err(NoMemory)
        }
    }
}

/// Gives every worker a ringer at a bell.
fn seat_ringings<W: Wake + Drop>(
    bell: &Arc<Bell, Global>,
    bell_group: &Arc<Vec<W>, Global>,
    slot: usize,
    first: usize,
    ringers: Vec<Ringer>,
    all: &mut [WorkerBells<W>],
) -> Result<(), NoMemory>
    requires ringers { AreRingersOf (arc_value bell.now).word ringers.items × (length ringers.items ≡ length all.old) }
    requires bell_group { length (arc_value bell_group.now).items ≡ (arc_value bell.now).workers }
    ensures { OnOk result (AreJoinedBut (arc_value bell.now) slot all.old → AreJoined all.new) }
{
    let mut worker = 0usize;
    'ringers: for ringer in ringers {
        seat_ringing(&mut all[worker], bell, bell_group, slot, first, ringer)?;
        worker += 1;
    }
    Ok(())
}

/// A ringer more at a bell.
fn seat_ringing<W: Wake + Drop>(
    own_bells: &mut WorkerBells<W>,
    bell: &Arc<Bell, Global>,
    bell_group: &Arc<Vec<W>, Global>,
    slot: usize,
    first: usize,
    ringer: Ringer,
) -> Result<(), NoMemory>
    requires ringer { ringer.bell ≡ (arc_value bell.now).word }
    requires bell_group { length (arc_value bell_group.now).items ≡ (arc_value bell.now).workers }
    ensures ringing { OnOk result (HasRingingMore (arc_value bell.now) slot own_bells.old.ringings own_bells.new.ringings) }
    ensures listenings { OnOk result (own_bells.new.listenings ≡ own_bells.old.listenings) }
{
    match (Arc::try_clone(bell), Arc::try_clone(bell_group)) {
        (Ok(bell), Ok(bell_group)) => Ok(
            own_bells
                .ringings
                .push(Ringing::new(bell, ringer, bell_group, slot, first))?,
        ),
        _ => {
            drop(ringer);
            Err(NoMemory)
        }
    }
}
