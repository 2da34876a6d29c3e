//! What each worker has for itself, made before any worker is.
ghost use Rattle.std.specs.Prelude.{◌≡◌, ◌≤◌, ◌++◌, ℕ, [], ◌∷◌, length, IfOk, OnOk};
ghost use Rattle.conn_channel.specs.Ends.{AreReceivers};
ghost use Rattle.broker_worker.specs.Parts.{ArePartsOf};
ghost use Rattle.worker_connections.specs.PollerCalls.{HasNoCalls};

use crate::marks::Marks;
use conn_channel::{Receiver, Sender};
use conn_supply::NoMemory;
use std::alloc::Global;
use std::marker::{Model, PhantomData};
use transport::Transport;
use worker_bells::{Held, Interest, Mailboxes, Members, WorkerBells, all_own_bells, share_of};
use worker_connections::{Arrived, Poller};

/// Where a worker waits. Contracts see it as the poller, which was not used yet.
#[derive(Drop)]
pub struct UnusedPoller<T: Transport, Q: Poller<T>> {
    poller: Q,
    transports: PhantomData<T>,
}

impl<T: Transport, Q: Poller<T>> Model for UnusedPoller<T, Q> {
    ghost use Rattle.worker_connections.specs.PollerCalls.{HasNoCalls};

    ghost Value = { Q };

    ghost view = { λ g. g.poller };

    ghost invariant = { λ g. HasNoCalls (Q.poller_calls g.poller) };
}

impl<T: Transport, Q: Poller<T>> UnusedPoller<T, Q> {
    /// A poller that was not used yet.
    pub fn new(poller: Q) -> UnusedPoller<T, Q>
        requires { HasNoCalls (Q.poller_calls poller) }
        ensures { result ≡ poller }
    {
        UnusedPoller {
            poller,
            transports: PhantomData,
        }
    }

    /// The poller.
    pub(crate) fn into_inner(self) -> Q
        ensures same { result ≡ self }
        ensures no_poller_calls { HasNoCalls (Q.poller_calls result) }
    {
        let UnusedPoller {
            poller,
            transports: _,
        } = self;
        poller
    }
}

/// What the worker of a number has for itself. Contracts see it as a `PartsState`: its number, how many connections it has at most, and its end of the channel.
#[derive(Drop)]
pub struct WorkerParts<T: Transport + Drop, Q: Poller<T>> {
    pub(crate) number: usize,
    pub(crate) share: u16,
    pub(crate) unused_poller: UnusedPoller<T, Q>,
    pub(crate) receiver: Receiver<Arrived<T>>,
    pub(crate) own_bells: WorkerBells<Q::Alarm>,
    pub(crate) due: Marks,
    pub(crate) members: Members,
}

impl<T: Transport + Drop, Q: Poller<T>> Model for WorkerParts<T, Q> {
    ghost use Rattle.std.specs.Prelude.{◌≡◌, length};
    ghost use Rattle.broker_worker.specs.Parts.{PartsState};

    ghost Value = { PartsState T };

    ghost view = { λ k. record { number = k.number; share = k.share; receiver = k.receiver } };

    ghost invariant = { λ k. length k.members ≡ k.share };
}

/// The parts of each worker that has a mailbox, the last worker's first, with the pollers in the order of numbers. They receive from the channel of this sender.
///
/// # Errors
///
/// Out of memory.
pub fn all_worker_parts<T: Transport + Drop, Q: Poller<T> + Drop>(
    alloc: Global,
    unused_pollers: Vec<UnusedPoller<T, Q>>,
    mailboxes: &Mailboxes<Q::Alarm>,
    sender: &Sender<Arrived<T>>,
    receivers: Vec<Receiver<Arrived<T>>>,
) -> Result<Vec<WorkerParts<T, Q>>, NoMemory>
    requires receivers { AreReceivers sender.now.channel (length unused_pollers.items) receivers.items }
    ensures count { IfOk result (λ all_worker_parts. length all_worker_parts.items ≡ length unused_pollers.items) }
    ensures each { IfOk result (λ all_worker_parts. (share : ℕ) × ArePartsOf (length unused_pollers.items) share sender.now.channel all_worker_parts.items) }
{
    let mut unused_pollers = unused_pollers;
    let mut receivers = receivers;
    let mut all_own_bells = all_own_bells(alloc, mailboxes, unused_pollers.len())?;
    let mut all_worker_parts = Vec::with_capacity(alloc, unused_pollers.len())?;
    add_all_worker_parts(
        alloc,
        &mut all_worker_parts,
        &mut unused_pollers,
        sender,
        &mut receivers,
        &mut all_own_bells,
    )?;
    Ok(all_worker_parts)
}

/// The parts of all workers, the last worker's first.
fn add_all_worker_parts<T: Transport + Drop, Q: Poller<T> + Drop>(
    alloc: Global,
    all_worker_parts: &mut Vec<WorkerParts<T, Q>>,
    unused_pollers: &mut Vec<UnusedPoller<T, Q>>,
    sender: &Sender<Arrived<T>>,
    receivers: &mut Vec<Receiver<Arrived<T>>>,
    all_own_bells: &mut Vec<WorkerBells<Q::Alarm>>,
) -> Result<(), NoMemory>
    requires none { all_worker_parts.old.items ≡ [] }
    requires receivers { AreReceivers sender.now.channel (length unused_pollers.old.items) receivers.old.items }
    requires all_own_bells { length all_own_bells.old.items ≡ length unused_pollers.old.items }
    ensures count { OnOk result (length all_worker_parts.new.items ≡ length unused_pollers.old.items) }
    ensures each { OnOk result ((share : ℕ) × ArePartsOf (length unused_pollers.old.items) share sender.now.channel all_worker_parts.new.items) }
{
    let share = share_of(unused_pollers.len());
    'all_worker_parts: while let Some(own) = unused_pollers.pop() {
        let (Some(receiver), Some(own_bells)) = (receivers.pop(), all_own_bells.pop()) else {
            unreachable!()
        };
        add_worker_parts(
            alloc,
            all_worker_parts,
            unused_pollers.len(),
            share,
            own,
            receiver,
            own_bells,
        )?;
    }
    Ok(())
}

/// The parts of one more, the worker of a number.
fn add_worker_parts<T: Transport + Drop, Q: Poller<T> + Drop>(
    alloc: Global,
    all_worker_parts: &mut Vec<WorkerParts<T, Q>>,
    number: usize,
    share: u16,
    unused_poller: UnusedPoller<T, Q>,
    receiver: Receiver<Arrived<T>>,
    own_bells: WorkerBells<Q::Alarm>,
) -> Result<(), NoMemory>
    ensures { OnOk result (all_worker_parts.new.items ≡ all_worker_parts.old.items ++ record { number = number; share = share; receiver = receiver } ∷ []) }
{
    let Ok((due, members)) = blank(alloc, usize::from(share)) else {
        drop(unused_poller);
        drop(receiver);
        drop(own_bells);
        return Err(NoMemory);
    };
    all_worker_parts.push(WorkerParts {
        number,
        share,
        unused_poller,
        receiver,
        own_bells,
        due,
        members,
    })?;
    Ok(())
}

/// Marks and wishes for so many cells, none of which is marked or has a wish.
fn blank(alloc: Global, count: usize) -> Result<(Marks, Members), NoMemory>
    requires few { count ≤ 65535 }
    ensures { IfOk result (λ both. length both.1 ≡ count) }
{
    let marks = vec![in alloc; false; count]?;
    let interests = vec![in alloc; Interest::NONE; count]?;
    let held = vec![in alloc; Held::NONE; count]?;
    Ok((Marks::new(marks), Members::new(interests, held)))
}
