//! What a pool has before its first worker begins.
ghost use Rattle.std.specs.Prelude.{◌≡◌, ◌≤◌, ℕ, [], length, vec_capacity, IfOk};
ghost use Rattle.limits.specs.Limits.{most_ports};
ghost use Rattle.broker_worker.specs.Parts.{ArePartsOf};

use broker_worker::{Mailboxes, UnusedPoller, WorkerParts, all_worker_parts};
use conn_channel::{Receiver, Sender};
use conn_supply::NoMemory;
use std::alloc::Global;
use transport::Transport;
use worker_connections::{Arrived, Poller, ServedCounts};

/// What all workers share, what each has of it, and the room for what they give back.
#[derive(Drop)]
pub(crate) struct Provision<T: Transport + Drop, Q: Poller<T>> {
    pub(crate) mailboxes: Mailboxes<Q::Alarm>,
    pub(crate) sender: Sender<Arrived<T>>,
    pub(crate) all_worker_parts: Vec<WorkerParts<T, Q>>,
    pub(crate) receivers: Vec<Receiver<Arrived<T>>>,
    pub(crate) served: Vec<ServedCounts>,
    pub(crate) pollers: Vec<Q>,
}

/// Makes it for as many workers as there are pollers.
pub(crate) fn provide<T: Transport + Drop, Q: Poller<T> + Drop>(
    alloc: Global,
    unused_pollers: Vec<UnusedPoller<T, Q>>,
    alarms: Vec<Q::Alarm>,
) -> Result<Provision<T, Q>, NoMemory>
    requires { length unused_pollers.items ≤ most_ports }
    ensures sender { IfOk result (λ made. (made.sender.receivers ≡ length unused_pollers.items) × (made.sender.sent ≡ []) × (made.sender.end_marks_sent ≡ 0)) }
    ensures count { IfOk result (λ made. length made.all_worker_parts.items ≡ length unused_pollers.items) }
    ensures all_worker_parts { IfOk result (λ made. (share : ℕ) × ArePartsOf (length unused_pollers.items) share made.sender.channel made.all_worker_parts.items) }
    ensures receivers { IfOk result (λ made. (made.receivers.items ≡ []) × (length unused_pollers.items ≤ vec_capacity made.receivers)) }
    ensures served { IfOk result (λ made. (made.served.items ≡ []) × (length unused_pollers.items ≤ vec_capacity made.served)) }
    ensures pollers { IfOk result (λ made. (made.pollers.items ≡ []) × (length unused_pollers.items ≤ vec_capacity made.pollers)) }
{
    let count = unused_pollers.len();
    let mailboxes = Mailboxes::open(alloc, count, alarms)?;
    let (sender, ends) = conn_channel::open(alloc, count)?;
    let all_worker_parts = all_worker_parts(alloc, unused_pollers, &mailboxes, &sender, ends)?;
    let receivers = Vec::with_capacity(alloc, count)?;
    let served = Vec::with_capacity(alloc, count)?;
    let pollers = Vec::with_capacity(alloc, count)?;
    Ok(Provision {
        mailboxes,
        sender,
        all_worker_parts,
        receivers,
        served,
        pollers,
    })
}
