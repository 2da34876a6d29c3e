//! A pool of workers, and its run.
ghost use Rattle.std.specs.Prelude.{◌≡◌, ◌+◌, ◌*◌, ◌<◌, ◌≤◌, ◌^◌, ℕ, List, [], All, length, map, vec_capacity, IfOk, IfErr, MatchResult};
ghost use Rattle.limits.specs.Limits.{most_ports};
ghost use Rattle.broker_worker.specs.Parts.{ArePartsOf};
ghost use Rattle.conn_channel.specs.Ends.{AreOf, end_marks_received_by};
ghost use Rattle.worker_connections.specs.Handles.{IsUnused};
ghost use Rattle.worker_pool.specs.Accepting.{EndedAs, Gave, arrivals};
ghost use Rattle.worker_pool.specs.Pools.{AreAllCounted, AreServed, CountsAll, HaveEnded, total_in};
ghost use Rattle.worker_pool.specs.Workers.{AreNumbered, HasServed, IsHired};

use crate::accepting::{Acceptor, Closer, Taken};
use crate::network::Network;
use crate::provision::{Provision, provide};
use crate::running::run_all;
use crate::setup::PoolSetup;
use crate::watching::Watch;
use broker_groups::Broker;
use broker_worker::{Mailboxes, Worker, WorkerParts};
use call_history::HistoryName;
use conn_channel::{Receiver, Sender};
use shared_routes::KnownRoutes;
use shared_supply::SharedBroker;
use std::alloc::Global;
use std::rt::Clock as SystemClock;
use std::sync::Wait;
use std::thread::Threads;
use transport::Transport;
use worker_connections::{Arrived, Poller, Returned, ServedCounts, WorkerHandle};

/// What a pool gives back.
#[derive(Drop)]
pub struct Pooled<B: Broker, N: HistoryName, W: Network> {
    /// What its workers had of the broker.
    pub handles: Vec<WorkerHandle<B, N>>,
    /// How the connections of each worker ended.
    pub served: Vec<ServedCounts>,
    /// Where they came from, and how many.
    pub taken: Taken<W::Source>,
    /// Where its workers waited, which closed all connections.
    pub pollers: Vec<W::Poller>,
}

/// A pool that was not begun, for lack of memory: no connection was taken. What its workers were to have comes back.
pub struct Unbegun<B: Broker, N: HistoryName, W: Network> {
    pub handles: Vec<WorkerHandle<B, N>>,
    pub source: W::Source,
}

/// Serves the connections of a source with as many workers as there are handles, each in a thread of its own, until the source has ended or failed, the
/// broker's gate is shut, and all connections have ended. A thread of its own takes the connections, and another one watches the input. Where the source fails, the gate
/// is shut. The handles are unused: nothing was published through their ports, and their callers of the desk made no call.
///
/// All that workers had of the broker comes back, and so do their pollers, with what they closed. Each connection that the source gave came to one worker, once, and is in
/// its run, from its opening to its end (`served`). Then `routes` was told of the shares that each knew.
///
/// # Errors
///
/// 906 [`Unbegun`].
pub fn run<
    B: Broker + Send + Sync,
    N: HistoryName + Send + Sync,
    W: Network,
    D: Watch,
    R: Threads + Wait + SystemClock + Sync,
>(
    rt: &R,
    alloc: Global,
    shared_broker: &SharedBroker<'_, B, N>,
    handles: Vec<WorkerHandle<B, N>>,
    setup: PoolSetup<W>,
    closer: Closer<'_, B>,
    watch: &mut D,
    input: &mut D::Input,
    routes: &mut KnownRoutes<'_>,
) -> Result<Pooled<B, N, W>, Unbegun<B, N, W>>
where
    B::Seen: Send + Sync,
    W::Transport: Send,
    W::Source: Send,
    W::Poller: Send,
    W::Alarm: Send + Sync,
    requires workers { (1 ≤ length handles.items) × (length handles.items ≤ most_ports) }
    requires setup { length setup.unused_pollers.items ≡ length handles.items }
    requires unused { All (λ handle. IsUnused handle.ports handle.desk) handles.items }
    requires routes { routes.old.table ≡ shared_broker.now }
    ensures handles { MatchResult result (λ pooled. length pooled.handles.items ≡ length handles.items) (λ unbegun. length unbegun.handles.items ≡ length handles.items) }
    ensures taken { IfOk result (λ pooled. (W.Source.tally pooled.taken.source).arrivals ≡ (W.Source.tally setup.source).arrivals + pooled.taken.came) }
    ensures ends { IfOk result (λ pooled. EndedAs W.Source.tally pooled.taken.end setup.source pooled.taken.source) }
    ensures served { IfOk result (λ pooled. (came : List W.Transport) × Gave W.Source.arrived setup.source came pooled.taken.source × (pooled.taken.came ≡ length came)
        × AreServed B.group B.Seen.Witness W.Transport.counts W.Transport.given W.Transport.accepted (arrivals setup.limits came) routes.new.told (map (λ handle. handle.ports) pooled.handles.items) (map (λ handle. handle.desk) pooled.handles.items) pooled.served.items (map W.Poller.poller_calls pooled.pollers.items)) }
    ensures counted { IfOk result (λ pooled. pooled.taken.came < 2 ^ 64 → pooled.taken.came ≡ total_in pooled.served.items) }
    ensures watched { IfOk result (λ _. D.has_watched watch.old watch.new input.old input.new) }
    ensures untouched { IfErr result (λ unbegun. unbegun.source ≡ setup.source) }
    ensures routes { routes.new ≡ record routes.old { told = routes.new.told } }
{
    let PoolSetup {
        source,
        unused_pollers,
        alarms,
        limits,
    } = setup;
    let Ok(
        Provision {
            mailboxes,
            sender,
            all_worker_parts,
            receivers,
            served,
            pollers,
        },
    ) = provide(alloc, unused_pollers, alarms)
    else {
        return Err(Unbegun { handles, source });
    };
    let (workers, handles) = match hire(
        rt,
        alloc,
        shared_broker,
        handles,
        all_worker_parts,
        &mailboxes,
        &sender,
    ) {
        Ok(hired) => hired,
        Err(handles) => return Err(Unbegun { handles, source }),
    };
    let mut acceptor = Acceptor::new(source, sender, &mailboxes, closer, limits);
    let mut workers = workers;
    run_all(rt, &mut acceptor, watch, input, &mut workers);
    Ok(retire(
        shared_broker,
        acceptor,
        workers,
        handles,
        receivers,
        served,
        pollers,
        routes,
    ))
}

/// Hires a worker for each handle, with its parts, who receives from the channel of this sender, in the order of their numbers. Where an allocation fails for one of them, all handles come back.
fn hire<'a, 'g, B: Broker, N: HistoryName, T: Transport + Drop, Q: Poller<T> + Drop, R: Wait>(
    rt: &'a R,
    alloc: Global,
    shared_broker: &'a SharedBroker<'g, B, N>,
    handles: Vec<WorkerHandle<B, N>>,
    all_worker_parts: Vec<WorkerParts<T, Q>>,
    mailboxes: &'a Mailboxes<Q::Alarm>,
    sender: &Sender<Arrived<T>>,
) -> Result<(Vec<Worker<'a, 'g, B, N, T, Q, R>>, Vec<WorkerHandle<B, N>>), Vec<WorkerHandle<B, N>>>
    requires count { length handles.items ≤ most_ports }
    requires all_worker_parts { length all_worker_parts.items ≡ length handles.items }
    requires unused { All (λ handle. IsUnused handle.ports handle.desk) handles.items }
    requires each { (share : ℕ) × ArePartsOf (length handles.items) share sender.now.channel all_worker_parts.items }
    ensures hired { IfOk result (λ made. (length made.0.items ≡ length handles.items) × All (IsHired sender.now.channel shared_broker.now) made.0.items) }
    ensures numbered { IfOk result (λ made. (share : ℕ) × AreNumbered share made.0.items) }
    ensures handles { IfOk result (λ made. (made.1.items ≡ []) × (length handles.items ≤ vec_capacity made.1)) }
    ensures back { IfErr result (λ back. length back.items ≡ length handles.items) }
{
    let mut handles = handles;
    let mut all_worker_parts = all_worker_parts;
    let Ok(mut workers) = Vec::with_capacity(alloc, handles.len()) else {
        return Err(handles);
    };
    'all_worker_parts: while let Some(worker_parts) = all_worker_parts.pop() {
        let Some(handle) = handles.pop() else {
            unreachable!()
        };
        match Worker::begin(rt, alloc, shared_broker, handle, worker_parts, mailboxes) {
            Ok(worker) => workers.push_reserved(worker),
            Err(handle) => {
                handles.push_reserved(handle);
                release(workers, &mut handles);
                return Err(handles);
            }
        }
    }
    Ok((workers, handles))
}

/// Lets workers go. What they had of the broker is put to the handles.
fn release<'a, 'g, B: Broker, N: HistoryName, T: Transport + Drop, Q: Poller<T> + Drop, R: Wait>(
    workers: Vec<Worker<'a, 'g, B, N, T, Q, R>>,
    handles: &mut Vec<WorkerHandle<B, N>>,
)
    requires { length handles.old.items + length workers.items ≤ vec_capacity handles.old }
    ensures { length handles.new.items ≡ length handles.old.items + length workers.entry.items }
{
    let mut workers = workers;
    'workers: while let Some(worker) = workers.pop() {
        let Returned {
            handle,
            receiver: _,
            served: _,
            known: _,
            poller,
        } = worker.into_parts();
        drop(poller);
        handles.push_reserved(handle);
    }
    workers.destroy_empty();
}

/// What workers give back that have ended, and what became of the source. There is room for all of it.
fn retire<'a, 'g, B: Broker, N: HistoryName, W: Network, R: Wait>(
    shared_broker: &SharedBroker<'g, B, N>,
    acceptor: Acceptor<'a, B, W>,
    workers: Vec<Worker<'a, 'g, B, N, W::Transport, W::Poller, R>>,
    handles: Vec<WorkerHandle<B, N>>,
    receivers: Vec<Receiver<Arrived<W::Transport>>>,
    served: Vec<ServedCounts>,
    pollers: Vec<W::Poller>,
    routes: &mut KnownRoutes<'_>,
) -> Pooled<B, N, W>
    requires workers { All (HasServed acceptor.sender.channel shared_broker.now) workers.items }
    requires numbered { (share : ℕ) × AreNumbered share workers.items }
    requires routes { routes.old.table ≡ shared_broker.now }
    requires count { (1 ≤ length workers.items) × (length workers.items ≡ acceptor.sender.receivers) }
    requires handles { (handles.items ≡ []) × (length workers.items ≤ vec_capacity handles) }
    requires receivers { (receivers.items ≡ []) × (length workers.items ≤ vec_capacity receivers) }
    requires served { (served.items ≡ []) × (length workers.items ≤ vec_capacity served) }
    requires pollers { (pollers.items ≡ []) × (length workers.items ≤ vec_capacity pollers) }
    ensures handles { length result.handles.items ≡ length workers.entry.items }
    ensures source { result.taken.source ≡ acceptor.entry.source }
    ensures came { result.taken.came ≡ length acceptor.entry.sender.sent }
    ensures ends { result.taken.end ≡ acceptor.entry.end }
    ensures served { AreServed B.group B.Seen.Witness W.Transport.counts W.Transport.given W.Transport.accepted acceptor.entry.sender.sent routes.new.told (map (λ handle. handle.ports) result.handles.items) (map (λ handle. handle.desk) result.handles.items) result.served.items (map W.Poller.poller_calls result.pollers.items) }
    ensures counted { CountsAll result.taken.came result.served.items }
    ensures routes { routes.new ≡ record routes.old { told = routes.new.told } }
{
    let mut handles = handles;
    let mut receivers = receivers;
    let mut served = served;
    let mut pollers = pollers;
    gather(
        shared_broker,
        workers,
        acceptor.sender(),
        &mut handles,
        &mut receivers,
        &mut served,
        &mut pollers,
        routes,
    );
    let (sender, taken) = acceptor.into_parts();
    sender.settle(receivers);
    Pooled {
        handles,
        served,
        taken,
        pollers,
    }
}

/// Gathers what workers give back that have ended, who received from the channel of this sender, the last one's first.
fn gather<'a, 'g, B: Broker, N: HistoryName, T: Transport + Drop, Q: Poller<T> + Drop, R: Wait>(
    shared_broker: &SharedBroker<'g, B, N>,
    workers: Vec<Worker<'a, 'g, B, N, T, Q, R>>,
    sender: &Sender<Arrived<T>>,
    handles: &mut Vec<WorkerHandle<B, N>>,
    receivers: &mut Vec<Receiver<Arrived<T>>>,
    served: &mut Vec<ServedCounts>,
    pollers: &mut Vec<Q>,
    routes: &mut KnownRoutes<'_>,
)
    requires workers { All (HasServed sender.now.channel shared_broker.now) workers.items }
    requires routes { routes.old.table ≡ shared_broker.now }
    requires handles { length handles.old.items + length workers.items ≤ vec_capacity handles.old }
    requires receivers { length receivers.old.items + length workers.items ≤ vec_capacity receivers.old }
    requires served { length served.old.items + length workers.items ≤ vec_capacity served.old }
    requires pollers { length pollers.old.items + length workers.items ≤ vec_capacity pollers.old }
    requires of { AreOf sender.now.channel receivers.old.items }
    requires all { AreAllCounted receivers.old.items served.old.items }
    requires ended { (share : ℕ) × AreNumbered share workers.items × HaveEnded B.group B.Seen.Witness T.counts T.given T.accepted (length workers.items * share) (map (λ handle. handle.ports) handles.old.items) (map (λ handle. handle.desk) handles.old.items) receivers.old.items served.old.items (map Q.poller_calls pollers.old.items) routes.old.told }
    ensures handles { length handles.new.items ≡ length handles.old.items + length workers.entry.items }
    ensures receivers { length receivers.new.items ≡ length receivers.old.items + length workers.entry.items }
    ensures of { AreOf sender.now.channel receivers.new.items }
    ensures marks { end_marks_received_by receivers.new.items ≡ end_marks_received_by receivers.old.items + length workers.entry.items }
    ensures all { AreAllCounted receivers.new.items served.new.items }
    ensures ended { HaveEnded B.group B.Seen.Witness T.counts T.given T.accepted 0 (map (λ handle. handle.ports) handles.new.items) (map (λ handle. handle.desk) handles.new.items) receivers.new.items served.new.items (map Q.poller_calls pollers.new.items) routes.new.told }
    ensures routes { routes.new ≡ record routes.old { told = routes.new.told } }
{
    let mut workers = workers;
    'workers: while let Some(worker) = workers.pop() {
        let Returned {
            handle,
            receiver,
            served: counts,
            mut known,
            poller,
        } = worker.into_parts();
        handles.push_reserved(handle);
        receivers.push_reserved(receiver);
        served.push_reserved(counts);
        pollers.push_reserved(poller);
        known.publish(routes);
    }
    workers.destroy_empty();
}
