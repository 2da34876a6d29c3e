//! A broker that is served to its end.
ghost use Rattle.std.specs.Prelude.{◌≡◌, ◌+◌, ◌≤◌, List, All, length, map, take, IfOk, MatchResult};
ghost use Rattle.limits.specs.Limits.{most_ports};
ghost use mathlib.Core.List.{IsPrefix};
ghost use Rattle.mqtt_topic.specs.Names.{Share as ShareState};
ghost use Rattle.mqtt_topic.specs.Routes.{most_routes};
ghost use Rattle.final_report.specs.Brokers.{KeptItsPromisesBehind};
ghost use Rattle.call_history.specs.Callers.{all_parts};
ghost use Rattle.call_history.specs.Numbers.{IsEachOnce};
ghost use Rattle.worker_connections.specs.Handles.{IsUnused};
ghost use Rattle.worker_pool.specs.Accepting.{EndedAs, Gave, arrivals};
ghost use Rattle.worker_pool.specs.Pools.{AreServed};
ghost use Rattle.threaded_broker.specs.Headline.{KeepsTheHeadline, RunsUntilClosed};
ghost use Rattle.threaded_broker.specs.Shares.{IsBoundIn};

use crate::closing::{close, take_in};
use crate::opening::{BrokerParts, OpenBroker, abandon};
use crate::shares::{copy_all, declare_all};
use broker_groups::{Broker, BrokerPlace, Ended, Ports};
use call_history::HistoryName;
use conn_supply::NoMemory;
use final_report::end_broker;
use gate_word::Drained;
use group_queue::LawfulWitness;
use mqtt_topic::Share;
use shared_desk::DeskCaller;
use shared_supply::SharedBroker;
use std::alloc::Global;
use std::rt::Clock as SystemClock;
use std::sync::Wait;
use std::thread::Threads;
use worker_connections::{ServedCounts, WorkerHandle};
use worker_pool::{Closer, Network, PoolSetup, Pooled, Taken, Unbegun, Watch, run};

/// Who shuts the gate of a broker.
#[derive(Drop)]
pub struct Closers<'a, B: Broker> {
    /// Who takes its connections, where their source fails.
    pub accepting: Closer<'a, B>,
    /// Who ends it, once all of its threads have ended.
    pub ending: Closer<'a, B>,
}

/// What became of a broker that was served to its end.
pub struct Outcome<'g, B: Broker, N: HistoryName, W: Network> {
    /// The report of each group, in the order of slots, or why there is none.
    pub ended: Ended<'g, B::Seen>,
    /// The shares that are bound, in the order of their slots.
    pub shares: Vec<Share>,
    /// How the connections of each worker ended.
    pub served: Vec<ServedCounts>,
    /// Where the connections came from, and how many.
    pub taken: Taken<W::Source>,
    /// Where the workers waited, which closed all connections.
    pub pollers: Vec<W::Poller>,
    /// The first caller of the desk, which took in those of its workers, and has the whole right to call it.
    pub caller: DeskCaller<BrokerPlace<B>, N>,
    /// Nobody is inside the broker's gate, nor ever will be.
    pub drained: Drained,
}

/// A broker that was served, whose gate is drained.
pub struct Closed<'g, B: Broker, N: HistoryName, W: Network> {
    pub shared_broker: SharedBroker<'g, B, N>,
    /// The ports of all its workers.
    pub ports: Vec<Ports<B>>,
    /// The shares that are bound, in the order of their slots.
    pub shares: Vec<Share>,
    /// How the connections of each worker ended.
    pub served: Vec<ServedCounts>,
    /// Where the connections came from, and how many.
    pub taken: Taken<W::Source>,
    /// Where the workers waited, which closed all connections.
    pub pollers: Vec<W::Poller>,
    /// The first caller of the desk, which took in those of its workers, and has the whole right to call it.
    pub caller: DeskCaller<BrokerPlace<B>, N>,
    /// Nobody is inside the broker's gate, nor ever will be.
    pub drained: Drained,
}

/// Serves the connections of a source with the workers of a broker, each in a thread of its own, until the source has ended or failed, the broker's gate is
/// shut, and all connections have ended; then ends its groups. Who watches is given the input, and shuts the gate and ends the source, in a thread of its own. The shares that
/// are given are bound before the first connection is served, in their order.
///
/// The first caller of the desk comes back, and knows all calls that were made of it; what it knew before, and what each worker knew, are beginnings of these. The calls
/// led to the sessions, places and messages with which the groups end. Each call put a place into the new desk, or was made in one worker's run, once (`opened`, `each_call_once`): so what lies
/// with the desk between two connections is as the first of them left it.
///
/// **What a broker promises**, in every schedule of its threads, whatever its transports do (`headline`), is of this one run. The connections that the source gave, in its
/// order, came each to one worker, once; and what each worker did is one list of deeds, from the ports that it was given, through which nothing was published, to those that
/// it gave back: it opened each connection that came to it in a cell, or closed it as it came where an allocation failed, went on with the connection in a cell by a
/// round, and retired the sessions whose time was over, each at the state that the deed before it left (`run`). What its poller closed and waited for is just that of these deeds: each transport was closed as the deed by which its
/// connection ended left it, and each wait told the moment at which the worker went on. Through just these ports, of each group whose report is given:
///
/// - each message that was accepted was first handed to at most one member, once (`first_once`);
/// - each member's first hand-outs from a publisher keep that publisher's order (`in_order`);
/// - a refused message went to nobody else (`refused_for_good`), nor did a discarded one (`discarded_for_good`);
/// - the report gives each accepted message exactly one fate, and nothing else any (`one_fate`), and that is the one that it had (`what_happened`).
///
/// And each place did what the calls of the runs did there, and nothing else (`came_of_calls`): these are one list for each run (`calls_are`), in which what a step hands out
/// are its PUBLISH packets with DUP 0, and what it settles is what its PUBACK came for; where sessions are retired whose time is over, messages are given back, and none is handed out or settled.
///
/// And of the broker:
///
/// - no connection had more unacknowledged PUBLISH packets than its Receive Maximum, and than the limit given, at any moment of the run (`within_receive_maximum`);
/// - no group lacks a message at its end, whichever worker ended the session that held it (`none_lacks`);
/// - nothing was accepted or handed out once the gate was drained (`closed`): the token of that is here, with which there is no turn of the gate.
///
/// # Errors
///
/// Lack of memory. What became of the messages is not known then.
pub fn serve<
    'g,
    B: Broker + Send + Sync,
    N: HistoryName + Send + Sync,
    W: Network,
    D: Watch,
    R: Threads + Wait + SystemClock + Sync,
>(
    rt: &R,
    alloc: Global,
    broker: OpenBroker<'g, B, N>,
    shares: &[Share],
    setup: PoolSetup<W>,
    closers: Closers<'_, B>,
    watch: &mut D,
    input: &mut D::Input,
) -> Result<Outcome<'g, B, N, W>, NoMemory>
where
    B::Seen: LawfulWitness + Send + Sync,
    W::Transport: Send,
    W::Source: Send,
    W::Poller: Send,
    W::Alarm: Send + Sync,
    requires setup { length setup.unused_pollers.items ≡ broker.workers }
    ensures headline { IfOk result (λ outcome. (came : List W.Transport) × Gave W.Source.arrived setup.source came outcome.taken.source × (outcome.taken.came ≡ length came)
        × KeepsTheHeadline B.group B.Seen.Witness W.Transport.counts W.Transport.given W.Transport.accepted broker.entry.workers setup.limits came broker.entry.caller outcome.caller outcome.shares.items outcome.ended.answers.items outcome.ended.strangers.items outcome.served.items (map W.Poller.poller_calls outcome.pollers.items)) }
    ensures closed { IfOk result (λ outcome. outcome.drained ≡ B.gate) }
    ensures taken { IfOk result (λ outcome. (W.Source.tally outcome.taken.source).arrivals ≡ (W.Source.tally setup.source).arrivals + outcome.taken.came) }
    ensures ends { IfOk result (λ outcome. EndedAs W.Source.tally outcome.taken.end setup.source outcome.taken.source) }
    ensures watched { IfOk result (λ _. D.has_watched watch.old watch.new input.old input.new) }
    ensures shares { IfOk result (λ outcome. All (IsBoundIn outcome.shares.items) shares.now) }
{
    let closed = serve_until_closed(rt, alloc, broker, shares, setup, closers, watch, input)?;
    let Closed {
        shared_broker,
        ports,
        shares,
        served,
        taken,
        pollers,
        mut caller,
        drained,
    } = closed;
    let ended = end(rt, alloc, &drained, shared_broker, ports, &mut caller)?;
    Ok(Outcome {
        ended,
        shares,
        served,
        taken,
        pollers,
        caller,
        drained,
    })
}

/// The same until the broker is closed: its gate is drained, and all that its workers had came back. So who ends it has its ports, places and messages in hands: those of
/// [`SharedBroker::empty`] and these ports go to `end_groups` of `final_report`.
///
/// # Errors
///
/// An allocation failed. What became of the messages is not known then.
pub fn serve_until_closed<
    'g,
    B: Broker + Send + Sync,
    N: HistoryName + Send + Sync,
    W: Network,
    D: Watch,
    R: Threads + Wait + SystemClock + Sync,
>(
    rt: &R,
    alloc: Global,
    broker: OpenBroker<'g, B, N>,
    shares: &[Share],
    setup: PoolSetup<W>,
    closers: Closers<'_, B>,
    watch: &mut D,
    input: &mut D::Input,
) -> Result<Closed<'g, B, N, W>, NoMemory>
where
    B::Seen: Send + Sync,
    W::Transport: Send,
    W::Source: Send,
    W::Poller: Send,
    W::Alarm: Send + Sync,
    requires setup { length setup.unused_pollers.items ≡ broker.workers }
    ensures ports { IfOk result (λ closed. length closed.ports.items ≡ broker.entry.workers) }
    ensures run { IfOk result (λ closed. (came : List W.Transport) × Gave W.Source.arrived setup.source came closed.taken.source × (closed.taken.came ≡ length came)
        × RunsUntilClosed B.group B.Seen.Witness W.Transport.counts W.Transport.given W.Transport.accepted setup.limits came broker.entry.caller closed.caller closed.shares.items closed.ports.items closed.served.items (map W.Poller.poller_calls closed.pollers.items)) }
    ensures closed { IfOk result (λ closed. closed.drained ≡ B.gate) }
    ensures taken { IfOk result (λ closed. (W.Source.tally closed.taken.source).arrivals ≡ (W.Source.tally setup.source).arrivals + closed.taken.came) }
    ensures ends { IfOk result (λ closed. EndedAs W.Source.tally closed.taken.end setup.source closed.taken.source) }
    ensures watched { IfOk result (λ _. D.has_watched watch.old watch.new input.old input.new) }
    ensures shares { IfOk result (λ closed. All (IsBoundIn closed.shares.items) shares.now) }
{
    let Closers {
        accepting,
        mut ending,
    } = closers;
    let BrokerParts {
        shared_broker,
        handles,
        room,
        mut caller,
    } = broker.into_parts();
    let ran = run_bound(
        rt,
        alloc,
        &shared_broker,
        shares,
        handles,
        setup,
        accepting,
        watch,
        input,
    );
    let drained = close(rt, &mut ending);
    match ran {
        Ok(Ran { pooled, shares }) => {
            let Pooled {
                handles,
                served,
                taken,
                pollers,
            } = pooled;
            let ports = take_in(&shared_broker, &mut caller, handles, room);
            Ok(Closed {
                shared_broker,
                ports,
                shares,
                served,
                taken,
                pollers,
                caller,
                drained,
            })
        }
        Err(handles) => {
            let ports = take_in(&shared_broker, &mut caller, handles, room);
            abandon(shared_broker, ports);
            Err(NoMemory)
        }
    }
}

/// What a pool gives back, and the shares that are bound then, in the order of their slots.
struct Ran<B: Broker, N: HistoryName, W: Network> {
    pooled: Pooled<B, N, W>,
    shares: Vec<Share>,
}

/// Binds the shares, and runs the pool. Where an allocation fails, what its workers had of the broker comes back.
fn run_bound<
    B: Broker + Send + Sync,
    N: HistoryName + Send + Sync,
    W: Network,
    D: Watch,
    R: Threads + Wait + SystemClock + Sync,
>(
    rt: &R,
    alloc: Global,
    shared_broker: &SharedBroker<'_, B, N>,
    shares: &[Share],
    handles: Vec<WorkerHandle<B, N>>,
    setup: PoolSetup<W>,
    accepting: Closer<'_, B>,
    watch: &mut D,
    input: &mut D::Input,
) -> Result<Ran<B, N, W>, Vec<WorkerHandle<B, N>>>
where
    B::Seen: Send + Sync,
    W::Transport: Send,
    W::Source: Send,
    W::Poller: Send,
    W::Alarm: Send + Sync,
    requires workers { (1 ≤ length handles.items) × (length handles.items ≤ most_ports) }
    requires setup { length setup.unused_pollers.items ≡ length handles.items }
    requires unused { All (λ handle. IsUnused handle.ports handle.desk) handles.items }
    ensures handles { MatchResult result (λ ran. length ran.pooled.handles.items ≡ length handles.items) (λ back. length back.items ≡ length handles.items) }
    ensures taken { IfOk result (λ ran. (W.Source.tally ran.pooled.taken.source).arrivals ≡ (W.Source.tally setup.source).arrivals + ran.pooled.taken.came) }
    ensures ends { IfOk result (λ ran. EndedAs W.Source.tally ran.pooled.taken.end setup.source ran.pooled.taken.source) }
    ensures served { IfOk result (λ ran. (came : List W.Transport) × (routes : List ShareState) × (ran.shares.items ≡ take most_routes routes) × Gave W.Source.arrived setup.source came ran.pooled.taken.source × (ran.pooled.taken.came ≡ length came)
        × AreServed B.group B.Seen.Witness W.Transport.counts W.Transport.given W.Transport.accepted (arrivals setup.limits came) routes (map (λ handle. handle.ports) ran.pooled.handles.items) (map (λ handle. handle.desk) ran.pooled.handles.items) ran.pooled.served.items (map W.Poller.poller_calls ran.pooled.pollers.items)) }
    ensures watched { IfOk result (λ _. D.has_watched watch.old watch.new input.old input.new) }
    ensures shares { IfOk result (λ ran. All (IsBoundIn ran.shares.items) shares.now) }
{
    let Ok(mut known) = shared_broker.observe_routes(alloc) else {
        return Err(handles);
    };
    let Ok(()) = declare_all(alloc, &mut known, shares) else {
        return Err(handles);
    };
    match run(
        rt,
        alloc,
        shared_broker,
        handles,
        setup,
        accepting,
        watch,
        input,
        &mut known,
    ) {
        Ok(pooled) => {
            known.refresh();
            match copy_all(alloc, &known) {
                Ok(shares) => Ok(Ran { pooled, shares }),
                Err(_) => Err(pooled.handles),
            }
        }
        Err(Unbegun { handles, source: _ }) => Err(handles),
    }
}

/// Ends the groups of a broker that is drained.
fn end<'g, B: Broker, N: HistoryName, R: Wait>(
    rt: &R,
    alloc: Global,
    drained: &Drained,
    shared_broker: SharedBroker<'g, B, N>,
    ports: Vec<Ports<B>>,
    caller: &mut DeskCaller<BrokerPlace<B>, N>,
) -> Result<Ended<'g, B::Seen>, NoMemory>
where
    B::Seen: LawfulWitness,
    requires { drained.now ≡ B.gate }
    ensures before { IsPrefix caller.old.calls caller.new.calls }
    ensures same { caller.new ≡ record caller.old { calls = caller.new.calls } }
    ensures once { caller.old.parts ≡ all_parts → IsEachOnce caller.old.own (length caller.new.calls) }
    ensures kept { IfOk result (λ ended. KeptItsPromisesBehind B.group caller.new.calls ports.items ended.answers.items ended.strangers.items) }
{
    match end_broker(rt, alloc, drained, shared_broker, ports, caller) {
        Ok(ended) => Ok(ended),
        Err(left) => {
            left.abandon();
            Err(NoMemory)
        }
    }
}
