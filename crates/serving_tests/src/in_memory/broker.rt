//! A broker that is opened, and served to its end over connections in memory.
ghost use Rattle.std.specs.Prelude.{◌≡◌, ◌≤◌, ◌+◌, length};
ghost use Rattle.gate_word.specs.Seats.{AreSeatsOf};
ghost use Rattle.broker_groups.specs.Naming.{IsOfBroker};

use crate::in_memory::connections::{AlwaysReady, InMemory, Meeting, NothingToWatch, Silent};
use broker_groups::{Broker, BrokerName, BrokerPlace, Ended, Opened, Witnessed};
use broker_worker::UnusedPoller;
use call_history::HistoryName;
use conn_rules::{ClientLimits, MaxInflight};
use gate_word::{Gate, GateSeat};
use group_jobs::{Envelope, Report};
use group_queue::Nobody;
use limits::DEFAULT_SESSIONS;
use scripted_transport::Scripted;
use session_desk::Newcomers;
use shared_desk::OpenedDesk;
use shared_routes::NewShares;
use std::alloc::{AllocError, Global};
use std::marker::Brand;
use std::rt::Clock;
use std::sync::Wait;
use std::thread::Threads;
use threaded_broker::{Closers, OpenBroker, Outcome, serve};
use transport::Source;
use worker_pool::{Closer, Network, PoolSetup};

/// How many messages each group has room for.
const CAPACITY: usize = 1_024;

/// How many groups gave a report, and by all of these how many messages sessions held, how many waited in a queue, and how many were discarded.
#[derive(Clone, Copy, Debug, PartialEq, Eq)]
pub(crate) struct Reports {
    pub(crate) groups: usize,
    pub(crate) held: usize,
    pub(crate) queued: usize,
    pub(crate) discarded: u128,
}

impl Reports {
    /// Those of no group.
    const NONE: Reports = Reports {
        groups: 0,
        held: 0,
        queued: 0,
        discarded: 0,
    };

    /// A report more.
    fn count(&mut self, report: &Report) {
        self.groups = self.groups.saturating_add(1);
        self.held = self.held.saturating_add(report.held.len());
        self.queued = self.queued.saturating_add(report.queued.len());
        self.discarded = self
            .discarded
            .saturating_add(report.settled.discarded.len());
    }
}

/// What came of a broker: how many connections came, how many ended with 0 and how many in any way, and what its groups reported.
#[derive(Clone, Copy, Debug, PartialEq, Eq)]
pub(crate) struct Told {
    pub(crate) came: u64,
    pub(crate) ended: u64,
    pub(crate) counted: u64,
    pub(crate) reports: Reports,
}

/// Lets go of a message.
fn discard(envelope: Envelope) {
    let _parts = envelope.open();
}

/// What groups reported.
fn count_reports(ended: Ended<'_>) -> Reports {
    let Ended {
        mut answers,
        mut strangers,
    } = ended;
    let mut reports = Reports::NONE;
    'answers: while let Some(answer) = answers.pop() {
        match answer {
            Ok(report) => reports.count(&report),
            Err(unfinished) => {
                unfinished.abandon();
            }
        }
    }
    answers.destroy_empty();
    'strangers: while let Some(envelope) = strangers.pop() {
        discard(envelope);
    }
    strangers.destroy_empty();
    reports
}

/// What came of a broker that was served to its end.
fn told_of<B: Broker<Seen = Nobody>, N: HistoryName, W: Network>(
    outcome: Outcome<'_, B, N, W>,
) -> Told {
    let Outcome {
        ended,
        shares: _,
        served,
        taken,
        pollers: _,
        caller: _,
        drained: _,
    } = outcome;
    let mut well = 0u64;
    let mut counted = 0u64;
    for of_one in served.as_slice() {
        well = well.saturating_add(of_one.ended);
        counted = counted
            .saturating_add(of_one.ended)
            .saturating_add(of_one.read)
            .saturating_add(of_one.write)
            .saturating_add(of_one.memory)
            .saturating_add(of_one.no_crossing)
            .saturating_add(of_one.stalled);
    }
    Told {
        came: taken.came,
        ended: well,
        counted,
        reports: count_reports(ended),
    }
}

/// Where each of so many workers waits, and its alarm.
fn unused_pollers_for<'a, R: Clock>(
    alloc: Global,
    workers: usize,
    meeting: &'a Meeting<'a, R>,
) -> Result<(Vec<UnusedPoller<Scripted, AlwaysReady<'a, R>>>, Vec<Silent>), AllocError> {
    let mut unused_pollers = Vec::with_capacity(alloc, workers)?;
    let mut alarms = Vec::with_capacity(alloc, workers)?;
    for _ in 0..workers {
        unused_pollers.push(UnusedPoller::new(AlwaysReady::new(alloc, meeting)?))?;
        alarms.push(Silent)?;
    }
    Ok((unused_pollers, alarms))
}

/// Serves what comes from a source with all workers of a broker, who meet before each write.
fn attend<
    B: Broker<Seen = Nobody> + Send + Sync,
    N: HistoryName + Send + Sync,
    S: Source<Scripted> + Drop + Send,
    R: Threads + Wait + Clock + Sync,
>(
    rt: &R,
    alloc: Global,
    broker: OpenBroker<'_, B, N>,
    workers: u8,
    source: S,
    closers: Closers<'_, B>,
) -> Option<Told>
    requires { broker.workers ≡ workers }
{
    let count = usize::from(workers);
    let meeting = Meeting::new(rt, workers);
    let Ok((unused_pollers, alarms)) = unused_pollers_for(alloc, count, &meeting) else {
        broker.abandon();
        return None;
    };
    if unused_pollers.len() != count {
        broker.abandon();
        return None;
    }
    let setup = PoolSetup::<InMemory<'_, S, R>> {
        source,
        unused_pollers,
        alarms,
        limits: ClientLimits::inflight_alone(MaxInflight::most()),
    };
    let served = serve(
        rt,
        alloc,
        broker,
        &[],
        setup,
        closers,
        &mut NothingToWatch,
        &mut (),
    );
    Some(told_of(served.ok()?))
}

/// Opens the desk, and serves.
fn live<
    M: BrokerName + Send + Sync,
    S: Source<Scripted> + Drop + Send,
    R: Threads + Wait + Clock + Sync,
>(
    rt: &R,
    alloc: Global,
    gate: &Gate,
    seats: Vec<GateSeat>,
    opened: Opened<'_>,
    workers: u8,
    source: S,
) -> Option<Told>
    requires gate { gate.now ≡ M.gate }
    requires workers { (1 ≤ workers) × (workers ≤ 64) }
    requires seats { AreSeatsOf gate.now seats.items × (length seats.items ≡ workers + 2) }
    requires opened { IsOfBroker M.gate M.group workers opened }
{
    match OpenedDesk::open(alloc, Newcomers::Displace(DEFAULT_SESSIONS)) {
        Ok(desk) => live_with::<Witnessed<M, Nobody>, Brand, S, R>(
            rt, alloc, gate, seats, opened, desk, workers, source,
        ),
        Err(_) => {
            opened.abandon();
            None
        }
    }
}

/// The same, with a desk that is named by what it is.
fn live_with<
    B: Broker<Seen = Nobody> + Send + Sync,
    N: HistoryName + Send + Sync,
    S: Source<Scripted> + Drop + Send,
    R: Threads + Wait + Clock + Sync,
>(
    rt: &R,
    alloc: Global,
    gate: &Gate,
    seats: Vec<GateSeat>,
    opened: Opened<'_>,
    desk: OpenedDesk<BrokerPlace<B>>,
    workers: u8,
    source: S,
) -> Option<Told>
    requires gate { gate.now ≡ B.gate }
    requires workers { (1 ≤ workers) × (workers ≤ 64) }
    requires seats { AreSeatsOf gate.now seats.items × (length seats.items ≡ workers + 2) }
    requires opened { IsOfBroker B.gate B.group workers opened }
    requires desk { desk ≡ N.history }
{
    let mut seats = seats;
    let Ok(broker) = OpenBroker::<B, N>::open(
        rt,
        alloc,
        gate,
        &mut seats,
        opened,
        desk,
        NewShares::Bound,
        workers,
    ) else {
        return None;
    };
    let closers = Closers {
        accepting: Closer::take(gate, &mut seats),
        ending: Closer::take(gate, &mut seats),
    };
    attend(rt, alloc, broker, workers, source, closers)
}

/// Opens a broker of so many workers, and serves what comes from a source until that has ended. `None` where an allocation fails.
pub(crate) fn serve_all<S: Source<Scripted> + Drop + Send, R: Threads + Wait + Clock + Sync>(
    rt: &R,
    alloc: Global,
    workers: u8,
    source: S,
) -> Option<Told>
    requires { (1 ≤ workers) × (workers ≤ 64) }
{
    let (gate, seats) = Gate::open(alloc, usize::from(workers) + 2).ok()?;
    let opened = Opened::open(alloc, &gate, CAPACITY, workers).ok()?;
    live::<Brand, S, R>(rt, alloc, &gate, seats, opened, workers, source)
}
