//! Workers of a broker in threads of their own.
ghost use Rattle.std.specs.Prelude.{◌≡◌, ◌≤◌};
ghost use Rattle.gate_word.specs.Seats.{AreSeatsOf};
ghost use Rattle.broker_groups.specs.Naming.{IsOfBroker};

use crate::broker::ending::{Counts, end};
use crate::broker::opening::{Built, WorkerHandle, build};
use crate::broker::seen::Seen;
use crate::broker::worker::{keep, ports_of, supply_of};
use broker_groups::{Broker, BrokerName, BrokerPlace, Opened, Ports, Witnessed};
use call_history::HistoryName;
use conn_supply::Supply;
use gate_word::{Gate, GateSeat};
use group_queue::Nobody;
use limits::DEFAULT_SESSIONS;
use session_desk::Newcomers;
use shared_desk::OpenedDesk;
use shared_supply::SharedBroker;
use std::alloc::Global;
use std::marker::Brand;
use std::sync::Wait;
use std::thread;
use std::thread::Threads;

/// What each worker does.
pub(crate) trait Crew {
    /// Does it over the worker's supply, and tells what the worker's clients saw; nothing where an allocation failed. Workers are numbered from 0 on.
    fn work<B: Broker, S: Supply<BrokerPlace<B>>>(
        &self,
        alloc: Global,
        supply: &mut S,
        number: u8,
    ) -> Option<Seen>;
}

/// A worker that is to work.
#[derive(Drop)]
struct Job<B: Broker, N: HistoryName> {
    number: u8,
    handle: WorkerHandle<B, N>,
}

/// What became of all workers.
#[derive(Drop)]
pub(crate) struct Worked {
    /// What their clients saw, if there was memory for that.
    pub(crate) seen: Option<Seen>,
    /// What the groups' reports count, the last group first.
    pub(crate) counts: Vec<Counts>,
}

/// What all workers give back: their ports, and what their clients saw.
#[derive(Drop)]
struct Back<B: Broker> {
    seen: Option<Seen>,
    ports: Vec<Ports<B>>,
}

/// What a worker gives back.
#[derive(Drop)]
struct OneBack<B: Broker> {
    seen: Option<Seen>,
    ports: Ports<B>,
}

/// A worker works.
fn work<B: Broker, N: HistoryName, C: Crew, R: Wait>(
    rt: &R,
    alloc: Global,
    shared_broker: &SharedBroker<'_, B, N>,
    crew: &C,
    job: Job<B, N>,
) -> OneBack<B> {
    let Job { number, handle } = job;
    match supply_of(rt, alloc, shared_broker, handle) {
        Ok(supply) => {
            let mut supply = supply;
            let seen = crew.work(alloc, &mut supply, number);
            OneBack {
                seen,
                ports: ports_of(supply),
            }
        }
        Err(ports) => OneBack { seen: None, ports },
    }
}

/// The workers that are to work.
fn jobs_of<B: Broker, N: HistoryName>(
    alloc: Global,
    handles: Vec<WorkerHandle<B, N>>,
) -> Vec<Job<B, N>> {
    let mut jobs = Vec::new(alloc);
    let mut number = 0u8;
    for handle in handles {
        if let Err(refused) = jobs.push(Job { number, handle }) {
            drop(refused);
        }
        number = number.wrapping_add(1);
    }
    jobs
}

/// What all workers give back together.
fn together<B: Broker>(alloc: Global, backs: Vec<OneBack<B>>) -> Back<B> {
    let mut all = Vec::new(alloc);
    let mut sum = Some(Seen::NOTHING);
    for back in backs {
        let OneBack { seen, ports } = back;
        keep(&mut all, ports);
        sum = match (sum, seen) {
            (Some(one), Some(other)) => Some(one.with(other)),
            _ => None,
        };
    }
    Back {
        seen: sum,
        ports: all,
    }
}

/// All workers work, each in a thread of its own; where an allocation fails for the threads, no ports come back.
fn work_all<
    B: Broker<Seen = Nobody> + Send + Sync,
    N: HistoryName + Send + Sync,
    C: Crew + Sync,
    R: Threads + Wait + Sync,
>(
    rt: &R,
    alloc: Global,
    shared_broker: &SharedBroker<'_, B, N>,
    handles: Vec<WorkerHandle<B, N>>,
    crew: &C,
) -> Back<B> {
    match thread::map_vec(
        rt,
        jobs_of(alloc, handles),
        &|job| { work(rt, alloc, shared_broker, crew, job) },
    ) {
        Ok(backs) => together(alloc, backs),
        Err(_) => Back {
            seen: None,
            ports: Vec::new(alloc),
        },
    }
}

/// All workers of a broker work, and it ends; where an allocation failed for that, nothing is told.
fn live<M: BrokerName + Send + Sync, C: Crew + Sync, R: Threads + Wait + Sync>(
    rt: &R,
    alloc: Global,
    gate: &Gate,
    seats: Vec<GateSeat>,
    opened: Opened<'_>,
    workers: u8,
    crew: &C,
) -> Option<Worked>
    requires gate { gate.now ≡ M.gate }
    requires seats { AreSeatsOf gate.now seats.items }
    requires opened { IsOfBroker M.gate M.group workers opened }
    requires workers { workers ≤ 63 }
{
    match OpenedDesk::open(alloc, Newcomers::Displace(DEFAULT_SESSIONS)) {
        Ok(desk) => live_with::<Witnessed<M, Nobody>, Brand, C, R>(
            rt, alloc, gate, seats, opened, desk, workers, crew,
        ),
        Err(_) => {
            opened.abandon();
            None
        }
    }
}

/// The same, with a desk that is named by what it is.
fn live_with<
    B: Broker<Seen = Nobody> + Send + Sync,
    N: HistoryName + Send + Sync,
    C: Crew + Sync,
    R: Threads + Wait + Sync,
>(
    rt: &R,
    alloc: Global,
    gate: &Gate,
    seats: Vec<GateSeat>,
    opened: Opened<'_>,
    desk: OpenedDesk<BrokerPlace<B>>,
    workers: u8,
    crew: &C,
) -> Option<Worked>
    requires gate { gate.now ≡ B.gate }
    requires seats { AreSeatsOf gate.now seats.items }
    requires opened { IsOfBroker B.gate B.group workers opened }
    requires workers { workers ≤ 63 }
    requires desk { desk ≡ N.history }
{
    let Built {
        shared_broker,
        handles,
        spare: _,
        mut caller,
    } = build::<B, N, R>(rt, alloc, gate, seats, opened, desk, workers)?;
    let Back { seen, ports } = work_all(rt, alloc, &shared_broker, handles, crew);
    match end(rt, alloc, shared_broker, ports, &mut caller) {
        Some(counts) => Some(Worked { seen, counts }),
        None => None,
    }
}

/// The same, of groups that are opened and named by what they are.
fn open_groups<C: Crew + Sync, R: Threads + Wait + Sync>(
    rt: &R,
    alloc: Global,
    gate: &Gate,
    seats: Vec<GateSeat>,
    capacity: usize,
    workers: u8,
    crew: &C,
) -> Option<Worked>
    requires seats { AreSeatsOf gate.now seats.items }
    requires capacity { (1 ≤ capacity) × (capacity ≤ 65536) }
    requires workers { (1 ≤ workers) × (workers ≤ 63) }
{
    match Opened::open(alloc, gate, capacity, workers) {
        Ok(opened) => live::<Brand, C, R>(rt, alloc, gate, seats, opened, workers, crew),
        Err(_) => None,
    }
}

/// So many workers of a broker, in each of whose groups so many messages may wait, work, each in a thread of its own, and the broker ends.
pub(crate) fn work_together<C: Crew + Sync, R: Threads + Wait + Sync>(
    rt: &R,
    alloc: Global,
    capacity: usize,
    workers: u8,
    crew: &C,
) -> Option<Worked>
    requires capacity { (1 ≤ capacity) × (capacity ≤ 65536) }
    requires workers { (1 ≤ workers) × (workers ≤ 63) }
{
    match Gate::open(alloc, usize::from(workers) + 1) {
        Ok((gate, seats)) => open_groups(rt, alloc, &gate, seats, capacity, workers, crew),
        Err(_) => None,
    }
}
