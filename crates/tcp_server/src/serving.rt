//! Serving, from the listener to the last line.
ghost use Rattle.std.specs.Prelude.{◌≡◌, ◌+◌, ◌≤◌, List, length, Ok, Result, IfOk, IfErr};
ghost use Rattle.std.specs.Io.KnownBytes.{Appends, IsAtEnd};
ghost use Rattle.limits.specs.Limits.{most_ports, most_waiting};
ghost use Rattle.group_jobs.specs.declared.report.Report.{Report};
ghost use Rattle.group_queue.specs.declared.error.FinishError.{FinishError};
ghost use Rattle.tcp_server.specs.Lines.{EndsBy};
ghost use Rattle.tcp_server.specs.Reporting.{AreReportsAt, HaveCapacity};
ghost use Rattle.tcp_server.specs.Serving.{EndsUnreported, IsServed, IsServedAt, listening_line};
ghost use Rattle.gate_word.specs.Seats.{AreSeatsOf};
ghost use Rattle.broker_groups.specs.Naming.{IsOfBroker};

use crate::addresses::Addresses;
use crate::attending::attend;
use crate::beside::Metrics;
use crate::drain::Drain;
use crate::listeners::{ListenAt, Listeners, fault_of, metrics_fault_of};
use crate::lobby::Lobby;
use crate::logging::BrokerLog;
use crate::outcome::Reported;
use crate::settings::ServeSettings;
use crate::setup::socket_pollers;
use crate::watching::DrainSettings;
use broker_groups::{Broker, BrokerName, BrokerPlace, Opened, Witnessed};
use broker_log::Log;
use call_history::HistoryName;
use gate_word::{Gate, GateSeat};
use group_queue::Nobody;
use metrics::{MetricsServer, MetricsService, OpenError, TurnedAway, shared_counts};
use mqtt_topic::Routes;
use shared_desk::OpenedDesk;
use std::alloc::Global;
use std::io::{Read, Write};
use std::marker::Brand;
use std::net::Net;
use std::rt::Clock as SystemClock;
use std::sync::Wait;
use std::sync::atomic::AtomicBool;
use std::thread::Threads;
use tcp_edge::{ReactorError, TcpSource};
use text_io::{DeviceFault, RunError, write_all};
use threaded_broker::{Closers, OpenBroker};
use worker_pool::Closer;

/// How a broker that was served came to its end.
#[derive(Clone, Copy, Debug, PartialEq, Eq)]
pub enum ServingEnd {
    /// Its input ended.
    Ended,
    /// Its input failed, which counts as its end.
    InputFailed,
    /// Connections were not accepted any more.
    NotAccepted,
}

/// Serves a broker at an address and port of this machine by these settings, with these groups from the start. Writes `listening PORT` on a
/// line, serves until the input has ended, drains, where its settings say so, closes, says to the log what it does meanwhile, and writes the lines of the reports of the groups whose shares are bound, in the order of their slots.
///
/// # Errors
///
/// [`RunError::Network`]: the address was not listened at, or not at the port of the metrics, and nothing was written; or connections were not accepted any more: then the broker closed at once,
/// and all was written. [`RunError::ReadFailed`]: the input failed, and all was written. [`RunError::WriteFailed`]: a beginning was written.
/// [`RunError::Unfinished`]: the end of a group was refused; [`RunError::Memory`]: there was no memory for the report of a group: then the lines of the
/// others were written. [`RunError::Memory`]: an allocation failed before that, and at most the first line was written. [`RunError::TooFewDescriptors`]: the workers got no place to
/// wait at, and nothing was written.
pub fn serve_at<R: Threads + Wait + Net + SystemClock + Sync, I: Read + Send, O: Write>(
    rt: &R,
    alloc: Global,
    settings: ServeSettings,
    groups: &Routes,
    at: ListenAt,
    log: &Log,
    input: &mut I,
    output: &mut O,
) -> Result<(), RunError>
    requires capacity { (1 ≤ settings.capacity) × (settings.capacity ≤ most_waiting) }
    requires workers { (1 ≤ settings.workers) × (settings.workers ≤ most_ports) }
    ensures written { IsServedAt at.port settings.capacity settings.workers settings.limits groups.now result (O.contents output.old) (O.contents output.new) }
    ensures read { IfOk result (λ _. IsAtEnd (I.remaining input.new)) }
{
    let source = match TcpSource::open(rt, at.address, at.port) {
        Ok(source) => source,
        Err(error) => return Err(RunError::Network(fault_of(error))),
    };
    let metrics = match at.open_metrics(rt, alloc) {
        Ok(metrics) => metrics,
        Err(OpenError::Memory) => return Err(RunError::Memory),
        Err(OpenError::NotListening(error)) => {
            return Err(RunError::Network(metrics_fault_of(error)));
        }
    };
    let listeners = Listeners { source, metrics };
    serve_with(rt, alloc, settings, groups, listeners, log, input, output)
}

/// Serves a broker over listeners that are open, as [`serve_at`].
pub fn serve_with<R: Threads + Wait + Net + SystemClock + Sync, I: Read + Send, O: Write>(
    rt: &R,
    alloc: Global,
    settings: ServeSettings,
    groups: &Routes,
    listeners: Listeners,
    log: &Log,
    input: &mut I,
    output: &mut O,
) -> Result<(), RunError>
    requires capacity { (1 ≤ settings.capacity) × (settings.capacity ≤ most_waiting) }
    requires workers { (1 ≤ settings.workers) × (settings.workers ≤ most_ports) }
    ensures written { IsServed (listening_line listeners.source.port) settings.capacity settings.workers settings.limits groups.now result (O.contents output.old) (O.contents output.new) }
    ensures read { IfOk result (λ _. IsAtEnd (I.remaining input.new)) }
{
    let Listeners { source, metrics } = listeners;
    let port = source.port();
    let addresses = addresses_of(alloc, settings.per_address);
    let lobby = match Lobby::open(rt, alloc, source, addresses, log) {
        Ok(lobby) => lobby,
        Err(ReactorError::Memory) => return Err(RunError::Memory),
        Err(ReactorError::TooFewDescriptors) => {
            return Err(RunError::Network(DeviceFault::TooFewDescriptors));
        }
        Err(_) => return Err(RunError::Network(DeviceFault::Other)),
    };
    let Ok((gate, seats)) = Gate::open(alloc, usize::from(settings.workers) + 3) else {
        return Err(RunError::Memory);
    };
    let Ok(opened) = Opened::open(alloc, &gate, settings.capacity, settings.workers) else {
        return Err(RunError::Memory);
    };
    let line = format!(in alloc; "listening {port}\n");
    let reported = match line {
        Ok(line) => {
            let serving = Serving {
                settings,
                groups,
                log,
            };
            let gated = Gated {
                gate: &gate,
                seats,
                opened,
            };
            let listening = Listening {
                lobby,
                metrics,
                line: line.as_bytes(),
            };
            live::<Brand, R, I, O>(rt, alloc, serving, gated, listening, input, output)?
        }
        Err(_) => {
            opened.abandon();
            return Err(RunError::Memory);
        }
    };
    let Reported { text, end } = reported;
    match write_all(output, &text) {
        Ok(()) => answer_of(end),
        Err(error) => Err(error),
    }
}

/// The addresses of connections, where those of each are bounded: 0 is no bound.
fn addresses_of(alloc: Global, per_address: u32) -> Option<Addresses> {
    match per_address {
        0 => None,
        most => Some(Addresses::new(alloc, most as usize)),
    }
}

/// What is answered of a broker that came to its end so.
fn answer_of(end: Result<ServingEnd, RunError>) -> Result<(), RunError>
    ensures ends { (reports : List (Result Report FinishError)) → EndsBy end reports → EndsBy result reports }
    ensures read { IfOk result (λ _. end ≡ Ok ServingEnd.Ended) }
{
    match end {
        Ok(ServingEnd::Ended) => Ok(()),
        Ok(ServingEnd::InputFailed) => Err(RunError::ReadFailed),
        Ok(ServingEnd::NotAccepted) => Err(RunError::Network(DeviceFault::Other)),
        Err(error) => Err(error),
    }
}

/// What is served, and how: the settings, the groups from the start, and the log.
#[derive(Drop)]
struct Serving<'x> {
    settings: ServeSettings,
    groups: &'x Routes,
    log: &'x Log,
}

/// Where a broker listens, and the line by which it says so.
#[derive(Drop)]
struct Listening<'x, R> {
    lobby: Lobby<'x, R>,
    metrics: Option<MetricsServer>,
    line: &'x [u8],
}

/// The groups of a broker behind its gate, and the gate's seats.
struct Gated<'g> {
    gate: &'g Gate,
    seats: Vec<GateSeat>,
    opened: Opened<'g>,
}

/// Opens the desk of a broker, serves, and ends it.
fn live<
    M: BrokerName + Send + Sync,
    R: Threads + Wait + Net + SystemClock + Sync,
    I: Read + Send,
    O: Write,
>(
    rt: &R,
    alloc: Global,
    serving: Serving<'_>,
    gated: Gated<'_>,
    listening: Listening<'_, R>,
    input: &mut I,
    output: &mut O,
) -> Result<Reported, RunError>
    requires gate { gated.gate.now ≡ M.gate }
    requires workers { (1 ≤ serving.settings.workers) × (serving.settings.workers ≤ most_ports) }
    requires seats { AreSeatsOf gated.gate.now gated.seats.items × (length gated.seats.items ≡ serving.settings.workers + 3) }
    requires opened { IsOfBroker M.gate M.group serving.settings.workers gated.opened }
    requires capacity { HaveCapacity M.group (M.group 0).capacity }
    ensures reported { IfOk result (λ reported. AreReportsAt reported.end (M.group 0).capacity serving.entry.settings.workers serving.entry.settings.limits serving.entry.groups.now reported.text.items) }
    ensures written { IfOk result (λ reported. Appends (O.contents output.old) (O.contents output.new) listening.entry.line.now) }
    ensures read { IfOk result (λ reported. reported.end ≡ Ok ServingEnd.Ended → IsAtEnd (I.remaining input.new)) }
    ensures failed { IfErr result (λ error. EndsUnreported listening.entry.line.now error (O.contents output.old) (O.contents output.new)) }
{
    match OpenedDesk::open(alloc, serving.settings.newcomers) {
        Ok(desk) => live_with::<Witnessed<M, Nobody>, Brand, R, I, O>(
            rt, alloc, serving, gated, desk, listening, input, output,
        ),
        Err(_) => {
            let Gated {
                gate: _,
                seats,
                opened,
            } = gated;
            drop(seats);
            opened.abandon();
            Err(RunError::Memory)
        }
    }
}

/// Names a broker's groups and its desk, serves, and ends it, as [`live`].
fn live_with<
    'x,
    B: Broker<Seen = Nobody> + Send + Sync,
    N: HistoryName + Send + Sync,
    R: Threads + Wait + Net + SystemClock + Sync,
    I: Read + Send,
    O: Write,
>(
    rt: &'x R,
    alloc: Global,
    serving: Serving<'x>,
    gated: Gated<'x>,
    desk: OpenedDesk<BrokerPlace<B>>,
    listening: Listening<'x, R>,
    input: &mut I,
    output: &mut O,
) -> Result<Reported, RunError>
    requires gate { gated.gate.now ≡ B.gate }
    requires desk { desk ≡ N.history }
    requires workers { (1 ≤ serving.settings.workers) × (serving.settings.workers ≤ most_ports) }
    requires seats { AreSeatsOf gated.gate.now gated.seats.items × (length gated.seats.items ≡ serving.settings.workers + 3) }
    requires opened { IsOfBroker B.gate B.group serving.settings.workers gated.opened }
    requires capacity { HaveCapacity B.group (B.group 0).capacity }
    ensures reported { IfOk result (λ reported. AreReportsAt reported.end (B.group 0).capacity serving.entry.settings.workers serving.entry.settings.limits serving.entry.groups.now reported.text.items) }
    ensures written { IfOk result (λ reported. Appends (O.contents output.old) (O.contents output.new) listening.entry.line.now) }
    ensures read { IfOk result (λ reported. reported.end ≡ Ok ServingEnd.Ended → IsAtEnd (I.remaining input.new)) }
    ensures failed { IfErr result (λ error. EndsUnreported listening.entry.line.now error (O.contents output.old) (O.contents output.new)) }
{
    let Serving {
        settings,
        groups,
        log,
    } = serving;
    let Gated {
        gate,
        mut seats,
        opened,
    } = gated;
    let Listening {
        lobby,
        metrics,
        line,
    } = listening;
    let Ok(broker) = OpenBroker::<B, N>::open(
        rt,
        alloc,
        gate,
        &mut seats,
        opened,
        desk,
        settings.new_shares,
        settings.workers,
    ) else {
        return Err(RunError::Memory);
    };
    let closers = Closers {
        accepting: Closer::take(gate, &mut seats),
        ending: Closer::take(gate, &mut seats),
    };
    let ends = AtomicBool::new(false);
    let drain = Drain::new();
    let stopper = Closer::take(gate, &mut seats);
    let draining = DrainSettings {
        workers: settings.workers,
        seconds: settings.drain,
    };
    let count = usize::from(settings.workers);
    let told = if metrics.is_some() { count } else { 0 };
    let Ok(places) = shared_counts(alloc, told) else {
        broker.abandon();
        return Err(RunError::Memory);
    };
    let broker_log = BrokerLog::of(log, alloc);
    tell_shares(&broker_log, groups);
    let pollers = match socket_pollers(rt, alloc, count, &drain, &places, &broker_log) {
        Ok(pollers) => pollers,
        Err(error) => {
            broker.abandon();
            return Err(error);
        }
    };
    let metrics = match metrics {
        Some(server) => Some(Metrics {
            server,
            service: MetricsService {
                rt,
                alloc,
                workers: &places,
                shares: groups.shares(),
                capacity: settings.capacity as u64,
                turned_away: TurnedAway::NONE,
            },
        }),
        None => None,
    };
    match write_all(output, line) {
        Ok(()) => attend(
            rt,
            alloc,
            broker,
            groups,
            settings.limits,
            pollers,
            lobby,
            metrics,
            draining,
            &ends,
            &drain,
            log,
            closers,
            stopper,
            input,
        ),
        Err(error) => {
            broker.abandon();
            Err(error)
        }
    }
}

/// Says which shares are bound from the start.
fn tell_shares(log: &BrokerLog<'_>, groups: &Routes) {
    for (slot, share) in groups.shares().iter().enumerate() {
        log.bound(slot, share.text());
    }
}
