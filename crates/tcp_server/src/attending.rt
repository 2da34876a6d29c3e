//! Serving the connections of a broker that is open, to its reports.
ghost use Rattle.std.specs.Prelude.{◌≡◌, length, Ok, IfOk, IfErr};
ghost use Rattle.std.specs.Io.KnownBytes.{IsAtEnd};
ghost use Rattle.text_io.specs.declared.error.RunError.TheVariants.{Memory};
ghost use Rattle.tcp_server.specs.Reporting.{AreReportsAt, HaveCapacity};

use crate::beside::{BesideMetrics, Metrics};
use crate::drain::Drain;
use crate::lobby::Lobby;
use crate::network::TcpNetwork;
use crate::outcome::{Reported, report_outcome};
use crate::serving::ServingEnd;
use crate::setup::SocketPollers;
use crate::watching::{DrainSettings, Watching};
use broker_groups::Broker;
use broker_log::{Level, Log};
use call_history::HistoryName;
use conn_rules::ClientLimits;
use group_queue::Nobody;
use mqtt_topic::Routes;
use std::alloc::Global;
use std::io::Read;
use std::marker::PhantomData;
use std::net::Net;
use std::rt::Clock as SystemClock;
use std::sync::Wait;
use std::sync::atomic::AtomicBool;
use std::thread::Threads;
use tcp_edge::Until;
use text_io::RunError;
use threaded_broker::{Closers, OpenBroker, serve};
use worker_pool::{Closer, PoolSetup};

/// Serves the connections of a lobby until the input ends, drains, sets this flag, and ends the broker. Meanwhile metrics are told, where there are any. What has lifetimes of its own
/// comes here one by one, and is put together here.
///
/// # Errors
///
/// [`RunError::Memory`]: nothing is written of it.
pub(crate) fn attend<
    'x,
    B: Broker<Seen = Nobody> + Send + Sync,
    N: HistoryName + Send + Sync,
    R: Threads + Wait + Net + SystemClock + Sync,
    I: Read + Send,
>(
    rt: &'x R,
    alloc: Global,
    broker: OpenBroker<'_, B, N>,
    groups: &Routes,
    limits: ClientLimits,
    pollers: SocketPollers<'x, R>,
    lobby: Lobby<'x, R>,
    metrics: Option<Metrics<'x, R>>,
    draining: DrainSettings,
    ends: &'x AtomicBool,
    drain: &'x Drain,
    log: &'x Log,
    closers: Closers<'_, B>,
    stopper: Closer<'_, B>,
    input: &mut I,
) -> Result<Reported, RunError>
    requires capacity { HaveCapacity B.group (B.group 0).capacity }
    requires pollers { length pollers.unused_pollers.items ≡ broker.workers }
    ensures reported { IfOk result (λ reported. AreReportsAt reported.end (B.group 0).capacity broker.entry.workers limits groups.now reported.text.items) }
    ensures read { IfOk result (λ reported. reported.end ≡ Ok ServingEnd.Ended → IsAtEnd (I.remaining input.new)) }
    ensures cause { IfErr result (λ error. error ≡ Memory) }
{
    let mut watching = Watching {
        rt,
        stopper,
        ends,
        drain,
        settings: draining,
        alloc,
        log,
        is_read: false,
        input: PhantomData,
    };
    let SocketPollers {
        unused_pollers,
        alarms,
    } = pollers;
    let setup = PoolSetup::<TcpNetwork<'x, R>> {
        source: Until::new(BesideMetrics { lobby, metrics }, ends),
        unused_pollers,
        alarms,
        limits,
    };
    let Ok(outcome) = serve(
        rt,
        alloc,
        broker,
        groups.shares(),
        setup,
        closers,
        &mut watching,
        input,
    ) else {
        return Err(RunError::Memory);
    };
    let reported = report_outcome(alloc, outcome, watching.is_read)?;
    say_end(log, alloc, &reported.end);
    Ok(reported)
}

/// Says what went wrong as a broker came to its end, if something did.
fn say_end(log: &Log, alloc: Global, end: &Result<ServingEnd, RunError>) {
    let text = match end {
        Ok(ServingEnd::Ended) | Ok(ServingEnd::InputFailed) => return,
        Ok(ServingEnd::NotAccepted) => "the listener failed",
        Err(RunError::Memory) => "there is no memory for the report of a group",
        Err(_) => "what became of the jobs of a group is not known",
    };
    log.say(Level::Error, String::from_str(alloc, text));
}
