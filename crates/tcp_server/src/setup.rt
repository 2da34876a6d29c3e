//! Where the workers of a broker wait.
ghost use Rattle.std.specs.Prelude.{◌≡◌, ◌⊎◌, length, IfOk, IfErr};
ghost use Rattle.text_io.specs.declared.error.RunError.TheVariants.{Memory, TooFewDescriptors};

use crate::client_stream::ClientStream;
use crate::drain::{Drain, DrainPart};
use crate::elapsed::Elapsed;
use crate::logging::{BrokerLog, LogPart};
use crate::metering::MetricsPart;
use crate::socket_poller::SocketPoller;
use broker_worker::UnusedPoller;
use metrics::SharedCounts;
use std::alloc::Global;
use std::net::Net;
use std::rt::Clock as SystemClock;
use std::time::Instant;
use tcp_edge::{Alarm, Reactor, ReactorError, Socket};
use text_io::RunError;
use worker_bells::share_of;

/// Where the workers of a broker wait, in the order of their numbers: each at a reactor with a clock, which its alarm wakes.
#[derive(Drop)]
pub(crate) struct SocketPollers<'a, R: SystemClock> {
    pub(crate) unused_pollers: Vec<UnusedPoller<Socket<ClientStream>, SocketPoller<'a, R>>>,
    pub(crate) alarms: Vec<Alarm>,
}

/// Those of so many workers, whose clocks begin now, and who drain together. Each puts what it counts into the place of its number, where there is one, and all say what they do to this log.
///
/// # Errors
///
/// [`RunError::TooFewDescriptors`], and [`RunError::Memory`] where an allocation fails, or the system refuses for another reason.
pub(crate) fn socket_pollers<'a, R: Net + SystemClock>(
    rt: &'a R,
    alloc: Global,
    count: usize,
    drain: &'a Drain,
    places: &'a [SharedCounts],
    log: &'a BrokerLog<'a>,
) -> Result<SocketPollers<'a, R>, RunError>
    ensures count { IfOk result (λ pollers. length pollers.unused_pollers.items ≡ count) }
    ensures cause { IfErr result (λ error. (error ≡ Memory) ⊎ (error ≡ TooFewDescriptors)) }
{
    let Ok(start) = Instant::now(rt) else {
        return Err(RunError::Memory);
    };
    let mut unused_pollers = Vec::with_capacity(alloc, count)?;
    let mut alarms = Vec::with_capacity(alloc, count)?;
    'reactors: for worker in 0..count {
        let (reactor, alarm) = match Reactor::open(rt, alloc) {
            Ok(opened) => opened,
            Err(ReactorError::TooFewDescriptors) => return Err(RunError::TooFewDescriptors),
            Err(_) => return Err(RunError::Memory),
        };
        let poller = SocketPoller::new(
            reactor,
            Elapsed::since(rt, start),
            DrainPart::of(drain),
            MetricsPart::of(places.get(worker)),
            LogPart::of(log, usize::from(share_of(count)).saturating_mul(worker)),
        );
        unused_pollers.push(UnusedPoller::new(poller))?;
        alarms.push(alarm)?;
    }
    Ok(SocketPollers {
        unused_pollers,
        alarms,
    })
}
