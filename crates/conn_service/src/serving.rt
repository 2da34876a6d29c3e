//! One connection, from its opening to its end, over a transport whose calls wait.
ghost use Rattle.std.specs.Prelude.{◌≡◌, ◌<◌, None};
ghost use Rattle.limits.specs.Limits.{most_connections};
ghost use Rattle.transport.specs.Counting.{no_counts};
ghost use Rattle.conn_service.specs.Crossings.{RefusesAlways};
ghost use Rattle.conn_service.specs.declared.served.Served.TheVariants as endings;
ghost use Rattle.conn_service.specs.Endings.{EndsAs, IsServedToItsEnd};

use crate::served::{Direction, Round, Served};
use crate::service::Service;
use conn_engine::Opening;
use conn_rules::ClientLimits;
use conn_supply::{HoldingPlace, Supply};
use std::alloc::Global;
use std::sync::Wait;
use transport::{Clock, Crossing, Transport};

/// How many bytes a read gives at most.
const READ_SIZE: usize = 4_096;

/// Serves one connection of this number, below 1,024, with these limits, from its opening to its end, and hands its transport back: rounds, one after the other, at the
/// moments that the clock tells. A call of the transport that gives nothing is to have waited for a while; after a round that ends with 600 writes
/// in a row that gave nothing, or with more, the connection is given up.
///
/// It returns only once the connection has ended. A lack of memory at the very start is [`Served::Memory`] too: nothing was asked of the transport then.
pub fn serve<P: HoldingPlace, T: Transport, S: Supply<P>, X: Crossing, C: Clock, R: Wait>(
    rt: &R,
    alloc: Global,
    number: u16,
    limits: ClientLimits,
    transport: T,
    supply: &mut S,
    crossing: &X,
    worker: u32,
    clock: &mut C,
) -> (Served, T)
    requires number { number < most_connections }
    requires new { T.counts transport ≡ no_counts }
    ensures served { IsServedToItsEnd S.call S.begins S.ends S.visiting P.slot_of T.counts T.given T.accepted number limits transport supply.old result.0 result.1 supply.new }
    ensures crossing { result.0 ≡ endings.NoCrossing → RefusesAlways X.refuses crossing.now worker }
{
    let opening = Opening {
        at: clock.now(),
        limits,
    };
    let service = match Service::open(alloc, number, opening, transport) {
        Ok(service) => service,
        Err(transport) => return (Served::Memory, transport),
    };
    serve_on(rt, service, supply, crossing, worker, clock)
}

/// Serves a connection that was opened, to its end.
fn serve_on<P: HoldingPlace, T: Transport, S: Supply<P>, X: Crossing, C: Clock, R: Wait>(
    rt: &R,
    mut service: Service<P, T>,
    supply: &mut S,
    crossing: &X,
    worker: u32,
    clock: &mut C,
) -> (Served, T)
    requires going { service.ending ≡ None }
    ensures served { EndsAs S.call S.begins S.ends S.visiting P.slot_of T.counts T.given T.accepted service supply.old result.0 result.1 supply.new }
    ensures crossing { result.0 ≡ endings.NoCrossing → RefusesAlways X.refuses crossing.now worker }
{
    let mut buffer = [0; READ_SIZE];
    'rounds: for _ in rt.forever() {
        let now = clock.now();
        match service.round(supply, crossing, worker, now, &mut buffer, Direction::Both) {
            Round::Ended(served) => return (served, service.end()),
            Round::Writing => {
                if service.is_refused() {
                    service.stall(supply, now);
                    return (Served::Stalled, service.end());
                }
            }
            Round::More => {}
            Round::Reading => {}
            Round::Waiting => {}
        }
    }
    unreachable!()
}
