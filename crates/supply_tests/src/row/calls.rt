//! One row of calls, of one worker and two places: four messages are offered; the near place takes two, of which it acknowledges one and gives one
//! back; the far place takes one; the gate is shut; the groups end. What memory refuses is made again, so that the same is told whichever allocation
//! fails.
ghost use Rattle.std.specs.Prelude.{◌≡◌, []};
ghost use Rattle.broker_groups.specs.Outs.{HasOut};

use crate::broker::calls::{acknowledge, offer, return_one, take};
use crate::broker::ending::{Counts, abandon};
use crate::broker::opening::{Built, Day, WorkerHandle, open, shut};
use crate::broker::worker::{ports_of, supply_of};
use crate::row::ending::{Ending, Out, end};
use broker_groups::{Broker, BrokerPlace, Key, Ports};
use call_history::HistoryName;
use conn_supply::Supply;
use gate_word::Gate;
use group_jobs::Envelope;
use group_queue::Nobody;
use session_desk::Place;
use shared_supply::{AskedBack, SharedBroker, Wakes};
use std::alloc::Global;
use std::sync::Wait;
use std::test::Fail;

/// What the calls told: the numbers of what was accepted, acknowledged, given back and held, the places' numbers, whom the worker had to wake, whether the
/// gate was drained, and whether the worker was let in after that.
#[derive(Clone, Copy, Debug, PartialEq, Eq)]
struct Told {
    accepted: [Option<u64>; 4],
    acknowledged: Option<u64>,
    returned: Option<u64>,
    held: Option<u64>,
    places: [u8; 2],
    wakes: Option<Wakes>,
    is_drained: bool,
    is_let_in: bool,
}

/// Nothing was told.
const NOTHING: Told = Told {
    accepted: [None; 4],
    acknowledged: None,
    returned: None,
    held: None,
    places: [0; 2],
    wakes: None,
    is_drained: false,
    is_let_in: false,
};

/// The calls of a visit.
fn visit<B: Broker, S: Supply<BrokerPlace<B>>>(
    alloc: Global,
    supply: &mut S,
    near: &mut BrokerPlace<B>,
    far: &mut BrokerPlace<B>,
    told: &mut Told,
) -> Option<Envelope>
    requires near { HasOut near.old [] }
    requires far { HasOut far.old [] }
{
    if !supply.begin() {
        return None;
    }
    told.accepted = [
        offer(alloc, supply),
        offer(alloc, supply),
        offer(alloc, supply),
        offer(alloc, supply),
    ];
    told.acknowledged = acknowledge(supply, near);
    told.returned = return_one(supply, near);
    let held = take(supply, far);
    supply.end();
    held
}

/// A visit with two places that the desk lends.
fn work<B: Broker, S: Supply<BrokerPlace<B>>>(
    alloc: Global,
    supply: &mut S,
    told: &mut Told,
) -> Option<Out<B>> {
    let mut near = supply.lend_place(0)?;
    let mut far = supply.lend_place(0)?;
    told.places = [near.number(), far.number()];
    let held = visit(alloc, supply, &mut near, &mut far, told);
    told.held = match &held {
        Some(envelope) => Some(envelope.stamp().number),
        None => None,
    };
    Some(Out { near, far, held })
}

/// The calls of a worker, whose ports come back, before the gate is shut and after that.
fn act<B: Broker, N: HistoryName, R: Wait>(
    rt: &R,
    alloc: Global,
    gate: &Gate,
    shared_broker: &SharedBroker<'_, B, N>,
    handle: WorkerHandle<B, N>,
    spare: Key<B>,
    told: &mut Told,
) -> (Option<Out<B>>, Ports<B>)
    requires { gate.now ≡ B.gate }
{
    let mut supply = match supply_of(rt, alloc, shared_broker, handle) {
        Ok(supply) => supply,
        Err(ports) => return (None, ports),
    };
    let out = work(alloc, &mut supply, told);
    told.wakes = Some(supply.take_wakes());
    told.is_drained = shut(gate, spare);
    told.is_let_in = supply.begin();
    (out, ports_of(supply))
}

/// The row, with what it ends.
#[derive(Drop)]
struct Row {
    ending: Ending,
}

impl Day for Row {
    type Told = (Told, Result<Counts, u16>);

    fn pass<B: Broker<Seen = Nobody>, N: HistoryName, R: Wait>(
        &mut self,
        rt: &R,
        alloc: Global,
        gate: &Gate,
        built: Built<'_, B, N>,
    ) -> Option<(Told, Result<Counts, u16>)> {
        let Built {
            shared_broker,
            mut handles,
            spare,
            caller: _,
        } = built;
        let Some(handle) = handles.pop() else {
            abandon(shared_broker);
            return None;
        };
        let mut told = NOTHING;
        let (out, ports) = act(rt, alloc, gate, &shared_broker, handle, spare, &mut told);
        match out {
            Some(out) => Some((
                told,
                end(rt, alloc, shared_broker, ports, out, self.ending)?,
            )),
            None => {
                abandon(shared_broker);
                None
            }
        }
    }
}

/// The row; where an allocation failed for what can't be made again by itself, once more.
fn tell<R: Wait>(rt: &R, alloc: Global, ending: Ending) -> Option<(Told, Result<Counts, u16>)> {
    let mut row = Row { ending };
    match open(rt, alloc, 8, 1, &mut row) {
        Some(told) => Some(told),
        None => open(rt, alloc, 8, 1, &mut row),
    }
}

#[test]
fn group_ledger(rt: HostRuntime) -> Result<(), Fail> {
    let told = Told {
        accepted: [Some(0), Some(1), Some(2), Some(3)],
        acknowledged: Some(0),
        returned: Some(1),
        held: Some(2),
        places: [0, 1],
        wakes: Some(Wakes {
            messages: [2, 0, 0, 0, 0, 0, 0, 0],
            calls: [0; 8],
            asked_back: AskedBack::Nobody,
            has_freed_session: false,
        }),
        is_drained: true,
        is_let_in: false,
    };
    let counts = Counts {
        accepted: 4,
        acknowledged: 1,
        refused: 0,
        held: 1,
        queued: 1,
        returned: 1,
        discarded: 0,
    };
    let rows = [
        (Ending::WithoutPlace, Err(505)),
        (Ending::WithStranger, Err(507)),
        (Ending::Whole, Ok(counts)),
    ];
    for (ending, end) in rows {
        assert_eq!(rt; tell(&rt, rt.alloc(), ending), Some((told, end)));
    }
    Ok(())
}
