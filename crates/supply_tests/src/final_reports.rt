//! A broker whose gate was shut and drained, and its end: once by its desk, and once with its places in hands.
ghost use Rattle.std.specs.Prelude.{◌≡◌, IfSome};

use crate::broker::calls::message;
use crate::broker::ending::{Counts, abandon, all_of, count, sum_of};
use crate::broker::opening::{Built, Day, WorkerHandle, open};
use crate::broker::worker::{keep, ports_of, supply_of};
use broker_groups::{Broker, BrokerPlace, Key, Ports};
use call_history::HistoryName;
use conn_supply::{HoldingPlace, Supply};
use final_report::{end_broker, end_groups};
use gate_word::{Drained, Gate};
use group_queue::Nobody;
use session_desk::All;
use shared_desk::DeskCaller;
use shared_supply::SharedBroker;
use std::alloc::Global;
use std::sync::Wait;
use std::test::Fail;

/// Offers a message to the last group, in a visit.
fn offer<P: HoldingPlace, S: Supply<P>>(alloc: Global, supply: &mut S) {
    if supply.begin() {
        if let Some(message) = message(alloc) {
            let _offered = supply.offer(7, 0, message);
        }
        supply.end();
    }
}

/// A worker offers a message; its ports come back.
fn work<B: Broker, N: HistoryName, R: Wait>(
    rt: &R,
    alloc: Global,
    shared_broker: &SharedBroker<'_, B, N>,
    handle: WorkerHandle<B, N>,
) -> Ports<B> {
    match supply_of(rt, alloc, shared_broker, handle) {
        Ok(mut supply) => {
            offer(alloc, &mut supply);
            ports_of(supply)
        }
        Err(ports) => ports,
    }
}

/// Shuts the gate, and looks whether it is drained.
fn close<B: Broker>(gate: &Gate, key: Key<B>) -> Option<Drained>
    requires { gate.now ≡ B.gate }
    ensures { IfSome result (λ drained. drained ≡ B.gate) }
{
    let mut seat = key.into_seat();
    gate.shut(&mut seat);
    gate.drained(&mut seat)
}

/// Ends a broker that was drained, by its desk.
fn end_by_desk<B: Broker<Seen = Nobody>, N: HistoryName, R: Wait>(
    rt: &R,
    alloc: Global,
    drained: &Drained,
    shared_broker: SharedBroker<'_, B, N>,
    ports: Vec<Ports<B>>,
    caller: &mut DeskCaller<BrokerPlace<B>, N>,
) -> Option<Vec<Counts>>
    requires { drained.now ≡ B.gate }
{
    match end_broker(rt, alloc, drained, shared_broker, ports, caller) {
        Ok(ended) => Some(count(alloc, ended)),
        Err(left) => {
            left.abandon();
            None
        }
    }
}

/// Ends the groups of one, with their places in hands.
fn end_by_hand<B: Broker<Seen = Nobody>, N: HistoryName, R: Wait>(
    rt: &R,
    alloc: Global,
    drained: &Drained,
    shared_broker: SharedBroker<'_, B, N>,
    ports: Vec<Ports<B>>,
) -> Option<Vec<Counts>>
    requires { drained.now ≡ B.gate }
{
    let (groups, desk, _routes) = shared_broker.into_parts();
    let Some(All { places, envelopes }) = all_of(desk.into_desk()) else {
        groups.abandon();
        return None;
    };
    match end_groups(rt, alloc, drained, groups, ports, places, envelopes) {
        Ok(ended) => Some(count(alloc, ended)),
        Err(left) => {
            left.abandon();
            None
        }
    }
}

/// The day of a broker whose one worker offers a message, and which ends by its desk or by hand.
#[derive(Drop)]
struct Closing {
    has_desk: bool,
}

impl Day for Closing {
    type Told = Vec<Counts>;

    fn pass<B: Broker<Seen = Nobody>, N: HistoryName, R: Wait>(
        &mut self,
        rt: &R,
        alloc: Global,
        gate: &Gate,
        built: Built<'_, B, N>,
    ) -> Option<Vec<Counts>> {
        let Built {
            shared_broker,
            mut handles,
            spare,
            mut caller,
        } = built;
        let mut ports = Vec::new(alloc);
        if let Some(handle) = handles.pop() {
            keep(&mut ports, work(rt, alloc, &shared_broker, handle));
        }
        match close(gate, spare) {
            Some(drained) if self.has_desk => {
                end_by_desk(rt, alloc, &drained, shared_broker, ports, &mut caller)
            }
            Some(drained) => end_by_hand(rt, alloc, &drained, shared_broker, ports),
            None => {
                abandon(shared_broker);
                None
            }
        }
    }
}

// A broker whose gate is drained ends with eight reports; the message that nobody took is queued.
#[test]
fn a_closed_broker_ends(rt: HostRuntime) -> Result<(), Fail> {
    let queued = Counts {
        accepted: 1,
        queued: 1,
        ..Counts::NOTHING
    };
    for has_desk in [true, false] {
        let counts = open(&rt, rt.alloc(), 8, 1, &mut Closing { has_desk }).ok_or("a day")?;
        assert_eq!(rt; (counts.len(), sum_of(&counts)), (8, queued));
    }
    Ok(())
}
