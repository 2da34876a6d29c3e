//! The groups of one broker on one thread, without a desk, from their opening to their reports.
ghost use Rattle.std.specs.Prelude.{◌≡◌, All, IfSome};
ghost use Rattle.gate_word.specs.Seats.{AreSeatsOf};
ghost use Rattle.broker_groups.specs.Naming.{HasNoneOut, IsOfBroker};

use crate::broker::calls::message;
use crate::broker::ending::{Counts, count, sum_of};
use broker_groups::{
    Broker, BrokerGroups, BrokerName, BrokerPlace, Key, Named, Opened, Ports, Witnessed,
};
use conn_supply::OfferRefusal;
use gate_word::{Gate, GateSeat, Turn};
use group_jobs::{Fate, Stamp};
use group_queue::Nobody;
use std::alloc::Global;
use std::marker::Brand;
use std::sync::Wait;
use std::test::Fail;

/// What the calls answered, and how many messages the groups acknowledged and still have queued.
#[derive(Debug, Drop, PartialEq, Eq)]
struct Told {
    last: Result<Stamp, OfferRefusal>,
    past: Result<Stamp, OfferRefusal>,
    settled: Option<Stamp>,
    acknowledged: u128,
    ended: usize,
    strangers: usize,
}

/// Takes a message at a place that has none out, and acknowledges it.
fn work<B: Broker, R: Wait>(
    rt: &R,
    groups: &BrokerGroups<'_, B>,
    place: &mut BrokerPlace<B>,
    turn: &Turn,
) -> Option<Stamp>
    requires none { HasNoneOut place.old }
    requires turn { turn.now.gate ≡ B.gate }
{
    match place.take(groups, rt, turn) {
        Ok(Some(envelope)) => Some(place.settle(envelope, Fate::Acknowledged)),
        Ok(None) => None,
        Err(_) => None,
    }
}

/// Offers a message to the group of a slot.
fn offer<B: Broker, R: Wait>(
    rt: &R,
    alloc: Global,
    groups: &BrokerGroups<'_, B>,
    ports: &mut Vec<Ports<B>>,
    turn: &Turn,
    slot: u8,
) -> Option<Result<Stamp, OfferRefusal>>
    requires { turn.now.gate ≡ B.gate }
{
    let message = message(alloc)?;
    let ports = ports.first_mut()?;
    Some(ports.offer(groups, rt, turn, slot, message))
}

/// What was told inside the gate.
#[derive(Drop)]
struct Visit {
    last: Option<Result<Stamp, OfferRefusal>>,
    past: Option<Result<Stamp, OfferRefusal>>,
    settled: Option<Stamp>,
}

/// Offers to the last slot and to the one past it, and takes and acknowledges at the last place of the last slot.
fn go_inside<B: Broker, R: Wait>(
    rt: &R,
    alloc: Global,
    groups: &BrokerGroups<'_, B>,
    ports: &mut Vec<Ports<B>>,
    places: &mut Vec<BrokerPlace<B>>,
    turn: &Turn,
) -> Visit
    requires turn { turn.now.gate ≡ B.gate }
    requires none { All HasNoneOut places.old.items }
{
    let last = offer(rt, alloc, groups, ports, turn, 7);
    let past = offer(rt, alloc, groups, ports, turn, 8);
    let mut settled = None;
    if let Some(mut place) = places.pop() {
        settled = work(rt, groups, &mut place, turn);
        if let Err(refused) = places.push(place) {
            drop(refused);
        }
    }
    Visit {
        last,
        past,
        settled,
    }
}

/// What is told of a visit, of what became of the messages of each group, and of so many strangers.
fn told_of(visit: Visit, counts: &[Counts], strangers: usize) -> Option<Told> {
    Some(Told {
        last: visit.last?,
        past: visit.past?,
        settled: visit.settled,
        acknowledged: sum_of(counts).acknowledged,
        ended: counts.len(),
        strangers,
    })
}

/// Ends the groups, and tells what happened.
fn end<B: Broker<Seen = Nobody>, R: Wait>(
    rt: &R,
    alloc: Global,
    groups: BrokerGroups<'_, B>,
    ports: Vec<Ports<B>>,
    places: Vec<BrokerPlace<B>>,
    visit: Visit,
) -> Option<Told> {
    match groups.finish(rt, alloc, ports, places, Vec::new(alloc)) {
        Ok(ended) => {
            let strangers = ended.strangers.len();
            let counts = count(alloc, ended);
            told_of(visit, &counts, strangers)
        }
        Err(unended) => {
            unended.abandon();
            None
        }
    }
}

/// The day of a broker with one worker.
fn day<N: BrokerName, R: Wait>(
    rt: &R,
    alloc: Global,
    gate: &Gate,
    seat: GateSeat,
    opened: Opened<'_>,
) -> Option<Told>
    requires gate { gate.now ≡ N.gate }
    requires seat { seat.gate ≡ N.gate }
    requires opened { IsOfBroker N.gate N.group 1 opened }
{
    let Named {
        groups,
        mut ports,
        mut places,
    } = match opened.name::<Witnessed<N, Nobody>>(alloc, 1) {
        Ok(named) => named,
        Err(_) => return None,
    };
    let key: Key<Witnessed<N, Nobody>> = Key::of(seat);
    match gate.enter(key.into_seat()) {
        Ok(turn) => {
            let seen = go_inside(rt, alloc, &groups, &mut ports, &mut places, &turn);
            let _seat = gate.leave(turn);
            end(rt, alloc, groups, ports, places, seen)
        }
        Err(refused) => {
            drop(refused);
            groups.abandon();
            None
        }
    }
}

/// The same, of groups that are opened and named by what they are.
fn open_day<R: Wait>(rt: &R, alloc: Global, gate: &Gate, seat: GateSeat) -> Option<Told>
    requires { seat.gate ≡ gate.now }
{
    match Opened::open(alloc, gate, 8, 1) {
        Ok(opened) => day::<Brand, R>(rt, alloc, gate, seat, opened),
        Err(_) => None,
    }
}

/// The last seat.
fn take_seat(gate: &Gate, seats: &mut Vec<GateSeat>) -> Option<GateSeat>
    requires { AreSeatsOf gate.now seats.old.items }
    ensures { IfSome result (λ seat. seat.gate ≡ gate.now) }
{
    let _ = gate;
    seats.pop()
}

#[test]
fn a_broker_is_opened_named_and_ended(rt: HostRuntime) -> Result<(), Fail> {
    let (gate, mut seats) = Gate::open(rt.alloc(), 1)?;
    let seat = take_seat(&gate, &mut seats).ok_or("a seat")?;
    let told = open_day(&rt, rt.alloc(), &gate, seat).ok_or("a day")?;
    let stamp = Stamp {
        group: 7,
        port: 0,
        number: 0,
    };
    assert_eq!(rt;
        told,
        Told {
            last: Ok(stamp),
            past: Err(OfferRefusal::Shut),
            settled: Some(stamp),
            acknowledged: 1,
            ended: 8,
            strangers: 0,
        }
    );
    Ok(())
}

fn crosses_threads<T: Send>() {}

fn is_shared_by_threads<T: Sync>() {}

fn may_be_threaded<B: Broker + Send + Sync>()
where
    B::Seen: Send + Sync,
{
    is_shared_by_threads::<BrokerGroups<'static, B>>();
    crosses_threads::<BrokerGroups<'static, B>>();
    crosses_threads::<BrokerPlace<B>>();
    crosses_threads::<Ports<B>>();
    crosses_threads::<Key<B>>();
}

#[test]
fn what_threads_may_do_with_it() {
    may_be_threaded::<Witnessed<Brand, Nobody>>();
}
