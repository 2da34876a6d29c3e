//! Two threads publish while two others take, settle and gather, and the group ends with its report: each accepted message is
//! acknowledged, and once.
ghost use Rattle.std.specs.Prelude.{◌≡◌, All, IfSome};
ghost use Rattle.gate_word.specs.Seats.{AreSeatsOf};
ghost use Rattle.group_queue.specs.Ports.{GroupId, IsPortOf};
ghost use Rattle.group_queue.specs.Places.{IsPlaceOf};

use crate::queue::group_ledger::{acknowledge, offer};
use crate::queue::life::{put_place, put_port, take_place, take_port, take_seat};
use crate::queue::reports::Wanted;
use crate::queue::row::end;
use gate_word::{Gate, GateSeat, Turn};
use group_jobs::Report;
use group_queue::{Place, Port, SharedGroup};
use std::alloc::Global;
use std::sync::Wait;
use std::test::Fail;
use std::thread;
use std::thread::Threads;

/// How many messages each publisher offers.
const OFFERS: u32 = 1_000;

/// How often each place tries to take one.
const TRIES: u32 = 3_000;

/// Who publishes.
#[derive(Drop)]
struct Publisher {
    seat: GateSeat,
    port: Port,
}

/// Who takes.
#[derive(Drop)]
struct Taker {
    seat: GateSeat,
    place: Place,
}

/// What threads share: a group, as those who publish and take see it.
///
/// At a join only those clauses of a thread's closure come through in which no type that it captures by reference names a
/// lifetime. `SharedGroup` names its gate's, so the threads are given a type parameter with this bound in its place.
trait Workplace {
    ghost group: { Self → GroupId };

    /// Offers messages through a port of it, and hands the port back.
    fn publish<R: Wait>(
        &self,
        rt: &R,
        alloc: Global,
        gate: &Gate,
        publisher: Option<Publisher>,
    ) -> Option<Port>
        requires gate { (group self.now).gate ≡ gate.now }
        requires seated { IfSome publisher (λ p. (p.seat.gate ≡ gate.now) × IsPortOf (group self.now) p.port) }
        ensures port { IfSome result (IsPortOf (group self.now)) };

    /// Takes messages at a place of it and acknowledges them, and hands the place back.
    fn work<R: Wait>(
        &self,
        rt: &R,
        alloc: Global,
        gate: &Gate,
        taker: Option<Taker>,
    ) -> Option<Place>
        requires gate { (group self.now).gate ≡ gate.now }
        requires seated { IfSome taker (λ t. (t.seat.gate ≡ gate.now) × IsPlaceOf (group self.now) t.place) }
        ensures place { IfSome result (IsPlaceOf (group self.now)) };
}

impl<'a> Workplace for SharedGroup<'a> {
    ghost group = { λ group. group };

    fn publish<R: Wait>(
        &self,
        rt: &R,
        alloc: Global,
        gate: &Gate,
        publisher: Option<Publisher>,
    ) -> Option<Port> {
        let Publisher { seat, mut port } = publisher?;
        if let Ok(turn) = gate.enter(seat) {
            offer_all(rt, alloc, self, &mut port, &turn);
            gate.leave(turn);
        }
        Some(port)
    }

    fn work<R: Wait>(
        &self,
        rt: &R,
        alloc: Global,
        gate: &Gate,
        taker: Option<Taker>,
    ) -> Option<Place> {
        let Taker { seat, mut place } = taker?;
        if let Ok(turn) = gate.enter(seat) {
            acknowledge_all(rt, alloc, self, &mut place, &turn);
            gate.leave(turn);
        }
        Some(place)
    }
}

/// Offers messages.
fn offer_all<R: Wait>(rt: &R, alloc: Global, group: &SharedGroup<'_>, port: &mut Port, turn: &Turn)
    requires port { IsPortOf group.now port.old }
    requires turn { turn.now.gate ≡ group.now.gate }
    ensures { IsPortOf group.now port.new }
{
    for _ in 0..OFFERS {
        let _offered = offer(rt, alloc, group, port, turn);
    }
}

/// Takes messages, acknowledges them, and now and then gathers what was settled.
fn acknowledge_all<R: Wait>(
    rt: &R,
    alloc: Global,
    group: &SharedGroup<'_>,
    place: &mut Place,
    turn: &Turn,
)
    requires place { IsPlaceOf group.now place.old }
    requires turn { turn.now.gate ≡ group.now.gate }
    ensures { IsPlaceOf group.now place.new }
{
    for round in 0..TRIES {
        let _acknowledged = acknowledge(rt, group, place, turn);
        if round % 64 == 0 {
            let _gathered = group.gather(rt, alloc, place);
        }
    }
}

/// Two threads publish.
fn publish_both<G: Workplace + Sync, R: Threads + Wait + Sync>(
    rt: &R,
    alloc: Global,
    group: &G,
    gate: &Gate,
    first: Option<Publisher>,
    second: Option<Publisher>,
) -> (Option<Port>, Option<Port>)
    requires gate { (G.group group.now).gate ≡ gate.now }
    requires first { IfSome first (λ p. (p.seat.gate ≡ gate.now) × IsPortOf (G.group group.now) p.port) }
    requires second { IfSome second (λ p. (p.seat.gate ≡ gate.now) × IsPortOf (G.group group.now) p.port) }
    ensures first { IfSome result.0 (IsPortOf (G.group group.now)) }
    ensures second { IfSome result.1 (IsPortOf (G.group group.now)) }
{
    thread::join(
        rt,
        || -> Option<Port>
            requires { ((G.group group.now).gate ≡ gate.now) × IfSome first (λ p. (p.seat.gate ≡ gate.now) × IsPortOf (G.group group.now) p.port) }
            ensures { IfSome result (IsPortOf (G.group group.entry.now)) }
        { group.publish(rt, alloc, gate, first) },
        || -> Option<Port>
            requires { ((G.group group.now).gate ≡ gate.now) × IfSome second (λ p. (p.seat.gate ≡ gate.now) × IsPortOf (G.group group.now) p.port) }
            ensures { IfSome result (IsPortOf (G.group group.entry.now)) }
        { group.publish(rt, alloc, gate, second) },
    )
}

/// Two threads take and settle.
fn work_both<G: Workplace + Sync, R: Threads + Wait + Sync>(
    rt: &R,
    alloc: Global,
    group: &G,
    gate: &Gate,
    near: Option<Taker>,
    far: Option<Taker>,
) -> (Option<Place>, Option<Place>)
    requires gate { (G.group group.now).gate ≡ gate.now }
    requires near { IfSome near (λ t. (t.seat.gate ≡ gate.now) × IsPlaceOf (G.group group.now) t.place) }
    requires far { IfSome far (λ t. (t.seat.gate ≡ gate.now) × IsPlaceOf (G.group group.now) t.place) }
    ensures near { IfSome result.0 (IsPlaceOf (G.group group.now)) }
    ensures far { IfSome result.1 (IsPlaceOf (G.group group.now)) }
{
    thread::join(
        rt,
        || -> Option<Place>
            requires { ((G.group group.now).gate ≡ gate.now) × IfSome near (λ t. (t.seat.gate ≡ gate.now) × IsPlaceOf (G.group group.now) t.place) }
            ensures { IfSome result (IsPlaceOf (G.group group.entry.now)) }
        { group.work(rt, alloc, gate, near) },
        || -> Option<Place>
            requires { ((G.group group.now).gate ≡ gate.now) × IfSome far (λ t. (t.seat.gate ≡ gate.now) × IsPlaceOf (G.group group.now) t.place) }
            ensures { IfSome result (IsPlaceOf (G.group group.entry.now)) }
        { group.work(rt, alloc, gate, far) },
    )
}

/// What the four threads hand back.
type Back = ((Option<Port>, Option<Port>), (Option<Place>, Option<Place>));

/// Four threads at once.
fn run<G: Workplace + Sync, R: Threads + Wait + Sync>(
    rt: &R,
    alloc: Global,
    group: &G,
    gate: &Gate,
    publishers: (Option<Publisher>, Option<Publisher>),
    takers: (Option<Taker>, Option<Taker>),
) -> Back
    requires gate { (G.group group.now).gate ≡ gate.now }
    requires first { IfSome publishers.0 (λ p. (p.seat.gate ≡ gate.now) × IsPortOf (G.group group.now) p.port) }
    requires second { IfSome publishers.1 (λ p. (p.seat.gate ≡ gate.now) × IsPortOf (G.group group.now) p.port) }
    requires near { IfSome takers.0 (λ t. (t.seat.gate ≡ gate.now) × IsPlaceOf (G.group group.now) t.place) }
    requires far { IfSome takers.1 (λ t. (t.seat.gate ≡ gate.now) × IsPlaceOf (G.group group.now) t.place) }
    ensures ports { IfSome result.0.0 (IsPortOf (G.group group.now)) × IfSome result.0.1 (IsPortOf (G.group group.now)) }
    ensures places { IfSome result.1.0 (IsPlaceOf (G.group group.now)) × IfSome result.1.1 (IsPlaceOf (G.group group.now)) }
{
    let (first, second) = publishers;
    let (near, far) = takers;
    thread::join(
        rt,
        || -> (Option<Port>, Option<Port>)
            requires gate { (G.group group.now).gate ≡ gate.now }
            requires first { IfSome first (λ p. (p.seat.gate ≡ gate.now) × IsPortOf (G.group group.now) p.port) }
            requires second { IfSome second (λ p. (p.seat.gate ≡ gate.now) × IsPortOf (G.group group.now) p.port) }
            ensures { IfSome result.0 (IsPortOf (G.group group.entry.now)) × IfSome result.1 (IsPortOf (G.group group.entry.now)) }
        { publish_both(rt, alloc, group, gate, first, second) },
        || -> (Option<Place>, Option<Place>)
            requires gate { (G.group group.now).gate ≡ gate.now }
            requires near { IfSome near (λ t. (t.seat.gate ≡ gate.now) × IsPlaceOf (G.group group.now) t.place) }
            requires far { IfSome far (λ t. (t.seat.gate ≡ gate.now) × IsPlaceOf (G.group group.now) t.place) }
            ensures { IfSome result.0 (IsPlaceOf (G.group group.entry.now)) × IfSome result.1 (IsPlaceOf (G.group group.entry.now)) }
        { work_both(rt, alloc, group, gate, near, far) },
    )
}

/// A publisher with the last seat and the last port.
fn seated_publisher(
    gate: &Gate,
    seats: &mut Vec<GateSeat>,
    group: &SharedGroup<'_>,
    ports: &mut Vec<Port>,
) -> Option<Publisher>
    requires seats { AreSeatsOf gate.now seats.old.items }
    requires ports { All (IsPortOf group.now) ports.old.items }
    ensures seated { IfSome result (λ p. (p.seat.gate ≡ gate.now) × IsPortOf group.now p.port) }
    ensures seats { AreSeatsOf gate.now seats.new.items }
    ensures ports { All (IsPortOf group.now) ports.new.items }
{
    let seat = take_seat(gate, seats)?;
    let port = take_port(group, ports)?;
    Some(Publisher { seat, port })
}

/// A taker with the last seat and the last place.
fn seated_taker(
    gate: &Gate,
    seats: &mut Vec<GateSeat>,
    group: &SharedGroup<'_>,
    places: &mut Vec<Place>,
) -> Option<Taker>
    requires seats { AreSeatsOf gate.now seats.old.items }
    requires places { All (IsPlaceOf group.now) places.old.items }
    ensures seated { IfSome result (λ t. (t.seat.gate ≡ gate.now) × IsPlaceOf group.now t.place) }
    ensures seats { AreSeatsOf gate.now seats.new.items }
    ensures places { All (IsPlaceOf group.now) places.new.items }
{
    let seat = take_seat(gate, seats)?;
    let place = take_place(group, places)?;
    Some(Taker { seat, place })
}

/// Puts a port and a place to the others.
fn put_back(
    group: &SharedGroup<'_>,
    ports: &mut Vec<Port>,
    places: &mut Vec<Place>,
    back: (Option<Port>, Option<Place>),
)
    requires ports { All (IsPortOf group.now) ports.old.items }
    requires places { All (IsPlaceOf group.now) places.old.items }
    requires port { IfSome back.0 (IsPortOf group.now) }
    requires place { IfSome back.1 (IsPlaceOf group.now) }
    ensures ports { All (IsPortOf group.now) ports.new.items }
    ensures places { All (IsPlaceOf group.now) places.new.items }
{
    let (port, place) = back;
    if let Some(port) = port {
        put_port(group, ports, port);
    }
    if let Some(place) = place {
        put_place(group, places, place);
    }
}

/// Four threads at once, with two ports and two places, which come back.
fn all_at_once<R: Threads + Wait + Sync>(
    rt: &R,
    alloc: Global,
    gate: &Gate,
    seats: &mut Vec<GateSeat>,
    group: &SharedGroup<'_>,
    ports: &mut Vec<Port>,
    places: &mut Vec<Place>,
)
    requires seats { AreSeatsOf gate.now seats.old.items }
    requires gate { group.now.gate ≡ gate.now }
    requires ports { All (IsPortOf group.now) ports.old.items }
    requires places { All (IsPlaceOf group.now) places.old.items }
    ensures seats { AreSeatsOf gate.now seats.new.items }
    ensures ports { All (IsPortOf group.now) ports.new.items }
    ensures places { All (IsPlaceOf group.now) places.new.items }
{
    let first = seated_publisher(gate, seats, group, ports);
    let second = seated_publisher(gate, seats, group, ports);
    let near = seated_taker(gate, seats, group, places);
    let far = seated_taker(gate, seats, group, places);
    let (sent, worked) = run(rt, alloc, group, gate, (first, second), (near, far));
    put_back(group, ports, places, (sent.0, worked.0));
    put_back(group, ports, places, (sent.1, worked.1));
}

/// One place alone, which comes back.
fn take_left<R: Wait>(
    rt: &R,
    alloc: Global,
    gate: &Gate,
    seats: &mut Vec<GateSeat>,
    group: &SharedGroup<'_>,
    places: &mut Vec<Place>,
)
    requires seats { AreSeatsOf gate.now seats.old.items }
    requires gate { group.now.gate ≡ gate.now }
    requires places { All (IsPlaceOf group.now) places.old.items }
    ensures { All (IsPlaceOf group.now) places.new.items }
{
    let last = seated_taker(gate, seats, group, places);
    if let Some(place) = group.work(rt, alloc, gate, last) {
        put_place(group, places, place);
    }
}

/// Four threads at once, then one place alone that takes what is left, and the group's report.
fn whole_run<R: Threads + Wait + Sync>(
    rt: &R,
    alloc: Global,
    gate: &Gate,
    seats: Vec<GateSeat>,
    opened: (SharedGroup<'_>, Vec<Port>, Vec<Place>),
) -> Option<Report>
    requires seats { AreSeatsOf gate.now seats.items }
    requires gate { opened.0.gate ≡ gate.now }
    requires ports { All (IsPortOf opened.0) opened.1.items }
    requires places { All (IsPlaceOf opened.0) opened.2.items }
{
    let (group, mut ports, mut places) = opened;
    let mut seats = seats;
    all_at_once(rt, alloc, gate, &mut seats, &group, &mut ports, &mut places);
    take_left(rt, alloc, gate, &mut seats, &group, &mut places);
    end(rt, alloc, group, ports, places, Vec::new(alloc))
}

#[test]
fn four_threads_at_once(rt: HostRuntime) -> Result<(), Fail> {
    let (gate, seats) = Gate::open(rt.alloc(), 5)?;
    let opened = SharedGroup::open(rt.alloc(), &gate, 0, 2, 2, 2_048)?;
    let report = whole_run(&rt, rt.alloc(), &gate, seats, opened).ok_or("a report")?;
    let wanted = Wanted {
        accepted: &[1_000, 1_000],
        acknowledged: 2_000,
        held: &[],
        queued: &[],
        returned: &[],
    };
    wanted.compare(&rt, report);
    Ok(())
}
