//! A group on one thread: it is opened, a port and two places of it are behind the gate once, and it ends. What memory refuses as it is opened is
//! asked for once more.
ghost use Rattle.std.specs.Prelude.{◌≡◌, ◌≤◌, All, IfSome};
ghost use Rattle.gate_word.specs.Seats.{AreSeatsOf};
ghost use Rattle.group_queue.specs.Ports.{IsPortOf};
ghost use Rattle.group_queue.specs.Places.{IsPlaceOf};

use gate_word::{Gate, GateSeat, Turn};
use group_queue::{Place, Port, SharedGroup};
use std::alloc::Global;
use std::sync::Wait;

/// What is done with a group.
pub trait Life {
    /// What the visit of its gate tells.
    type Told;

    /// What is told in the end.
    type End;

    /// The visit, with a port and two places.
    fn pass<R: Wait>(
        &self,
        rt: &R,
        alloc: Global,
        group: &SharedGroup<'_>,
        port: &mut Port,
        near: &mut Place,
        far: &mut Place,
        turn: &Turn,
    ) -> Self::Told
        requires port { IsPortOf group.now port.old }
        requires near { IsPlaceOf group.now near.old }
        requires far { IsPlaceOf group.now far.old }
        requires turn { turn.now.gate ≡ group.now.gate }
        ensures port { IsPortOf group.now port.new }
        ensures near { IsPlaceOf group.now near.new }
        ensures far { IsPlaceOf group.now far.new };

    /// What comes after it, to the group's end.
    fn end<R: Wait>(
        &self,
        rt: &R,
        alloc: Global,
        gate: &Gate,
        seat: GateSeat,
        told: Self::Told,
        opened: (SharedGroup<'_>, Vec<Port>, Vec<Place>),
    ) -> Option<Self::End>
        requires seat { seat.gate ≡ gate.now }
        requires ports { All (IsPortOf opened.0) opened.1.items }
        requires places { All (IsPlaceOf opened.0) opened.2.items };
}

/// The last of these seats.
pub fn take_seat(gate: &Gate, seats: &mut Vec<GateSeat>) -> Option<GateSeat>
    requires { AreSeatsOf gate.now seats.old.items }
    ensures seat { IfSome result (λ seat. seat.gate ≡ gate.now) }
    ensures others { AreSeatsOf gate.now seats.new.items }
{
    let _ = gate;
    seats.pop()
}

/// The last of these ports.
pub fn take_port(group: &SharedGroup<'_>, ports: &mut Vec<Port>) -> Option<Port>
    requires { All (IsPortOf group.now) ports.old.items }
    ensures last { IfSome result (IsPortOf group.now) }
    ensures others { All (IsPortOf group.now) ports.new.items }
{
    let _ = group;
    ports.pop()
}

/// The last of these places.
pub fn take_place(group: &SharedGroup<'_>, places: &mut Vec<Place>) -> Option<Place>
    requires { All (IsPlaceOf group.now) places.old.items }
    ensures last { IfSome result (IsPlaceOf group.now) }
    ensures others { All (IsPlaceOf group.now) places.new.items }
{
    let _ = group;
    places.pop()
}

/// Puts a port to the others.
pub fn put_port(group: &SharedGroup<'_>, ports: &mut Vec<Port>, port: Port)
    requires ports { All (IsPortOf group.now) ports.old.items }
    requires port { IsPortOf group.now port }
    ensures { All (IsPortOf group.now) ports.new.items }
{
    let _ = group;
    match ports.push(port) {
        Ok(()) => {}
        Err(refused) => drop(refused),
    }
}

/// Puts a place to the others.
pub fn put_place(group: &SharedGroup<'_>, places: &mut Vec<Place>, place: Place)
    requires places { All (IsPlaceOf group.now) places.old.items }
    requires place { IsPlaceOf group.now place }
    ensures { All (IsPlaceOf group.now) places.new.items }
{
    let _ = group;
    match places.push(place) {
        Ok(()) => {}
        Err(refused) => drop(refused),
    }
}

/// The last port and the last two places, the far one first.
fn take_all(
    group: &SharedGroup<'_>,
    ports: &mut Vec<Port>,
    places: &mut Vec<Place>,
) -> Option<(Port, Place, Place)>
    requires ports { All (IsPortOf group.now) ports.old.items }
    requires places { All (IsPlaceOf group.now) places.old.items }
    ensures ports { All (IsPortOf group.now) ports.new.items }
    ensures places { All (IsPlaceOf group.now) places.new.items }
    ensures port { IfSome result (λ taken. IsPortOf group.now taken.0) }
    ensures near { IfSome result (λ taken. IsPlaceOf group.now taken.1) }
    ensures far { IfSome result (λ taken. IsPlaceOf group.now taken.2) }
{
    let far = take_place(group, places);
    let near = take_place(group, places);
    match (take_port(group, ports), near, far) {
        (Some(port), Some(near), Some(far)) => Some((port, near, far)),
        _ => None,
    }
}

/// Visits the gate with the last port and the last two places, which come back. `None` where there are none.
fn visit<L: Life, R: Wait>(
    rt: &R,
    alloc: Global,
    group: &SharedGroup<'_>,
    ports: &mut Vec<Port>,
    places: &mut Vec<Place>,
    turn: &Turn,
    life: &L,
) -> Option<L::Told>
    requires gate { turn.now.gate ≡ group.now.gate }
    requires ports { All (IsPortOf group.now) ports.old.items }
    requires places { All (IsPlaceOf group.now) places.old.items }
    ensures ports { All (IsPortOf group.now) ports.new.items }
    ensures places { All (IsPlaceOf group.now) places.new.items }
{
    match take_all(group, ports, places) {
        Some((port, near, far)) => {
            let (mut port, mut near, mut far) = (port, near, far);
            let told = life.pass(rt, alloc, group, &mut port, &mut near, &mut far, turn);
            put_port(group, ports, port);
            put_place(group, places, near);
            put_place(group, places, far);
            Some(told)
        }
        None => None,
    }
}

/// A group that is given up.
fn give_up(group: SharedGroup<'_>, ports: Vec<Port>, places: Vec<Place>) {
    drop(ports);
    drop(places);
    group.abandon();
}

/// The life of a group that is open.
fn live_open<L: Life, R: Wait>(
    rt: &R,
    alloc: Global,
    gate: &Gate,
    seat: GateSeat,
    opened: (SharedGroup<'_>, Vec<Port>, Vec<Place>),
    life: &L,
) -> Option<L::End>
    requires seat { seat.gate ≡ gate.now }
    requires gate { opened.0.gate ≡ gate.now }
    requires ports { All (IsPortOf opened.0) opened.1.items }
    requires places { All (IsPlaceOf opened.0) opened.2.items }
{
    let (group, mut ports, mut places) = opened;
    let Ok(turn) = gate.enter(seat) else {
        give_up(group, ports, places);
        return None;
    };
    let told = visit(rt, alloc, &group, &mut ports, &mut places, &turn, life);
    let seat = gate.leave(turn);
    match told {
        Some(told) => life.end(rt, alloc, gate, seat, told, (group, ports, places)),
        None => {
            give_up(group, ports, places);
            None
        }
    }
}

/// A gate with one seat.
pub fn open_gate(alloc: Global) -> Option<(Gate, GateSeat)>
    ensures { IfSome result (λ opened. opened.1.gate ≡ opened.0) }
{
    let (gate, mut seats) = match Gate::open(alloc, 1) {
        Ok(opened) => opened,
        Err(_) => Gate::open(alloc, 1).ok()?,
    };
    let seat = take_seat(&gate, &mut seats)?;
    Some((gate, seat))
}

/// A group with a port, two places and room for so many messages.
fn open_group<'a>(
    alloc: Global,
    gate: &'a Gate,
    capacity: usize,
) -> Option<(SharedGroup<'a>, Vec<Port>, Vec<Place>)>
    requires capacity { (1 ≤ capacity) × (capacity ≤ 65536) }
    ensures gate { IfSome result (λ opened. opened.0.gate ≡ gate.entry.now) }
    ensures ports { IfSome result (λ opened. All (IsPortOf opened.0) opened.1.items) }
    ensures places { IfSome result (λ opened. All (IsPlaceOf opened.0) opened.2.items) }
{
    if let Ok(opened) = SharedGroup::open(alloc, gate, 0, 1, 2, capacity) {
        return Some(opened);
    }
    SharedGroup::open(alloc, gate, 0, 1, 2, capacity).ok()
}

/// The life of a group with a port, two places and room for so many messages.
pub fn live<L: Life, R: Wait>(rt: &R, alloc: Global, capacity: usize, life: &L) -> Option<L::End>
    requires capacity { (1 ≤ capacity) × (capacity ≤ 65536) }
{
    let (gate, seat) = open_gate(alloc)?;
    match open_group(alloc, &gate, capacity) {
        Some(opened) => live_open(rt, alloc, &gate, seat, opened, life),
        None => None,
    }
}
