//! One row of calls, of which each that memory refuses is made again, so that the report is the same whichever allocation
//! fails: four offers; the near place takes two, of which it settles one and gives one back; the far place takes one; the
//! gate is shut and drained; the group ends.
ghost use Rattle.std.specs.Prelude.{◌≡◌, All, IfSome};
ghost use Rattle.group_queue.specs.Ports.{IsPortOf};
ghost use Rattle.group_queue.specs.Places.{IsPlaceOf, Holds};

use crate::queue::group_ledger::offer;
use crate::queue::life::{Life, live};
use crate::queue::reports::Wanted;
use dispatch_core::Job;
use gate_word::{Gate, GateSeat, Turn};
use group_jobs::{Envelope, Fate, Report};
use group_queue::{Place, Port, SharedGroup, Unfinished};
use std::alloc::Global;
use std::sync::Wait;
use std::test::Fail;

/// Ends a group; where that was refused, once more.
pub fn end<R: Wait>(
    rt: &R,
    alloc: Global,
    group: SharedGroup<'_>,
    ports: Vec<Port>,
    places: Vec<Place>,
    held: Vec<Envelope>,
) -> Option<Report>
    requires ports { All (IsPortOf group) ports.items }
    requires places { All (IsPlaceOf group) places.items }
{
    match group.finish(rt, alloc, ports, places, held) {
        Ok(report) => Some(report),
        Err(unfinished) => end_again(rt, alloc, unfinished),
    }
}

/// Ends a group that was not ended.
fn end_again<R: Wait>(rt: &R, alloc: Global, unfinished: Unfinished<'_>) -> Option<Report>
    requires ports { All (IsPortOf unfinished.group) unfinished.ports.items }
    requires places { All (IsPlaceOf unfinished.group) unfinished.places.items }
{
    let Unfinished {
        error: _,
        group,
        ports,
        places,
        held,
    } = unfinished;
    match group.finish(rt, alloc, ports, places, held) {
        Ok(report) => Some(report),
        Err(unfinished) => {
            unfinished.abandon();
            None
        }
    }
}

/// Takes a message; where that was refused, once more.
pub fn take_again<R: Wait>(
    rt: &R,
    group: &SharedGroup<'_>,
    place: &mut Place,
    turn: &Turn,
) -> Option<Envelope>
    requires place { IsPlaceOf group.now place.old }
    requires turn { turn.now.gate ≡ group.now.gate }
    ensures place { IsPlaceOf group.now place.new }
    ensures held { IfSome result (Holds place.new) }
{
    match group.take(rt, place, turn) {
        Ok(taken) => taken,
        Err(_) => match group.take(rt, place, turn) {
            Ok(taken) => taken,
            Err(_) => None,
        },
    }
}

/// Gives a message back; where that was refused, once more, and else it is refused.
fn give_again<R: Wait>(rt: &R, group: &SharedGroup<'_>, place: &mut Place, envelope: Envelope)
    requires place { IsPlaceOf group.now place.old }
    requires held { Holds place.old envelope }
    ensures { IsPlaceOf group.now place.new }
{
    if let Err(envelope) = group.give_back(rt, place, envelope) {
        if let Err(envelope) = group.give_back(rt, place, envelope) {
            place.settle(envelope, Fate::Refused);
        }
    }
}

/// The near place takes two messages, settles one and gives one back, and gathers.
fn near_works<R: Wait>(
    rt: &R,
    alloc: Global,
    group: &SharedGroup<'_>,
    near: &mut Place,
    turn: &Turn,
)
    requires near { IsPlaceOf group.now near.old }
    requires turn { turn.now.gate ≡ group.now.gate }
    ensures { IsPlaceOf group.now near.new }
{
    if let Some(envelope) = take_again(rt, group, near, turn) {
        near.settle(envelope, Fate::Acknowledged);
    }
    if let Some(envelope) = take_again(rt, group, near, turn) {
        give_again(rt, group, near, envelope);
    }
    if group.gather(rt, alloc, near).is_err() {
        let _gathered = group.gather(rt, alloc, near);
    }
}

/// Lets an envelope go.
pub fn spend(envelope: Envelope) {
    let (_stamp, message) = envelope.open();
    drop(message);
}

/// A list of what is out. Room for it is asked for twice at most.
pub fn held_list(alloc: Global, taken: Option<Envelope>) -> Vec<Envelope> {
    let mut held = match Vec::with_capacity(alloc, 1) {
        Ok(held) => held,
        Err(_) => Vec::new(alloc),
    };
    if let Some(envelope) = taken {
        if let Err(refused) = held.push(envelope) {
            spend(refused.value);
        }
    }
    held
}

/// Offers four messages.
pub fn offer_four<R: Wait>(
    rt: &R,
    alloc: Global,
    group: &SharedGroup<'_>,
    port: &mut Port,
    turn: &Turn,
)
    requires port { IsPortOf group.now port.old }
    requires turn { turn.now.gate ≡ group.now.gate }
    ensures { IsPortOf group.now port.new }
{
    for _ in 0..4 {
        let _offered = offer(rt, alloc, group, port, turn);
    }
}

/// The calls of the row with a turn. They tell what the far place holds then.
#[derive(Drop)]
struct Row;

impl Life for Row {
    type Told = Option<Envelope>;

    type End = Report;

    fn pass<R: Wait>(
        &self,
        rt: &R,
        alloc: Global,
        group: &SharedGroup<'_>,
        port: &mut Port,
        near: &mut Place,
        far: &mut Place,
        turn: &Turn,
    ) -> Option<Envelope> {
        offer_four(rt, alloc, group, port, turn);
        near_works(rt, alloc, group, near, turn);
        take_again(rt, group, far, turn)
    }

    fn end<R: Wait>(
        &self,
        rt: &R,
        alloc: Global,
        gate: &Gate,
        seat: GateSeat,
        held: Option<Envelope>,
        opened: (SharedGroup<'_>, Vec<Port>, Vec<Place>),
    ) -> Option<Report> {
        let (group, ports, places) = opened;
        shut(gate, seat);
        end(rt, alloc, group, ports, places, held_list(alloc, held))
    }
}

/// Shuts a gate, and looks whether it is drained.
fn shut(gate: &Gate, seat: GateSeat)
    requires { seat.gate ≡ gate.now }
{
    let mut seat = seat;
    gate.shut(&mut seat);
    let _drained = gate.drained(&mut seat);
}

#[test]
fn refused_calls_made_again(rt: HostRuntime) -> Result<(), Fail> {
    let report = live(&rt, rt.alloc(), 8, &Row).ok_or("a life")?;
    let first = Job { port: 0, number: 0 };
    assert!(rt; report.settled.acknowledged.contains(first));
    Wanted::ONE_OF_EACH.compare(&rt, report);
    Ok(())
}
