//! One group on one thread: a port, two places and a gate.
ghost use Rattle.std.specs.Prelude.{◌≡◌};
ghost use Rattle.group_queue.specs.Ports.{IsPortOf};
ghost use Rattle.group_queue.specs.Places.{IsPlaceOf};

use crate::asserting::assert_same;
use crate::queue::life::{Life, live};
use crate::queue::values::message;
use gate_word::{Gate, GateSeat, Turn};
use group_jobs::Fate;
use group_queue::{Place, Port, SharedGroup};
use std::alloc::Global;
use std::sync::Wait;
use std::test::Fail;

/// Offers a message, and answers its number, or the number of the refusal.
pub fn offer<R: Wait>(
    rt: &R,
    alloc: Global,
    group: &SharedGroup<'_>,
    port: &mut Port,
    turn: &Turn,
) -> Result<u64, u16>
    requires port { IsPortOf group.now port.old }
    requires turn { turn.now.gate ≡ group.now.gate }
    ensures { IsPortOf group.now port.new }
{
    let Some(message) = message(alloc, b"A") else {
        return Err(0);
    };
    match group.offer(rt, port, turn, message) {
        Ok(stamp) => Ok(stamp.number),
        Err(refused) => {
            let number = refused.error.number();
            drop(refused);
            Err(number)
        }
    }
}

/// Takes a message and settles it, and answers its number.
pub fn acknowledge<R: Wait>(
    rt: &R,
    group: &SharedGroup<'_>,
    place: &mut Place,
    turn: &Turn,
) -> Option<u64>
    requires place { IsPlaceOf group.now place.old }
    requires turn { turn.now.gate ≡ group.now.gate }
    ensures { IsPlaceOf group.now place.new }
{
    match group.take(rt, place, turn) {
        Ok(Some(envelope)) => Some(place.settle(envelope, Fate::Acknowledged).number),
        Ok(None) | Err(_) => None,
    }
}

/// Takes a message and gives it back, and answers whether it did.
pub fn return_one<R: Wait>(rt: &R, group: &SharedGroup<'_>, place: &mut Place, turn: &Turn) -> bool
    requires place { IsPlaceOf group.now place.old }
    requires turn { turn.now.gate ≡ group.now.gate }
    ensures { IsPlaceOf group.now place.new }
{
    let Ok(Some(envelope)) = group.take(rt, place, turn) else {
        return false;
    };
    match group.give_back(rt, place, envelope) {
        Ok(()) => true,
        Err(envelope) => {
            place.settle(envelope, Fate::Refused);
            false
        }
    }
}

/// Takes a message back and refuses it, and answers its number.
fn refuse<R: Wait>(rt: &R, group: &SharedGroup<'_>, place: &mut Place, turn: &Turn) -> Option<u64>
    requires place { IsPlaceOf group.now place.old }
    requires turn { turn.now.gate ≡ group.now.gate }
    ensures { IsPlaceOf group.now place.new }
{
    match group.take_back(rt, place, turn) {
        Ok(Some(envelope)) => Some(place.settle(envelope, Fate::Refused).number),
        Ok(None) | Err(_) => None,
    }
}

/// What a run answered: the offers, the hand-outs, and what the places settled.
#[derive(Drop, PartialEq, Debug)]
struct Told {
    first: Result<u64, u16>,
    second: Result<u64, u16>,
    third: Result<u64, u16>,
    acknowledged: Option<u64>,
    is_returned: bool,
    refused: Option<u64>,
    is_empty: bool,
}

/// Offers three messages to a group with room for two, of which the near place acknowledges one, and gives back one that the
/// far place then refuses. The group is given up.
#[derive(Drop)]
struct Tell;

impl Life for Tell {
    type Told = Told;

    type End = Told;

    fn pass<R: Wait>(
        &self,
        rt: &R,
        alloc: Global,
        group: &SharedGroup<'_>,
        port: &mut Port,
        near: &mut Place,
        far: &mut Place,
        turn: &Turn,
    ) -> Told {
        let first = offer(rt, alloc, group, port, turn);
        let second = offer(rt, alloc, group, port, turn);
        let third = offer(rt, alloc, group, port, turn);
        let acknowledged = acknowledge(rt, group, near, turn);
        let is_returned = return_one(rt, group, near, turn);
        let refused = refuse(rt, group, far, turn);
        let far_is_empty = acknowledge(rt, group, far, turn).is_none();
        let near_is_empty = refuse(rt, group, near, turn).is_none();
        Told {
            first,
            second,
            third,
            acknowledged,
            is_returned,
            refused,
            is_empty: far_is_empty && near_is_empty,
        }
    }

    fn end<R: Wait>(
        &self,
        _rt: &R,
        _alloc: Global,
        _gate: &Gate,
        _seat: GateSeat,
        told: Told,
        opened: (SharedGroup<'_>, Vec<Port>, Vec<Place>),
    ) -> Option<Told> {
        let (group, ports, places) = opened;
        drop(ports);
        drop(places);
        group.abandon();
        Some(told)
    }
}

#[test]
fn group_ledger(rt: HostRuntime) -> Result<(), Fail> {
    let told = live(&rt, rt.alloc(), 2, &Tell).ok_or("a life")?;
    assert_same(
        &rt,
        &told,
        &Told {
            first: Ok(0),
            second: Ok(1),
            third: Err(501),
            acknowledged: Some(0),
            is_returned: true,
            refused: Some(1),
            is_empty: true,
        },
    );
    Ok(())
}
