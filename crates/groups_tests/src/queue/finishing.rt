//! One group on one thread from its opening to its report: a port, two places and a gate.
ghost use Rattle.std.specs.Prelude.{◌≡◌, All, IfSome};
ghost use Rattle.group_queue.specs.Ports.{IsPortOf};
ghost use Rattle.group_queue.specs.Places.{IsPlaceOf};

use crate::asserting::assert_same;
use crate::queue::group_ledger::{acknowledge, return_one};
use crate::queue::life::{Life, live, take_place};
use crate::queue::reports::Wanted;
use crate::queue::row::{end, held_list, offer_four, spend, take_again};
use crate::queue::values::message;
use gate_word::{Gate, GateSeat, Turn};
use group_jobs::{Envelope, Report, Stamp};
use group_queue::{FinishError, Lack, Place, Port, SharedGroup, Unfinished};
use std::alloc::Global;
use std::sync::Wait;
use std::test::Fail;

/// Offers four messages. The near place acknowledges one and gives one back, the far one holds one.
#[derive(Drop)]
struct Work;

impl Life for Work {
    type Told = Option<Envelope>;

    type End = Ends;

    fn pass<R: Wait>(
        &self,
        rt: &R,
        alloc: Global,
        group: &SharedGroup<'_>,
        port: &mut Port,
        near: &mut Place,
        far: &mut Place,
        turn: &Turn,
    ) -> Option<Envelope> {
        offer_four(rt, alloc, group, port, turn);
        acknowledge(rt, group, near, turn);
        return_one(rt, group, near, turn);
        take_again(rt, group, far, turn)
    }

    fn end<R: Wait>(
        &self,
        rt: &R,
        alloc: Global,
        _gate: &Gate,
        _seat: GateSeat,
        taken: Option<Envelope>,
        opened: (SharedGroup<'_>, Vec<Port>, Vec<Place>),
    ) -> Option<Ends> {
        let (group, ports, places) = opened;
        let mut places = places;
        match take_place(&group, &mut places) {
            Some(far) => end_with(rt, alloc, group, ports, places, taken, far),
            None => {
                let held = held_list(alloc, taken);
                drop(end(rt, alloc, group, ports, places, held));
                None
            }
        }
    }
}

/// What the calls that end a group answered: without a place, with a stranger, and with all that there is.
#[derive(Drop)]
struct Ends {
    without: Option<FinishError>,
    beside: Option<FinishError>,
    report: Option<Report>,
}

/// Ends the group with all that there is.
fn end_at_last<R: Wait>(rt: &R, alloc: Global, whole: Unfinished<'_>) -> Option<Report>
    requires ports { All (IsPortOf whole.group) whole.ports.items }
    requires places { All (IsPlaceOf whole.group) whole.places.items }
{
    let Unfinished {
        error: _,
        group,
        ports,
        places,
        mut held,
    } = whole;
    if let Some(stranger) = held.pop() {
        spend(stranger);
    }
    match group.finish(rt, alloc, ports, places, held) {
        Ok(report) => Some(report),
        Err(unfinished) => {
            unfinished.abandon();
            None
        }
    }
}

/// Ends the group with an envelope too many, and then without.
fn end_with_stranger<R: Wait>(
    rt: &R,
    alloc: Global,
    whole: Unfinished<'_>,
    stranger: Envelope,
) -> Ends
    requires ports { All (IsPortOf whole.group) whole.ports.items }
    requires places { All (IsPlaceOf whole.group) whole.places.items }
{
    let Unfinished {
        error,
        group,
        ports,
        places,
        mut held,
    } = whole;
    if let Err(refused) = held.push(stranger) {
        spend(refused.value);
    }
    match group.finish(rt, alloc, ports, places, held) {
        Ok(report) => Ends {
            without: Some(error),
            beside: None,
            report: Some(report),
        },
        Err(unfinished) => {
            let beside = unfinished.error;
            Ends {
                without: Some(error),
                beside: Some(beside),
                report: end_at_last(rt, alloc, unfinished),
            }
        }
    }
}

/// Ends the group without its far place, with an envelope too many, and with all that there is.
fn end_thrice<R: Wait>(
    rt: &R,
    alloc: Global,
    whole: Unfinished<'_>,
    far: Place,
    stranger: Envelope,
) -> Option<Ends>
    requires ports { All (IsPortOf whole.group) whole.ports.items }
    requires places { All (IsPlaceOf whole.group) whole.places.items }
    requires far { IsPlaceOf whole.group far }
{
    let Unfinished {
        error: _,
        group,
        ports,
        places,
        held,
    } = whole;
    match group.finish(rt, alloc, ports, places, held) {
        Ok(report) => {
            drop(report);
            spend(stranger);
            None
        }
        Err(mut unfinished) => match unfinished.places.push(far) {
            Ok(()) => Some(end_with_stranger(rt, alloc, unfinished, stranger)),
            Err(refused) => {
                drop(refused);
                spend(stranger);
                unfinished.abandon();
                None
            }
        },
    }
}

/// An envelope of the fourth message, which the group never handed out.
fn stranger(alloc: Global) -> Option<Envelope> {
    let message = message(alloc, b"A")?;
    let stamp = Stamp {
        group: 0,
        port: 0,
        number: 3,
    };
    Some(Envelope::new(stamp, 1, message))
}

/// The same with the far place and the envelope that is out.
fn end_with<R: Wait>(
    rt: &R,
    alloc: Global,
    group: SharedGroup<'_>,
    ports: Vec<Port>,
    places: Vec<Place>,
    taken: Option<Envelope>,
    far: Place,
) -> Option<Ends>
    requires ports { All (IsPortOf group) ports.items }
    requires places { All (IsPlaceOf group) places.items }
    requires far { IsPlaceOf group far }
{
    let whole = Unfinished {
        error: FinishError::Memory,
        group,
        ports,
        places,
        held: held_list(alloc, taken),
    };
    match stranger(alloc) {
        Some(stranger) => end_thrice(rt, alloc, whole, far, stranger),
        None => {
            whole.abandon();
            None
        }
    }
}

#[test]
fn a_group_ends_with_a_report(rt: HostRuntime) -> Result<(), Fail> {
    let ends = live(&rt, rt.alloc(), 8, &Work).ok_or("a life")?;
    let missing = FinishError::Missing(Lack::Place(1));
    assert_same(&rt, &ends.without, &Some(missing));
    let stamp = Stamp {
        group: 0,
        port: 0,
        number: 3,
    };
    assert_same(&rt, &ends.beside, &Some(FinishError::Stranger(stamp)));
    let report = ends.report.ok_or("a report")?;
    Wanted::ONE_OF_EACH.compare(&rt, report);
    Ok(())
}
