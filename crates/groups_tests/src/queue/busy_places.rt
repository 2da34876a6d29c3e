//! A group of which every place settled many messages ends with its report, and with no more room than what the places kept.
ghost use Rattle.std.specs.Prelude.{◌≡◌, All};
ghost use Rattle.group_queue.specs.Ports.{IsPortOf};
ghost use Rattle.group_queue.specs.Places.{IsPlaceOf};

use crate::asserting::assert_same;
use crate::queue::group_ledger::{acknowledge, offer};
use crate::queue::life::{open_gate, put_place, put_port, take_place, take_port};
use crate::queue::row::end;
use gate_word::{Gate, GateSeat, Turn};
use group_jobs::Report;
use group_queue::{Place, Port, SharedGroup};
use std::alloc::Global;
use std::process::Abort;
use std::sync::Wait;
use std::test::Fail;

/// How many places a group has.
const PLACES: u8 = 32;

/// Each place takes a message and acknowledges it, one after another, so that the numbers of each are apart.
fn round<R: Wait>(
    rt: &R,
    alloc: Global,
    group: &SharedGroup<'_>,
    port: &mut Port,
    places: Vec<Place>,
    turn: &Turn,
) -> Vec<Place>
    requires port { IsPortOf group.now port.old }
    requires places { All (IsPlaceOf group.now) places.items }
    requires turn { turn.now.gate ≡ group.now.gate }
    ensures port { IsPortOf group.now port.new }
    ensures places { All (IsPlaceOf group.now) result.items }
{
    let mut places = places;
    let mut done = Vec::new(alloc);
    'places: for _ in 0..PLACES {
        if let Some(mut place) = take_place(group, &mut places) {
            let _offered = offer(rt, alloc, group, port, turn);
            let _number = acknowledge(rt, group, &mut place, turn);
            put_place(group, &mut done, place);
        }
    }
    done
}

/// So many rounds.
fn work<R: Wait>(
    rt: &R,
    alloc: Global,
    group: &SharedGroup<'_>,
    port: &mut Port,
    places: Vec<Place>,
    turn: &Turn,
    rounds: u32,
) -> Vec<Place>
    requires port { IsPortOf group.now port.old }
    requires places { All (IsPlaceOf group.now) places.items }
    requires turn { turn.now.gate ≡ group.now.gate }
    ensures port { IsPortOf group.now port.new }
    ensures places { All (IsPlaceOf group.now) result.items }
{
    let mut places = places;
    'rounds: for _ in 0..rounds {
        places = round(rt, alloc, group, port, places, turn);
    }
    places
}

/// In how many runs all places keep what they settled.
fn runs_of(places: &[Place]) -> usize {
    let mut runs: usize = 0;
    for place in places {
        runs = runs.saturating_add(place.docket().settled().run_count());
    }
    runs
}

/// In how many runs the places kept what they settled, and the report.
#[derive(Drop)]
struct Told {
    runs: usize,
    report: Report,
}

/// A group with 32 places, which has a turn of its gate.
fn live_in<R: Wait>(
    rt: &R,
    alloc: Global,
    gate: &Gate,
    seat: GateSeat,
    opened: (SharedGroup<'_>, Vec<Port>, Vec<Place>),
    rounds: u32,
) -> Option<Told>
    requires seat { seat.gate ≡ gate.now }
    requires gate { opened.0.gate ≡ gate.now }
    requires ports { All (IsPortOf opened.0) opened.1.items }
    requires places { All (IsPlaceOf opened.0) opened.2.items }
{
    let (group, mut ports, mut places) = opened;
    if let Ok(turn) = gate.enter(seat) {
        if let Some(mut port) = take_port(&group, &mut ports) {
            places = work(rt, alloc, &group, &mut port, places, &turn, rounds);
            put_port(&group, &mut ports, port);
        }
        gate.leave(turn);
    }
    let runs = runs_of(&places);
    let report = end(rt, alloc, group, ports, places, Vec::new(alloc))?;
    Some(Told { runs, report })
}

/// The life of a group with 32 places, each of which settles so many messages.
fn live<R: Wait>(rt: &R, alloc: Global, rounds: u32) -> Option<Told> {
    let (gate, seat) = open_gate(alloc)?;
    match SharedGroup::open(alloc, &gate, 0, 1, PLACES, 1) {
        Ok(opened) => live_in(rt, alloc, &gate, seat, opened, rounds),
        Err(_) => None,
    }
}

/// A report says that all messages of so many rounds were acknowledged. The places kept them in many runs, and the report has no
/// more room than for twice as many.
fn assert_whole(rt: &impl Abort, told: &Told, rounds: u32) {
    let messages = u128::from(rounds) * u128::from(PLACES);
    assert_same(rt, &told.report.settled.acknowledged.len(), &messages);
    assert!(rt; told.report.settled.refused.is_empty());
    assert!(rt; told.report.settled.discarded.is_empty());
    assert!(rt; u128::from(rounds) <= told.runs as u128);
    assert!(rt; told.report.settled.acknowledged.spare() as u128 <= 2 * (told.runs as u128));
    assert!(rt; told.report.settled.refused.spare() as u128 <= 2 * (told.runs as u128));
    assert!(rt; told.report.settled.discarded.spare() as u128 <= 2 * (told.runs as u128));
}

#[test]
fn thirty_two_places_that_settled_few(rt: HostRuntime) -> Result<(), Fail> {
    let told = live(&rt, rt.alloc(), 10).ok_or("a report")?;
    assert_whole(&rt, &told, 10);
    Ok(())
}

#[test]
fn thirty_two_places_that_settled_a_thousand_each(rt: HostRuntime) -> Result<(), Fail> {
    let told = live(&rt, rt.alloc(), 1_000).ok_or("a report")?;
    assert_whole(&rt, &told, 1_000);
    Ok(())
}

#[test]
fn thirty_two_places_that_settled_a_hundred_thousand(rt: HostRuntime) -> Result<(), Fail> {
    let told = live(&rt, rt.alloc(), 3_125).ok_or("a report")?;
    assert_whole(&rt, &told, 3_125);
    Ok(())
}
