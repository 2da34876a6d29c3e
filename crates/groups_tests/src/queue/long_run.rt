//! Many messages through one port: more than 16 bits count.
ghost use Rattle.std.specs.Prelude.{◌≡◌};
ghost use Rattle.group_queue.specs.Ports.{IsPortOf};
ghost use Rattle.group_queue.specs.Places.{IsPlaceOf};

use crate::asserting::assert_same;
use crate::queue::group_ledger::{acknowledge, offer};
use crate::queue::life::{Life, live};
use crate::queue::reports::Wanted;
use crate::queue::row::end;
use gate_word::{Gate, GateSeat, Turn};
use group_jobs::Report;
use group_queue::{Place, Port, SharedGroup};
use std::alloc::Global;
use std::sync::Wait;
use std::test::Fail;

/// How many messages are offered.
const OFFERS: u32 = 70_000;

/// Offers messages, each of which is acknowledged before the next, and answers the number of the last.
fn offer_all<R: Wait>(
    rt: &R,
    alloc: Global,
    group: &SharedGroup<'_>,
    port: &mut Port,
    place: &mut Place,
    turn: &Turn,
) -> Option<u64>
    requires port { IsPortOf group.now port.old }
    requires place { IsPlaceOf group.now place.old }
    requires turn { turn.now.gate ≡ group.now.gate }
    ensures port { IsPortOf group.now port.new }
    ensures place { IsPlaceOf group.now place.new }
{
    let mut last = None;
    'offers: for _ in 0..OFFERS {
        if offer(rt, alloc, group, port, turn).is_ok() {
            last = acknowledge(rt, group, place, turn);
        }
    }
    last
}

/// The number of the last message, how many the port accepted, and in how many runs the docket of the place keeps them.
#[derive(Clone, Copy, PartialEq, Debug)]
struct Told {
    last: Option<u64>,
    accepted: u64,
    run_count: usize,
}

/// All messages go by way of the near place.
#[derive(Drop)]
struct LongRun;

impl Life for LongRun {
    type Told = Told;

    type End = (Told, Report);

    fn pass<R: Wait>(
        &self,
        rt: &R,
        alloc: Global,
        group: &SharedGroup<'_>,
        port: &mut Port,
        near: &mut Place,
        _far: &mut Place,
        turn: &Turn,
    ) -> Told {
        let last = offer_all(rt, alloc, group, port, near, turn);
        Told {
            last,
            accepted: port.accepted(),
            run_count: near.docket().settled().run_count(),
        }
    }

    fn end<R: Wait>(
        &self,
        rt: &R,
        alloc: Global,
        _gate: &Gate,
        _seat: GateSeat,
        told: Told,
        opened: (SharedGroup<'_>, Vec<Port>, Vec<Place>),
    ) -> Option<(Told, Report)> {
        let (group, ports, places) = opened;
        match end(rt, alloc, group, ports, places, Vec::new(alloc)) {
            Some(report) => Some((told, report)),
            None => None,
        }
    }
}

#[test]
fn seventy_thousand_messages(rt: HostRuntime) -> Result<(), Fail> {
    let (told, report) = live(&rt, rt.alloc(), 1, &LongRun).ok_or("a life")?;
    let wanted = Told {
        last: Some(69_999),
        accepted: 70_000,
        run_count: 1,
    };
    assert_same(&rt, &told, &wanted);
    let wanted = Wanted {
        accepted: &[70_000],
        acknowledged: 70_000,
        held: &[],
        queued: &[],
        returned: &[],
    };
    wanted.compare(&rt, report);
    Ok(())
}
