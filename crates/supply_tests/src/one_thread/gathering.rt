//! Two places in turn settle what one port accepted: each other number is the other place's, so each settled job is a run of its own in its docket.
ghost use Rattle.std.specs.Prelude.{◌≡◌, [], true};
ghost use Rattle.broker_groups.specs.Outs.{HasOut};

use crate::broker::calls::{acknowledge, offer};
use crate::broker::ending::Counts;
use crate::broker::worker::{Shift, work_alone};
use broker_groups::{Broker, BrokerPlace, Key};
use conn_supply::Supply;
use gate_word::Gate;
use std::alloc::Global;
use std::test::Fail;

/// How many jobs each place settles.
const JOBS: u32 = 100;

/// How many runs the dockets of two places have at the end.
#[derive(Drop)]
struct Runs {
    near: usize,
    far: usize,
}

/// Two jobs are offered; each place is handed one of them, and acknowledges it.
fn turn<B: Broker, S: Supply<BrokerPlace<B>>>(
    alloc: Global,
    supply: &mut S,
    near: &mut BrokerPlace<B>,
    far: &mut BrokerPlace<B>,
)
    requires near { HasOut near.old [] }
    requires far { HasOut far.old [] }
    ensures near { HasOut near.new [] }
    ensures far { HasOut far.new [] }
{
    if supply.begin() {
        let _first = offer(alloc, supply);
        let _second = offer(alloc, supply);
        let _first = acknowledge(supply, near);
        let _second = acknowledge(supply, far);
        supply.end();
    }
}

/// So many turns of each of two places, which go back to the desk.
fn turns<B: Broker, S: Supply<BrokerPlace<B>>>(alloc: Global, supply: &mut S) -> Option<Runs> {
    let mut near = supply.lend_place(0)?;
    let mut far = supply.lend_place(0)?;
    'turns: for _ in 0..JOBS {
        turn(alloc, supply, &mut near, &mut far);
    }
    let runs = Runs {
        near: near.docket().settled().run_count(),
        far: far.docket().settled().run_count(),
    };
    supply.take_place(near);
    supply.take_place(far);
    Some(runs)
}

impl Shift for Runs {
    fn work<B: Broker, S: Supply<BrokerPlace<B>>>(
        &mut self,
        alloc: Global,
        supply: &mut S,
        gate: &Gate,
        spare: Key<B>,
    ) {
        let _ = gate;
        drop(spare);
        if let Some(runs) = turns(alloc, supply) {
            *self = runs;
        }
    }
}

// Each docket gathers its first 64 runs, and keeps the 36 after them; the report has them all.
#[test]
fn a_full_docket_is_gathered(rt: HostRuntime) -> Result<(), Fail> {
    let mut runs = Runs { near: 0, far: 0 };
    let counts = work_alone(&rt, rt.alloc(), 8, &mut runs).ok_or("a day")?;
    let all = Counts {
        accepted: 200,
        acknowledged: 200,
        ..Counts::NOTHING
    };
    assert_eq!(rt; (runs.near, runs.far), (36, 36));
    assert_eq!(rt; counts.last(), Some(&all));
    Ok(())
}
