//! Many threads visit a gate while one shuts it: nobody is inside after a look found it drained.
ghost use Rattle.std.specs.Prelude.{◌≡◌};
ghost use Rattle.gate_word.specs.Seats.{AreSeatsOf};

use crate::asserting::assert_same;
use crate::gates::one_thread::take_seat;
use gate_word::{Gate, GateSeat};
use std::sync::Wait;
use std::sync::atomic::{AtomicBool, AtomicU64, Ordering};
use std::test::Fail;
use std::thread;
use std::thread::Threads;

/// How often a visitor tries at most.
const VISITS: u64 = 100_000;

/// How many visits the run waits for before it shuts the gate.
const WARM: u64 = 1_000;

/// What the threads of a run share.
#[derive(Drop)]
struct Tally {
    /// How many visits were counted, each of them inside the gate.
    visits: AtomicU64,
    /// The visitors are gone: they had all their tries, were refused, or never came for lack of memory.
    gone: AtomicBool,
}

/// Visits the gate and counts each visit, while inside, until the gate is shut.
fn visit_often(gate: &Gate, mut seat: GateSeat, tally: &Tally)
    requires { seat.gate ≡ gate.now }
{
    'visits: for _ in 0..VISITS {
        match gate.enter(seat) {
            Ok(turn) => {
                tally.visits.fetch_add(1, Ordering::SeqCst);
                seat = gate.leave(turn);
            }
            Err(_) => return,
        }
    }
}

/// Lets four visitors visit often, each in a thread of its own. Whether there was memory for them.
fn visit_all<R: Threads + Sync>(rt: &R, gate: &Gate, seats: Vec<GateSeat>, tally: &Tally) -> bool
    requires { AreSeatsOf gate.now seats.items }
{
    let visited = thread::map_vec(
        rt,
        seats,
        &|seat: GateSeat|
            requires { seat.gate ≡ gate.now }
        { visit_often(gate, seat, tally) },
    );
    tally.gone.store(true, Ordering::SeqCst);
    visited.is_ok()
}

/// Waits until enough visits were counted, or the visitors are gone.
fn warm_up(rt: &impl Wait, tally: &Tally) {
    for _ in rt.forever() {
        if tally.visits.load(Ordering::SeqCst) >= WARM || tally.gone.load(Ordering::SeqCst) {
            break;
        }
        thread::yield_now();
    }
}

/// Shuts the gate after some visits, waits until nobody is inside, and says how many visits were counted by then.
fn close(rt: &impl Wait, gate: &Gate, mut seat: GateSeat, tally: &Tally) -> u64
    requires { seat.gate ≡ gate.now }
{
    warm_up(rt, tally);
    gate.shut(&mut seat);
    'looks: for _ in rt.forever() {
        if gate.drained(&mut seat).is_some() {
            break;
        }
        thread::yield_now();
    }
    tally.visits.load(Ordering::SeqCst)
}

/// Four threads visit the gate while this one shuts it. The visits at the moment that it was drained, and in the end.
fn run<R: Threads + Wait + Sync>(
    rt: &R,
    gate: &Gate,
    seat: GateSeat,
    visitors: Vec<GateSeat>,
) -> Option<(u64, u64)>
    requires seat { seat.gate ≡ gate.now }
    requires visitors { AreSeatsOf gate.now visitors.items }
{
    let tally = Tally {
        visits: AtomicU64::new(0),
        gone: AtomicBool::new(false),
    };
    let (visited, at_close) = thread::join(
        rt,
        || -> bool
            requires { AreSeatsOf gate.now visitors.items }
        { visit_all(rt, gate, visitors, &tally) },
        || close(rt, gate, seat, &tally),
    );
    if !visited {
        return None;
    }
    Some((at_close, tally.visits.load(Ordering::SeqCst)))
}

#[test]
fn nobody_is_counted_after_drained(rt: HostRuntime) -> Result<(), Fail> {
    let (gate, mut seats) = Gate::open(rt.alloc(), 5)?;
    let seat = take_seat(&gate, &mut seats).ok_or("a seat to shut with")?;
    let (at_close, in_the_end) = run(&rt, &gate, seat, seats).ok_or("memory for threads")?;
    assert!(rt; at_close >= WARM);
    assert_same(&rt, &at_close, &in_the_end);
    Ok(())
}
