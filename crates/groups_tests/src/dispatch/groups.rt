//! Groups: two runs with returned jobs, each reason once, and that each call succeeds with ample memory.
use crate::asserting::{assert_items, assert_same};
use dispatch_core::{Event, Job, ReplayError, RoomError, Spot, State, StepError, Why, replay};
use std::alloc::Global;
use std::test::Fail;

/// The job of this port with this number.
fn job(port: u8, number: u64) -> Job {
    Job { port, number }
}

#[test]
fn returned_job(rt: HostRuntime) -> Result<(), Fail> {
    let first = job(2, 0);
    let state = replay(
        rt.alloc(),
        &[
            Event::Accept { port: 2 },
            Event::First {
                member: 0,
                job: first,
            },
            Event::Back {
                member: 0,
                job: first,
            },
            Event::Again {
                member: 1,
                job: first,
            },
        ],
    )?;
    assert_same(&rt, &state.spot(first), &Some(Spot::Held(1)));
    assert_items(&rt, state.firsts(0), [first].as_slice());
    assert!(rt; state.firsts(1).is_empty());
    assert_same(&rt, &state.accepted(2), &1);
    Ok(())
}

/// The state after these events, step by step.
fn after(alloc: Global, events: &[Event]) -> Option<State> {
    let mut state = State::new(alloc).ok()?;
    for event in events {
        state.step(*event).ok()?;
    }
    Some(state)
}

#[test]
fn returned_out_of_order(rt: HostRuntime) -> Result<(), Fail> {
    let first = job(2, 0);
    let second = job(2, 1);
    let state = after(
        rt.alloc(),
        &[
            Event::Accept { port: 2 },
            Event::First {
                member: 0,
                job: first,
            },
            Event::Accept { port: 2 },
            Event::First {
                member: 1,
                job: second,
            },
            Event::Back {
                member: 0,
                job: first,
            },
            Event::Again {
                member: 1,
                job: first,
            },
        ],
    )
    .ok_or("a state")?;
    assert_same(&rt, &state.spot(first), &Some(Spot::Held(1)));
    assert_same(&rt, &state.spot(second), &Some(Spot::Held(1)));
    assert_items(&rt, state.firsts(0), [first].as_slice());
    assert_items(&rt, state.firsts(1), [second].as_slice());
    Ok(())
}

#[test]
fn settled_after_close(rt: HostRuntime) -> Result<(), Fail> {
    let member = 31;
    let first = job(0, 0);
    let second = job(0, 1);
    let state = after(
        rt.alloc(),
        &[
            Event::Accept { port: 0 },
            Event::First { member, job: first },
            Event::Accept { port: 0 },
            Event::First {
                member,
                job: second,
            },
            Event::Close,
            Event::Ack { member, job: first },
            Event::Refuse {
                member,
                job: second,
            },
            Event::Close,
        ],
    )
    .ok_or("a state")?;
    assert!(rt; state.closed());
    assert_same(&rt, &state.spot(first), &Some(Spot::Acked(31)));
    assert_same(&rt, &state.spot(second), &Some(Spot::Refused(31)));
    assert_same(&rt, &state.spot(job(0, 2)), &None);
    Ok(())
}

// A job that was handed out is discarded, after the close too.
#[test]
fn discarded_after_close(rt: HostRuntime) -> Result<(), Fail> {
    let member = 4;
    let job = job(5, 0);
    let state = after(
        rt.alloc(),
        &[
            Event::Accept { port: 5 },
            Event::First { member, job },
            Event::Close,
            Event::Discard { member, job },
        ],
    )
    .ok_or("a state")?;
    assert_same(&rt, &state.spot(job), &Some(Spot::Discarded(4)));
    assert_items(&rt, state.firsts(4), [job].as_slice());
    Ok(())
}

// What was discarded is handed to nobody, and neither settled again nor given back.
#[test]
fn discarded_for_good(rt: HostRuntime) -> Result<(), Fail> {
    let member = 4;
    let job = job(5, 0);
    let events = [
        Event::Accept { port: 5 },
        Event::First { member, job },
        Event::Discard { member, job },
    ];
    let mut state = after(rt.alloc(), &events).ok_or("a state")?;
    for (event, why) in [
        (Event::First { member: 3, job }, Why::NotQueued),
        (Event::Again { member: 3, job }, Why::NotReturned),
        (Event::Discard { member, job }, Why::NotHeld),
        (Event::Ack { member, job }, Why::NotHeld),
        (Event::Refuse { member, job }, Why::NotHeld),
        (Event::Back { member, job }, Why::NotHeld),
    ] {
        assert_same(&rt, &state.step(event), &Err(StepError::Stuck { why }));
    }
    assert_same(&rt, &state.spot(job), &Some(Spot::Discarded(4)));
    Ok(())
}

/// Where a replay of these events stops, and why.
fn stop(alloc: Global, events: [Event; 3]) -> Option<(usize, Why)> {
    match replay(alloc, &events) {
        Err(ReplayError::Stuck { at, why }) => Some((at, why)),
        _ => None,
    }
}

#[test]
fn reasons_of_hand_outs(rt: HostRuntime) {
    let accept = Event::Accept { port: 0 };
    let first = |number| Event::First {
        member: 3,
        job: job(0, number),
    };
    let elsewhere = Event::Accept { port: 64 };
    let stranger = Event::First {
        member: 32,
        job: job(0, 0),
    };
    for (events, at, why) in [
        ([accept, Event::Close, elsewhere], 2, Why::Range),
        ([accept, accept, stranger], 2, Why::Range),
        ([accept, Event::Close, accept], 2, Why::Closed),
        ([Event::Close, first(7), accept], 1, Why::Closed),
        ([accept, first(1), accept], 1, Why::NotQueued),
        ([accept, first(0), first(0)], 2, Why::NotQueued),
        ([accept, accept, first(1)], 2, Why::NotOldest),
    ] {
        assert_same(&rt, &stop(rt.alloc(), events), &Some((at, why)));
    }
}

#[test]
fn reasons_of_holders(rt: HostRuntime) {
    let accept = Event::Accept { port: 0 };
    let job = job(0, 0);
    let first = Event::First { member: 3, job };
    for (event, why) in [
        (Event::Ack { member: 4, job }, Why::NotHeld),
        (Event::Refuse { member: 4, job }, Why::NotHeld),
        (Event::Discard { member: 4, job }, Why::NotHeld),
        (Event::Back { member: 4, job }, Why::NotHeld),
        (Event::Again { member: 3, job }, Why::NotReturned),
    ] {
        assert_same(
            &rt,
            &stop(rt.alloc(), [accept, first, event]),
            &Some((2, why)),
        );
    }
}

#[test]
fn numbers_of_refusals(rt: HostRuntime) {
    let why = Why::Closed;
    for (number, wanted) in [
        (StepError::Stuck { why }.number(), 301),
        (ReplayError::Stuck { at: 4, why }.number(), 301),
        (StepError::Memory.number(), 302),
        (ReplayError::Memory { at: 4 }.number(), 302),
        (ReplayError::NoState.number(), 302),
        (RoomError::Memory.number(), 302),
    ] {
        assert_same(&rt, &number, &wanted);
    }
}

#[test]
fn names_in_events(rt: HostRuntime) {
    let job = job(3, 9);
    for event in [
        Event::First { member: 2, job },
        Event::Ack { member: 2, job },
        Event::Refuse { member: 2, job },
        Event::Discard { member: 2, job },
        Event::Back { member: 2, job },
        Event::Again { member: 2, job },
    ] {
        assert_same(&rt, &event.job(), &Some(job));
        assert_same(&rt, &event.member(), &Some(2));
    }
    for event in [Event::Accept { port: 3 }, Event::Close] {
        assert_same(&rt, &event.job(), &None);
        assert_same(&rt, &event.member(), &None);
    }
}
