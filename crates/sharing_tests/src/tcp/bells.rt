//! A worker that sleeps at its reactor is woken by a bell of another thread.
ghost use Rattle.std.specs.Prelude.{◌≡◌, IfSome};
ghost use Rattle.bell.specs.Calls.{AreListenersOf, AreRingersOf};

use bell::{Bell, Listener, Ringer};
use std::process::Abort;
use std::rt::Clock;
use std::sync::Wait;
use std::test::Fail;
use std::thread;
use std::time::{Duration, Instant};
use tcp_edge::{Alarm, Reactor};

/// The last of these listeners.
fn take_listener(bell: &Bell, listeners: &mut Vec<Listener>) -> Option<Listener>
    requires { AreListenersOf bell.now.word listeners.old.items }
    ensures { IfSome result (λ listener. listener.bell ≡ bell.now.word) }
{
    listeners.pop()
}

/// The last of these ringers.
fn take_ringer(bell: &Bell, ringers: &mut Vec<Ringer>) -> Option<Ringer>
    requires { AreRingersOf bell.now.word ringers.old.items }
    ensures { IfSome result (λ ringer. ringer.bell ≡ bell.now.word) }
{
    ringers.pop()
}

/// Settles, and waits where it may. Whether the alarm ended each wait.
fn sleep_until_rung<R: Wait + Abort>(
    rt: &R,
    bell: &Bell,
    mut listener: Listener,
    mut reactor: Reactor,
) -> bool
    requires { listener.bell ≡ bell.now.word }
{
    bell.listen(&mut listener);
    if !bell.settle(&mut listener) {
        return true;
    }
    match reactor.wait(rt, Duration::from_secs(50)) {
        Ok(rang) => rang,
        Err(_) => panic!(rt; "no wait"),
    }
}

/// Rings for one worker.
fn ring_later<R: Clock>(rt: &R, bell: &Bell, mut ringer: Ringer, alarms: &[Alarm; 1])
    requires { (ringer.bell ≡ bell.now.word) × (bell.now.workers ≡ 1) }
{
    thread::sleep(rt, Duration::from_millis(30));
    bell.ring(&mut ringer, 1, alarms);
}

#[test]
fn a_bell_wakes_who_sleeps_at_a_reactor(rt: HostRuntime) -> Result<(), Fail> {
    let (bell, mut listeners, mut ringers) = Bell::open(rt.alloc(), 1, 1)?;
    let listener = take_listener(&bell, &mut listeners).expect(&rt, "a listener");
    let ringer = take_ringer(&bell, &mut ringers).expect(&rt, "a ringer");
    let (reactor, alarm) = Reactor::open(&rt, rt.alloc())?;
    let alarms = [alarm];
    let start = Instant::now(&rt)?;
    let (rang, ()) = thread::join(
        &rt,
        || sleep_until_rung(&rt, &bell, listener, reactor),
        || ring_later(&rt, &bell, ringer, &alarms),
    );
    assert!(rt; rang);
    assert!(rt; start.elapsed(&rt)? < Duration::from_secs(20));
    Ok(())
}
