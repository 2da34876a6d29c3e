//! One thread: that a bell opens, and whom a ring wakes.
ghost use Rattle.std.specs.Prelude.{◌≡◌, IfSome};
ghost use Rattle.bell.specs.Calls.{AreListenersOf, AreRingersOf};

use crate::asserting::assert_same;
use bell::{Bell, BellError, Call, Listener, MOST_WORKERS, Ringer, Wake};
use std::sync::atomic::{AtomicU64, Ordering};
use std::test::Fail;

/// Counts how often it was asked to wake.
#[derive(Drop)]
struct Count {
    wakes: AtomicU64,
}

impl Wake for Count {
    fn wake(&self) {
        self.wakes.fetch_add(1, Ordering::SeqCst);
    }
}

fn none() -> Count {
    Count {
        wakes: AtomicU64::new(0),
    }
}

/// How often each was asked to wake.
fn counted(counts: &[Count; 3]) -> [u64; 3] {
    [
        counts[0].wakes.load(Ordering::SeqCst),
        counts[1].wakes.load(Ordering::SeqCst),
        counts[2].wakes.load(Ordering::SeqCst),
    ]
}

/// The last of these listeners.
pub fn take_listener(bell: &Bell, listeners: &mut Vec<Listener>) -> Option<Listener>
    requires { AreListenersOf bell.now.word listeners.old.items }
    ensures listener { IfSome result (λ listener. listener.bell ≡ bell.now.word) }
    ensures others { AreListenersOf bell.now.word listeners.new.items }
{
    listeners.pop()
}

/// The last of these ringers.
pub fn take_ringer(bell: &Bell, ringers: &mut Vec<Ringer>) -> Option<Ringer>
    requires { AreRingersOf bell.now.word ringers.old.items }
    ensures ringer { IfSome result (λ ringer. ringer.bell ≡ bell.now.word) }
    ensures others { AreRingersOf bell.now.word ringers.new.items }
{
    ringers.pop()
}

/// A worker that finds no work: whether it may wait.
fn finds_nothing(bell: &Bell, listener: &mut Listener) -> bool
    requires { listener.old.bell ≡ bell.now.word }
    ensures { listener.new.bell ≡ listener.old.bell }
{
    bell.listen(listener);
    bell.settle(listener)
}

#[test]
fn a_ring_wakes_the_idle_ones_until_there_are_enough(rt: HostRuntime) -> Result<(), Fail> {
    let (bell, mut listeners, mut ringers) = Bell::open(rt.alloc(), 3, 1)?;
    let mut third = take_listener(&bell, &mut listeners).expect(&rt, "a third listener");
    let mut second = take_listener(&bell, &mut listeners).expect(&rt, "a second listener");
    let mut first = take_listener(&bell, &mut listeners).expect(&rt, "a first listener");
    let mut ringer = take_ringer(&bell, &mut ringers).expect(&rt, "a ringer");
    let wakers = [none(), none(), none()];
    assert_same(&rt, &bell.ring(&mut ringer, 3, &wakers), &0);
    assert!(rt; finds_nothing(&bell, &mut third));
    assert!(rt; finds_nothing(&bell, &mut second));
    assert!(rt; finds_nothing(&bell, &mut first));
    assert_same(&rt, &bell.ring(&mut ringer, 0, &wakers), &0);
    assert_same(&rt, &counted(&wakers), &[0, 0, 0]);
    assert_same(&rt, &bell.ring(&mut ringer, 2, &wakers), &2);
    assert_same(&rt, &counted(&wakers), &[1, 1, 0]);
    assert_same(&rt, &bell.ring(&mut ringer, 2, &wakers), &1);
    assert_same(&rt, &counted(&wakers), &[1, 1, 1]);
    Ok(())
}

#[test]
fn who_looks_for_work_hears_a_ring(rt: HostRuntime) -> Result<(), Fail> {
    let (bell, mut listeners, mut ringers) = Bell::open(rt.alloc(), 3, 1)?;
    let mut third = take_listener(&bell, &mut listeners).expect(&rt, "a third listener");
    let mut ringer = take_ringer(&bell, &mut ringers).expect(&rt, "a ringer");
    let wakers = [none(), none(), none()];
    bell.listen(&mut third);
    assert_same(&rt, &bell.ring(&mut ringer, 1, &wakers), &0);
    assert!(rt; !bell.settle(&mut third));
    assert!(rt; finds_nothing(&bell, &mut third));
    bell.listen(&mut third);
    assert_same(&rt, &bell.ring(&mut ringer, 1, &wakers), &0);
    assert_same(&rt, &counted(&wakers), &[0, 0, 0]);
    Ok(())
}

#[test]
fn who_listens_again_hears_the_ring_that_called_it(rt: HostRuntime) -> Result<(), Fail> {
    let (bell, mut listeners, mut ringers) = Bell::open(rt.alloc(), 3, 1)?;
    let mut third = take_listener(&bell, &mut listeners).expect(&rt, "a third listener");
    let mut ringer = take_ringer(&bell, &mut ringers).expect(&rt, "a ringer");
    let wakers = [none(), none(), none()];
    assert!(rt; finds_nothing(&bell, &mut third));
    assert_same(&rt, &bell.ring(&mut ringer, 1, &wakers), &1);
    assert!(rt; !bell.listen(&mut third));
    assert!(rt; bell.listen(&mut third));
    Ok(())
}

#[test]
fn a_bell_has_thirty_two_workers_at_most(rt: HostRuntime) {
    match Bell::open(rt.alloc(), MOST_WORKERS, 5) {
        Ok((_bell, listeners, ringers)) => {
            assert_same(&rt, &[listeners.len(), ringers.len()], &[32, 5]);
        }
        Err(BellError::Memory) => panic!(rt; "no memory"),
    }
}

fn crosses_threads<T: Send>() {}

fn is_shared_by_threads<T: Sync>() {}

#[test]
fn what_threads_may_do_with_it() {
    is_shared_by_threads::<Bell>();
    crosses_threads::<Bell>();
    crosses_threads::<Listener>();
    crosses_threads::<Ringer>();
    crosses_threads::<Call>();
}
