//! Workers in threads of their own wait for jobs that another thread offers. Where a ring were slept through, the run
//! would not end.
ghost use Rattle.std.specs.Prelude.{◌≡◌, ◌<◌};
ghost use Rattle.std.specs.Thread.{IsSync};

use crate::asserting::assert_same;
use crate::bells::one_thread::{take_listener, take_ringer};
use bell::{Bell, Listener, Ringer, Wake};
use std::sync::Wait;
use std::sync::atomic::{AtomicBool, AtomicU64, Ordering};
use std::test::Fail;
use std::thread;
use std::thread::{Parker, Threads};

/// How many jobs are offered.
const JOBS: u64 = 2_000;

/// Wakes a worker that is parked.
#[derive(Drop)]
struct Bed {
    parker: Parker,
}

impl Wake for Bed {
    fn wake(&self) {
        self.parker.unpark();
    }
}

/// What the threads of a run share.
#[derive(Drop)]
struct Shop {
    beds: [Bed; 2],
    offered: AtomicU64,
    closed: AtomicBool,
    done: AtomicU64,
}

impl Shop {
    /// Takes a job, if there is one.
    fn take(&self) -> bool {
        let offered = self.offered.load(Ordering::SeqCst);
        offered > 0
            && self
                .offered
                .compare_exchange(offered, offered - 1, Ordering::SeqCst, Ordering::SeqCst)
                .is_ok()
    }
}

/// Does jobs until there are none and the shop is closed. Waits while there are none.
fn work(rt: &impl Wait, bell: &Bell, mut listener: Listener, shop: &Shop, worker: usize)
    requires { (listener.bell ≡ bell.now.word) × (worker < 2) }
{
    'rounds: for _ in rt.forever() {
        bell.listen(&mut listener);
        let closed = shop.closed.load(Ordering::SeqCst);
        if shop.take() {
            shop.done.fetch_add(1, Ordering::SeqCst);
        } else if shop.offered.load(Ordering::SeqCst) == 0 {
            if closed {
                return;
            }
            if bell.settle(&mut listener) {
                shop.beds[worker].parker.park(rt);
            }
        }
    }
}

/// Offers all jobs, one by one, and closes.
fn offer(bell: &Bell, mut ringer: Ringer, shop: &Shop)
    requires { (ringer.bell ≡ bell.now.word) × (bell.now.workers ≡ 2) }
{
    'offers: for number in 0..JOBS {
        shop.offered.fetch_add(1, Ordering::SeqCst);
        bell.ring(&mut ringer, 1, &shop.beds);
        if number % 8 == 0 {
            thread::yield_now();
        }
    }
    shop.closed.store(true, Ordering::SeqCst);
    bell.ring(&mut ringer, 2, &shop.beds);
}

/// A worker and one that offers, each in a thread of its own.
fn work_and_offer<R: Threads + Wait + Sync>(
    rt: &R,
    bell: &Bell,
    listener: Listener,
    ringer: Ringer,
    shop: &Shop,
)
    requires { (listener.bell ≡ bell.now.word) × (ringer.bell ≡ bell.now.word) × (bell.now.workers ≡ 2) }
{
    thread::join(
        rt,
        || work(rt, bell, listener, shop, 1),
        || offer(bell, ringer, shop),
    );
}

/// Two workers and one that offers, each in a thread of its own. How many jobs were done.
fn run<R: Threads + Wait + Sync>(
    rt: &R,
    bell: &Bell,
    first: Listener,
    second: Listener,
    ringer: Ringer,
) -> u64
    requires { (first.bell ≡ bell.now.word) × (second.bell ≡ bell.now.word) × (ringer.bell ≡ bell.now.word) × (bell.now.workers ≡ 2) }
{
    let shop = Shop {
        beds: [
            Bed {
                parker: Parker::new(),
            },
            Bed {
                parker: Parker::new(),
            },
        ],
        offered: AtomicU64::new(0),
        closed: AtomicBool::new(false),
        done: AtomicU64::new(0),
    };
    let shared = &shop;
    thread::join(
        rt,
        || work(rt, bell, first, shared, 0),
        ||
            requires { IsSync R.row × (second.bell ≡ bell.now.word) × (ringer.bell ≡ bell.now.word) × (bell.now.workers ≡ 2) }
        { work_and_offer(rt, bell, second, ringer, shared) },
    );
    shop.done.load(Ordering::SeqCst)
}

#[test]
fn no_ring_is_slept_through(rt: HostRuntime) -> Result<(), Fail> {
    let (bell, mut listeners, mut ringers) = Bell::open(rt.alloc(), 2, 1)?;
    let second = take_listener(&bell, &mut listeners).expect(&rt, "a second listener");
    let first = take_listener(&bell, &mut listeners).expect(&rt, "a first listener");
    let ringer = take_ringer(&bell, &mut ringers).expect(&rt, "a ringer");
    assert_same(&rt, &run(&rt, &bell, first, second, ringer), &JOBS);
    Ok(())
}
