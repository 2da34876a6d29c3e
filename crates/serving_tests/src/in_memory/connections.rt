//! Connections in memory: what waits for them, what wakes a worker, and where workers meet.
ghost use Rattle.std.specs.Prelude.{◌≡◌, None, ⊤};

use bell::Wake;
use scripted_transport::Scripted;
use std::alloc::{AllocError, Global};
use std::marker::PhantomData;
use std::rt::Clock;
use std::sync::Wait;
use std::sync::atomic::{AtomicU64, Ordering};
use std::thread;
use std::time::Duration;
use transport::{Crossing, Source};
use worker_connections::{Notice, Poller, Tallies, Woken};
use worker_pool::{Network, Watch};

/// How many connections a poller watches at most.
const MOST: usize = 16;

/// A poller of connections that may be read and written at any time: it never waits, and its worker is always called. Workers meet before each write.
#[derive(Drop)]
pub(crate) struct AlwaysReady<'a, R> {
    meeting: &'a Meeting<'a, R>,
    watched: Vec<bool>,
    next: usize,
}

impl<'a, R> AlwaysReady<'a, R> {
    /// One that watches nothing yet.
    pub(crate) fn new(
        alloc: Global,
        meeting: &'a Meeting<'a, R>,
    ) -> Result<AlwaysReady<'a, R>, AllocError> {
        Ok(AlwaysReady {
            meeting,
            watched: vec![in alloc; false; MOST]?,
            next: 0,
        })
    }

    /// The least number that is free.
    fn least_free(&self) -> Option<usize> {
        for number in 0..self.watched.len() {
            if self.watched.get(number) == Some(&false) {
                return Some(number);
            }
        }
        None
    }

    /// Notes whether something is watched under this number.
    fn note(&mut self, number: usize, is_watched: bool) {
        if let Some(watched) = self.watched.get_mut(number) {
            *watched = is_watched;
        }
    }
}

impl<'a, R: Clock> Crossing for AlwaysReady<'a, R> {
    ghost refuses = { λ _ _ _. ⊤ };

    fn cross(&self, worker: u32, _turn: u32) -> bool {
        self.meeting.lets_pass(worker)
    }
}

impl<'a, R: Clock> Poller<Scripted> for AlwaysReady<'a, R> {
    type Alarm = Silent;

    ghost poller_calls = { λ _. None };

    fn register(&mut self, transport: &mut Scripted) -> Option<usize> {
        let _ = transport;
        let number = self.least_free()?;
        self.note(number, true);
        Some(number)
    }

    fn close(&mut self, number: Option<usize>, transport: Scripted) {
        drop(transport);
        if let Some(number) = number {
            self.note(number, false);
        }
    }

    fn notice(&mut self, _number: usize, _notice: &Notice<'_>) {}

    fn wait<W: Wait>(&mut self, _rt: &W, _at_most: u64, _told: &Tallies<'_>) -> Woken {
        self.next = 0;
        thread::yield_now();
        Woken {
            called: true,
            now: 0,
            drains: false,
        }
    }

    fn take_ready(&mut self) -> Option<usize> {
        for number in self.next..self.watched.len() {
            if self.watched.get(number) == Some(&true) {
                self.next = number.saturating_add(1);
                return Some(number);
            }
        }
        None
    }
}

/// Connections in memory, which come from a source of this kind.
pub(crate) struct InMemory<'a, S, R> {
    source: PhantomData<S>,
    clock: PhantomData<&'a R>,
}

impl<'a, S: Source<Scripted> + Drop + Send, R: Clock + Sync> Network for InMemory<'a, S, R> {
    type Transport = Scripted;

    type Source = S;

    type Alarm = Silent;

    type Poller = AlwaysReady<'a, R>;
}

/// What wakes nobody, since nobody waits.
#[derive(Drop)]
pub(crate) struct Silent;

impl Wake for Silent {
    fn wake(&self) {}
}

/// What watches for nothing: the source ends by itself.
#[derive(Drop)]
pub(crate) struct NothingToWatch;

impl Watch for NothingToWatch {
    type Input = ();

    fn run(&mut self, _input: &mut ()) {}
}

/// Where workers meet: it lets none of them pass, pausing a millisecond, until all have asked.
#[derive(Drop)]
pub(crate) struct Meeting<'a, R> {
    rt: &'a R,
    asked: AtomicU64,
    all: u64,
}

impl<'a, R: Clock> Meeting<'a, R> {
    /// One of so many workers, numbered from 0 on.
    pub(crate) fn new(rt: &'a R, workers: u8) -> Meeting<'a, R> {
        Meeting {
            rt,
            asked: AtomicU64::new(0),
            all: bit_of(u32::from(workers)).wrapping_sub(1),
        }
    }

    /// Whether this worker may pass.
    fn lets_pass(&self, worker: u32) -> bool {
        let own = bit_of(worker);
        let asked = self.asked.fetch_or(own, Ordering::SeqCst) | own;
        if asked == self.all {
            return true;
        }
        thread::sleep(self.rt, Duration::from_millis(1));
        false
    }
}

/// The bit of a worker, of the first 64.
fn bit_of(worker: u32) -> u64 {
    1u64.checked_shl(worker).unwrap_or(0)
}
