//! How a broker is told to end: its input ends, and then it drains, where it is to do so.
ghost use Rattle.std.specs.Prelude.{◌≡◌, true};
ghost use Rattle.std.specs.Io.KnownBytes.{IsAtEnd};

use crate::drain::Drain;
use broker_groups::Broker;
use broker_log::{Level, Log};
use std::alloc::Global;
use std::io::{ErrorKind, Read};
use std::marker::PhantomData;
use std::rt::Clock as SystemClock;
use std::sync::atomic::{AtomicBool, Ordering};
use std::thread;
use std::time::{Duration, Instant};
use worker_pool::{Closer, Watch};

/// How many bytes of the input a read asks for; what they are does not count.
const INPUT_SIZE: usize = 4_096;

/// How many milliseconds after the end of the input the broker closes. A worker goes on with each of its connections at least every 50 milliseconds, so what
/// clients had acknowledged by the end of the input is read before the close as a rule, and counts as acknowledged.
const CLOSE_DELAY: u64 = 100;

/// How many milliseconds lie between two looks whether all is settled.
const DRAIN_LOOK: u64 = 10;

/// In how many milliseconds a read answers that did not wait.
const AT_ONCE: u128 = 10;

/// How a drain came to its end.
#[derive(Clone, Copy, Debug, PartialEq, Eq)]
enum DrainEnd {
    /// The broker was not to drain.
    NotAsked,
    /// All that was accepted is settled.
    Settled,
    /// Its time is over, or the clock can't be read.
    Over,
    /// The broker was closed meanwhile.
    Closed,
}

/// How a broker drains.
#[derive(Clone, Copy)]
pub(crate) struct DrainSettings {
    /// How many workers there are, which all have to have settled what they accepted.
    pub(crate) workers: u8,
    /// For how many seconds at most; 0 where it does not drain.
    pub(crate) seconds: u32,
}

/// Reads the input to its end, has the broker drain, and closes it soon after that.
#[derive(Drop)]
pub(crate) struct Watching<'a, B: Broker, R, I> {
    pub(crate) rt: &'a R,
    pub(crate) stopper: Closer<'a, B>,
    pub(crate) ends: &'a AtomicBool,
    pub(crate) drain: &'a Drain,
    pub(crate) settings: DrainSettings,
    pub(crate) alloc: Global,
    pub(crate) log: &'a Log,
    /// Whether the input has ended, and did not fail.
    pub(crate) is_read: bool,
    pub(crate) input: PhantomData<I>,
}

impl<'a, B: Broker + Send + Sync, R: SystemClock + Sync, I: Read + Send> Watch
    for Watching<'a, B, R, I> {
    ghost use Rattle.std.specs.Prelude.{◌≡◌, true};
    ghost use Rattle.std.specs.Io.KnownBytes.{IsAtEnd};

    type Input = I;

    ghost has_watched = { λ old new before after. new.is_read ≡ true → IsAtEnd (I.remaining after) };

    fn run(&mut self, input: &mut I) {
        self.is_read = read_to_end(self.rt, self.log, input);
        say_input_over(self.log, self.alloc, self.is_read, self.settings.seconds);
        let end = wait_until_settled(self.rt, self.drain, self.settings, &mut self.stopper);
        say_drained(self.log, self.alloc, end);
        thread::sleep(self.rt, Duration::from_millis(CLOSE_DELAY));
        self.log.say(
            Level::Info,
            String::from_str(self.alloc, "the broker closes"),
        );
        self.stopper.shut();
        self.ends.store(true, Ordering::SeqCst);
    }
}

/// Says that the input has ended, or failed, and for how many seconds at most the broker drains.
fn say_input_over(log: &Log, alloc: Global, is_read: bool, seconds: u32) {
    if is_read {
        log.say(
            Level::Info,
            String::from_str(alloc, "standard input has ended"),
        );
    } else {
        log.say(
            Level::Error,
            String::from_str(alloc, "standard input failed"),
        );
    }
    if seconds != 0 {
        log.say(
            Level::Info,
            format!(in alloc; "the broker drains for {seconds} seconds at most"),
        );
    }
}

/// Says how a drain came to its end, where there was one.
fn say_drained(log: &Log, alloc: Global, end: DrainEnd) {
    let text = match end {
        DrainEnd::NotAsked => return,
        DrainEnd::Settled => "drained: each job that was accepted is settled",
        DrainEnd::Over => "the drain is over in time: jobs that were accepted are not settled",
        DrainEnd::Closed => "the drain is over: the broker was closed meanwhile",
    };
    log.say(Level::Info, String::from_str(alloc, text));
}

/// Has the broker drain until all that it accepted is settled, where its settings say so, and no longer than they say; and no longer than it is open.
fn wait_until_settled<B: Broker, R: SystemClock>(
    rt: &R,
    drain: &Drain,
    settings: DrainSettings,
    stopper: &mut Closer<'_, B>,
) -> DrainEnd {
    if settings.seconds == 0 {
        return DrainEnd::NotAsked;
    }
    let most = Duration::from_secs(u64::from(settings.seconds));
    let Ok(start) = Instant::now(rt) else {
        return DrainEnd::Over;
    };
    drain.ask();
    for _ in 0..u64::MAX {
        if drain.is_settled(settings.workers) {
            return DrainEnd::Settled;
        }
        if stopper.drained().is_some() {
            return DrainEnd::Closed;
        }
        if is_over(rt, start, most) {
            return DrainEnd::Over;
        }
        thread::sleep(rt, Duration::from_millis(DRAIN_LOOK));
    }
    DrainEnd::Over
}

/// Whether so much time went by since this moment; or the clock can't be read.
fn is_over<R: SystemClock>(rt: &R, start: Instant, most: Duration) -> bool {
    match start.elapsed(rt) {
        Ok(elapsed) => elapsed >= most,
        Err(_) => true,
    }
}

/// Whether a call that began at this moment has not waited.
fn is_at_once<R: SystemClock>(rt: &R, start: Option<Instant>) -> bool {
    match start {
        Some(start) => match start.elapsed(rt) {
            Ok(elapsed) => elapsed.as_millis() < AT_ONCE,
            Err(_) => false,
        },
        None => false,
    }
}

/// Reads to the end. Whether the reader did not fail. Where the first read gives the end and did not wait for it, that was there before: the log says so.
fn read_to_end<I: Read, R: SystemClock>(rt: &R, log: &Log, input: &mut I) -> bool
    ensures { result ≡ true → IsAtEnd (I.remaining input.new) }
{
    let mut buffer = [0; INPUT_SIZE];
    let mut first = Instant::now(rt).ok();
    for _ in 0..u64::MAX {
        match input.read(&mut buffer) {
            Ok(0) => {
                if is_at_once(rt, first) {
                    log.say_input_ended();
                }
                return true;
            }
            Ok(_) => {}
            Err(error) if error.kind() == ErrorKind::Interrupted => {}
            Err(_) => return false,
        }
        first = None;
    }
    false
}
