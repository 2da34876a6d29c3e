//! Where a worker waits.
ghost use Rattle.std.specs.Prelude.{◌≡◌, List, Option};
ghost use Rattle.worker_connections.specs.Arrivals.{IsWatched};
ghost use Rattle.worker_connections.specs.PollerCalls.{PollerCall, Register, Close, Wait as WaitCall, with_call};

use crate::notice::{Notice, Tallies};
use bell::Wake;
use std::sync::Wait;
use transport::{Crossing, Transport};

/// How a wait ended.
#[derive(Clone, Copy, Debug, PartialEq, Eq)]
pub struct Woken {
    /// Whether the worker was called.
    pub called: bool,
    /// The moment, in milliseconds.
    pub now: u64,
    /// Whether the worker drains from now on: it accepts no message that is published any more, and goes on to hand out what waits. It does so to its end, whatever
    /// later waits tell.
    pub drains: bool,
}

/// Where a worker waits for its connections, and for a call of the others, and learns the moment; and what its connections cross before they write.
pub trait Poller<T: Transport>: Crossing {
    /// What wakes the worker.
    type Alarm: Wake + Drop;

    /// Its calls but those of `take_ready`, in order, with what they told; where they are known.
    ghost poller_calls: { Self → Option (List (PollerCall T)) };

    /// Watches a transport from now on, under the least number that is free; `None` where there is none, or the system refuses.
    fn register(&mut self, transport: &mut T) -> Option<usize>
        ensures watched { IsWatched T.counts T.given T.accepted transport.old transport.new }
        ensures poller_calls { poller_calls self.new ≡ with_call (Register result transport.new) (poller_calls self.old) };

    /// Closes a transport. The number under which it was watched, if it was, is free.
    fn close(&mut self, number: Option<usize>, transport: T)
        ensures { poller_calls self.new ≡ with_call (Close number transport) (poller_calls self.old) };

    /// Is told what became of the connection that is watched under this number, in the round in which it did; where it ended, it is closed next. One that could not be
    /// opened is closed, and nothing is told.
    fn notice(&mut self, number: usize, notice: &Notice<'_>)
        ensures { poller_calls self.new ≡ poller_calls self.old };

    /// Waits until something may be read or written, or the worker is called, or for so many milliseconds. It is told what the worker counts until then.
    fn wait<R: Wait>(&mut self, rt: &R, at_most: u64, told: &Tallies<'_>) -> Woken
        ensures { poller_calls self.new ≡ with_call (WaitCall at_most result.now result.drains) (poller_calls self.old) };

    /// The number of one that may be read or written, by the last wait.
    fn take_ready(&mut self) -> Option<usize>
        ensures { poller_calls self.new ≡ poller_calls self.old };
}
