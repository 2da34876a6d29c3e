//! What stands between a client and who serves it.
ghost use Rattle.std.specs.Prelude.{◌≡◌, ◌<◌, ◌≤◌, ℕ, List, Option, false, length};
ghost use Rattle.transport.specs.Counting.{ComesNew, MayCome, MayGoOn, after_arrival, after_came, after_got, after_put};
ghost use Rattle.transport.specs.declared.counts.Counts.{Counts};
ghost use Rattle.transport.specs.declared.counts.Tally.{Tally};
ghost use Rattle.transport.specs.Streams.{GivesWithin, TakesWithin, after_read, after_write};

use crate::answers::{Arrival, Got, Put};

/// A stream of bytes to a peer and one from it. No call waits for the peer, unless its own page says so.
pub trait Transport {
    /// How often it failed, ended and was idle.
    ghost counts: { Self → Counts };

    /// How often its writes were idle, or more: each `Idle` of one raises it, and nothing lowers it.
    ghost refusals: { Self → ℕ };

    /// All that its reads gave, where that is known.
    ghost given: { Self → Option (List ℕ) };

    /// All that its writes took, where that is known.
    ghost accepted: { Self → Option (List ℕ) };

    /// Reads into a buffer with room.
    ///
    /// Neither [`failures`](Transport::failures) nor [`ends`](Transport::ends) may have come to `u64::MAX`.
    fn read(&mut self, buffer: &mut [u8]) -> Got
        requires goes_on { MayGoOn (counts self.old) }
        requires room { 0 < length buffer.old }
        ensures within { GivesWithin result buffer.new }
        ensures given { given self.new ≡ after_read (given self.old) result buffer.new }
        ensures accepted { accepted self.new ≡ accepted self.old }
        ensures counts { counts self.new ≡ after_got result (counts self.old) }
        ensures refusals { refusals self.old ≤ refusals self.new };

    /// Writes some bytes, of which there is one at least.
    ///
    /// Neither [`failures`](Transport::failures) nor [`ends`](Transport::ends) may have come to `u64::MAX`.
    fn write(&mut self, bytes: &[u8]) -> Put
        requires goes_on { MayGoOn (counts self.old) }
        requires some { 0 < length bytes.now }
        ensures within { TakesWithin result bytes.now }
        ensures given { given self.new ≡ given self.old }
        ensures accepted { accepted self.new ≡ after_write (accepted self.old) result bytes.now }
        ensures counts { counts self.new ≡ after_put result (counts self.old) }
        ensures refusals { refusals self.old ≤ refusals self.new }
        ensures refused { result ≡ Put.Idle → refusals self.old < refusals self.new };

    /// How often it failed: raised by one by each `Failed`, and by nothing else.
    fn failures(&self) -> u64
        ensures { result ≡ (counts self.now).failures };

    /// How often it ended: raised by one by each `End`, and by nothing else.
    fn ends(&self) -> u64
        ensures { result ≡ (counts self.now).ends };

    /// How often a read was idle: raised by one, up to `u64::MAX`, by each `Idle` of a read, and by nothing else.
    fn idles(&self) -> u64
        ensures { result ≡ (counts self.now).idles };
}

/// Where connections come from.
pub trait Source<T: Transport> {
    /// How often it failed and gave.
    ghost tally: { Self → Tally };

    /// All that came, in its order, where that is known.
    ghost arrived: { Self → Option (List T) };

    /// What comes next: a transport of which nothing was counted yet, so that it may be called.
    ///
    /// Neither [`failures`](Source::failures) nor [`arrivals`](Source::arrivals) may have come to `u64::MAX`.
    fn next(&mut self) -> Arrival<T>
        requires { MayCome (tally self.old) }
        ensures tally { tally self.new ≡ after_arrival result (tally self.old) }
        ensures arrived { arrived self.new ≡ after_came result (arrived self.old) }
        ensures new { ComesNew T.counts result };

    /// How often it failed: raised by one by each `Failed`, and by nothing else.
    fn failures(&self) -> u64
        ensures { result ≡ (tally self.now).failures };

    /// How often it gave: raised by one by each `Came`, and by nothing else.
    fn arrivals(&self) -> u64
        ensures { result ≡ (tally self.now).arrivals };
}

/// Tells moments, in milliseconds.
pub trait Clock {
    /// The moment.
    fn now(&mut self) -> u64;
}

/// A place that workers pass before each write, for tests of what they do beside each other.
pub trait Crossing {
    /// Holds where it refuses this worker at this turn.
    ghost refuses: { Self → ℕ → ℕ → Type 0 };

    /// Whether this worker may pass. It is asked in turns from 0 on, until it may.
    fn cross(&self, worker: u32, turn: u32) -> bool
        ensures refused { result ≡ false → refuses self.now worker turn };
}
