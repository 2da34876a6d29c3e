//! How often a transport or a source answered so.
ghost use Rattle.std.specs.Prelude.{◌≡◌};
ghost use Rattle.transport.specs.Counting.{MayCome, MayGoOn, after_arrival, after_got, after_put};

use crate::answers::{Arrival, Got, Put};

/// How often a transport failed, ended, and was idle when it was read.
#[derive(Clone, Copy, Debug, PartialEq, Eq)]
pub struct Counts {
    /// Raised by one by each `Failed`.
    pub failures: u64,
    /// Raised by one by each `End`.
    pub ends: u64,
    /// Raised by one, up to `u64::MAX`, by each `Idle` of a read.
    pub idles: u64,
}

impl Counts {
    /// Those of a transport that was not called yet.
    pub const NONE: Counts = Counts {
        failures: 0,
        ends: 0,
        idles: 0,
    };

    /// Counts what a read gave.
    pub fn count_got(&mut self, got: Got)
        requires { MayGoOn self.old }
        ensures { self.new ≡ after_got got self.old }
    {
        match got {
            Got::Bytes(_) => {}
            Got::Idle => self.idles = self.idles.saturating_add(1),
            Got::End => self.ends += 1,
            Got::Failed => self.failures += 1,
        }
    }

    /// Counts what a write took.
    pub fn count_put(&mut self, put: Put)
        requires { MayGoOn self.old }
        ensures { self.new ≡ after_put put self.old }
    {
        match put {
            Put::Wrote(_) => {}
            Put::Idle => {}
            Put::Failed => self.failures += 1,
        }
    }
}

/// How often a source failed and gave.
#[derive(Clone, Copy, Debug, PartialEq, Eq)]
pub struct Tally {
    /// Raised by one by each `Failed`.
    pub failures: u64,
    /// Raised by one by each `Came`.
    pub arrivals: u64,
}

impl Tally {
    /// That of a source that was not asked yet.
    pub const NONE: Tally = Tally {
        failures: 0,
        arrivals: 0,
    };

    /// Counts what a source gave.
    pub fn count_arrival<T>(&mut self, arrival: &Arrival<T>)
        requires { MayCome self.old }
        ensures { self.new ≡ after_arrival arrival.now self.old }
    {
        match arrival {
            Arrival::Came(_) => self.arrivals += 1,
            Arrival::Idle => {}
            Arrival::End => {}
            Arrival::Failed => self.failures += 1,
        }
    }
}
