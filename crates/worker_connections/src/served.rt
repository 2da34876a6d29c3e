//! How the connections of a worker ended.
ghost use Rattle.std.specs.Prelude.{◌≡◌};
ghost use Rattle.worker_connections.specs.Counting.{counted, counted_behind};

use crate::cell_outcome::CellOutcome;
use conn_service::Served;

/// How many connections ended in each way, up to `u64::MAX`.
#[derive(Clone, Copy, Debug, PartialEq, Eq)]
pub struct ServedCounts {
    /// 0: a step closed them, and all that they were sent is written.
    pub ended: u64,
    /// 901: a read failed.
    pub read: u64,
    /// 902: a write failed.
    pub write: u64,
    /// 903: an allocation failed, also to open them, or the system refused to watch them.
    pub memory: u64,
    /// 904: the crossing let nothing pass.
    pub no_crossing: u64,
    /// 905: the peer took nothing for too long.
    pub stalled: u64,
}

impl ServedCounts {
    /// None yet.
    pub const NONE: ServedCounts = ServedCounts {
        ended: 0,
        read: 0,
        write: 0,
        memory: 0,
        no_crossing: 0,
        stalled: 0,
    };

    /// How many have ended.
    pub fn total(&self) -> u64 {
        self.ended
            .saturating_add(self.read)
            .saturating_add(self.write)
            .saturating_add(self.memory)
            .saturating_add(self.no_crossing)
            .saturating_add(self.stalled)
    }

    /// Adds those of another worker.
    pub fn add(&mut self, other: &ServedCounts) {
        self.ended = self.ended.saturating_add(other.ended);
        self.read = self.read.saturating_add(other.read);
        self.write = self.write.saturating_add(other.write);
        self.memory = self.memory.saturating_add(other.memory);
        self.no_crossing = self.no_crossing.saturating_add(other.no_crossing);
        self.stalled = self.stalled.saturating_add(other.stalled);
    }

    /// Counts one that ended so.
    pub fn count(&mut self, served: Served)
        ensures { self.new ≡ counted served self.old }
    {
        match served {
            Served::Ended => self.ended = self.ended.saturating_add(1),
            Served::Read => self.read = self.read.saturating_add(1),
            Served::Write => self.write = self.write.saturating_add(1),
            Served::Memory => self.memory = self.memory.saturating_add(1),
            Served::NoCrossing => self.no_crossing = self.no_crossing.saturating_add(1),
            Served::Stalled => self.stalled = self.stalled.saturating_add(1),
        }
    }

    /// Counts the connection that a round ended, if it ended one.
    pub fn count_behind<T>(&mut self, cell_outcome: &CellOutcome<T>)
        ensures { self.new ≡ counted_behind cell_outcome.now self.old }
    {
        if let CellOutcome::Ended(served, _) = cell_outcome {
            self.count(*served);
        }
    }
}
