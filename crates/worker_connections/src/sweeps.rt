//! When the connections of a worker went on.
ghost use Rattle.std.specs.Prelude.{◌≡◌, ◌+◌, ◌≤◌, false};
ghost use Rattle.worker_connections.specs.Sweeping.{Begins, IsInTime, Notes, WaitsInTime, looked};

/// After so many milliseconds at most each connection goes on, whatever comes.
const SWEEP_PERIOD: u64 = 50;

/// When the connections of a worker went on, and how far the sweep has come that is under way: it goes over all cells, from the first to the last.
#[derive(Clone, Copy, Debug, PartialEq, Eq)]
pub struct Sweeps {
    /// All of them went on at this moment or later.
    pub swept: u64,
    /// Those in the first `gone` cells went on at this moment or later.
    pub begun: u64,
    pub gone: usize,
    /// The worker's moment: the latest that a wait of its poller told, and 0 before the first.
    pub latest: u64,
}

impl Sweeps {
    /// Those of a worker that has no connection.
    pub(crate) const NEW: Sweeps = Sweeps {
        swept: 0,
        begun: 0,
        gone: 0,
        latest: 0,
    };

    /// Its poller told this moment.
    pub(crate) fn look(&mut self, now: u64)
        ensures { self.new ≡ looked now self.old }
    {
        self.latest = self.latest.max(now);
    }

    /// Whether the connections are to go on.
    pub(crate) fn is_late(&self) -> bool
        ensures { result ≡ false → IsInTime self.now }
    {
        self.latest.saturating_sub(self.swept) >= SWEEP_PERIOD
    }

    /// For how many milliseconds at most a worker may wait until its connections are to go on.
    pub(crate) fn left(&self) -> u64
        ensures { WaitsInTime result self.now.latest self.now.swept }
    {
        SWEEP_PERIOD.saturating_sub(self.latest.saturating_sub(self.swept))
    }

    /// A sweep of so many cells begins.
    pub(crate) fn begin(&mut self, count: usize)
        ensures { Begins count self.old self.new }
    {
        self.begun = self.latest;
        self.gone = 0;
        if count == 0 {
            self.swept = self.latest;
        }
    }

    /// The connection in a cell, of so many, went on at this moment, or the cell is free.
    pub(crate) fn note(&mut self, cell: usize, count: usize)
        requires { cell + 1 ≤ count }
        ensures { Notes cell count self.old self.new }
    {
        if cell == self.gone {
            if cell + 1 < count {
                self.gone = cell + 1;
            } else {
                self.swept = self.begun;
                self.gone = 0;
            }
        }
    }
}
