//! How much a log has.
ghost use Rattle.std.specs.Prelude.{◌≡◌, ◌≤◌, true};
ghost use Rattle.broker_log.specs.Lines.{label_of, rank_of};

/// How much a log has, and how important a line is. A log has the lines of its own level and of those before it.
#[derive(Clone, Copy, Debug, PartialEq, Eq)]
pub enum Level {
    /// Nothing, but for what each log has.
    Off,
    /// What went wrong.
    Error,
    /// What connections and groups do, and how the broker ends.
    Info,
    /// What else helps to find a fault.
    Debug,
}

impl Level {
    /// Where it stands in the order.
    fn rank(self) -> u8
        ensures { result ≡ rank_of self }
    {
        match self {
            Level::Off => 0,
            Level::Error => 1,
            Level::Info => 2,
            Level::Debug => 3,
        }
    }

    /// Whether a log of this level has lines of that one.
    pub fn has(self, line: Level) -> bool
        ensures { result ≡ true → rank_of line ≤ rank_of self }
    {
        line.rank() <= self.rank()
    }

    /// The word that its lines begin with.
    pub(crate) fn label(self) -> &'static str
        ensures { result.now ≡ label_of self }
    {
        match self {
            Level::Off | Level::Error => "error",
            Level::Info => "info",
            Level::Debug => "debug",
        }
    }
}
