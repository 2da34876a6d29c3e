//! How a connection that was served has ended, and what it waits for until then.
ghost use Rattle.std.specs.Prelude.{◌≡◌};
ghost use Rattle.conn_service.specs.Numbers.{number_of};
ghost use Rattle.conn_service.specs.Directions.{reads, writes};

/// How a connection that was served has ended.
#[derive(Clone, Copy, Debug, PartialEq, Eq)]
pub enum Served {
    /// 0: a step closed it, and all that it was sent is written.
    Ended,
    /// 901: a read of the transport failed.
    Read,
    /// 902: a write of the transport failed.
    Write,
    /// 903: an allocation failed.
    Memory,
    /// 904: the crossing let nothing pass in 10,000 turns.
    NoCrossing,
    /// 905: the transport took nothing of what waited to be written, for 60 seconds, or for one where the connection had ended.
    Stalled,
}

impl Served {
    /// The number of the ending: 0, or 901 to 905.
    pub fn number(self) -> u16
        ensures { result ≡ number_of self }
    {
        match self {
            Served::Ended => 0,
            Served::Read => 901,
            Served::Write => 902,
            Served::Memory => 903,
            Served::NoCrossing => 904,
            Served::Stalled => 905,
        }
    }
}

/// Which way a round goes.
#[derive(Clone, Copy, Debug, PartialEq, Eq)]
pub enum Direction {
    /// Both: what comes is read, and what is said is written.
    Both,
    /// What waits is written first, and what comes is read. What that says waits to be written.
    Inbound,
    /// What waits is written, and what a Tick says. Nothing is read.
    Outbound,
}

impl Direction {
    /// Whether it reads.
    pub(crate) fn reads(self) -> bool
        ensures { result ≡ reads self }
    {
        match self {
            Direction::Both | Direction::Inbound => true,
            Direction::Outbound => false,
        }
    }

    /// Whether it writes what it says.
    pub(crate) fn writes(self) -> bool
        ensures { result ≡ writes self }
    {
        match self {
            Direction::Both | Direction::Outbound => true,
            Direction::Inbound => false,
        }
    }
}

/// What a connection waits for after a round.
#[derive(Clone, Copy, Debug, PartialEq, Eq)]
pub enum Round {
    /// Nothing: more can be done at once.
    More,
    /// Something to read. All that came is answered, and all that was said is written.
    Reading,
    /// Room to write: the transport takes no more for now, and until it does, nothing is read.
    Writing,
    /// Its session: it has kept as much of its stream meanwhile as it may, and reads no more until then.
    Waiting,
    /// Nothing any more: it has ended.
    Ended(Served),
}
