//! Why a run stops before its end.
ghost use Rattle.std.specs.Prelude.{◌≡◌};
ghost use Rattle.text_io.specs.Status.{status_of};
ghost use Rattle.text_io.specs.declared.error.RunError.TheVariants.{Memory};

use std::alloc::{AllocError, AllocFailed};

/// Why a device or the network failed, as far as the system says.
#[derive(Clone, Copy, Debug, PartialEq, Eq, Drop)]
pub enum DeviceFault {
    /// Another listener has the port.
    PortInUse,
    /// Another listener has the port of the metrics.
    MetricsPortInUse,
    /// The address is not one of this machine.
    AddressElsewhere,
    /// The process, or the system, has as many file descriptors as it may.
    TooFewDescriptors,
    /// The process may not do that, as to listen at a port below 1024.
    NotPermitted,
    /// What is written to is full.
    NoSpace,
    /// None of these.
    Other,
}

/// Why a run did not end, and the status that the program ends with.
#[derive(Clone, Copy, Debug, PartialEq, Eq, Drop)]
pub enum RunError {
    /// 3: the reader failed.
    ReadFailed,
    /// 3: 2^20 reads did not reach the input's end.
    TooManyReads,
    /// 3: the writer failed.
    WriteFailed(DeviceFault),
    /// 3: an address was not listened at, or connections were not accepted.
    Network(DeviceFault),
    /// 3: the file with the users cannot be read.
    UsersUnread,
    /// 3: the system gave no random bytes.
    NoRandomBytes,
    /// 4: an allocation was refused.
    Memory,
    /// 4: there were too few file descriptors for the workers.
    TooFewDescriptors,
    /// 4: what became of the messages of a group is not known.
    Unfinished,
    /// 5: this line of the input, counted from 1, is none that the program takes.
    Line(u64),
    /// 5: this line of the file with the users, counted from 1, is no user's.
    UsersLine(u64),
}

impl RunError {
    /// The status that the program ends with: 3, 4 or 5.
    pub fn status(&self) -> u8
        ensures { result ≡ status_of self.now }
    {
        match self {
            RunError::ReadFailed
            | RunError::TooManyReads
            | RunError::WriteFailed(_)
            | RunError::Network(_)
            | RunError::UsersUnread
            | RunError::NoRandomBytes => 3,
            RunError::Memory | RunError::TooFewDescriptors | RunError::Unfinished => 4,
            RunError::Line(_) | RunError::UsersLine(_) => 5,
        }
    }
}

impl From<AllocError> for RunError {
    ghost from_gives = { λ _ e. e ≡ Memory };

    fn from(_: AllocError) -> RunError {
        RunError::Memory
    }
}

impl<T: Drop> From<AllocFailed<T>> for RunError {
    ghost from_gives = { λ _ e. e ≡ Memory };

    fn from(_: AllocFailed<T>) -> RunError {
        RunError::Memory
    }
}
