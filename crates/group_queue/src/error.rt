//! The refusals of a group.
ghost use Rattle.std.specs.Prelude.{◌≡◌};
ghost use Rattle.group_queue.specs.Refusals.{number_of, finish_number};
ghost use Rattle.group_queue.specs.declared.error.FinishError.TheVariants as finish_error;

use group_jobs::{JobError, SharedMessage, Stamp};
use thiserror::Error;

/// Why a message was not accepted.
#[derive(Clone, Copy, Debug, PartialEq, Eq, Error)]
pub enum OfferError {
    /// 501: as many messages waited as may.
    #[error("the queue is full")]
    Full,
    /// 502: the port accepted 2^40 messages.
    #[error("the numbers of the port are used up")]
    LifeSpent,
}

impl OfferError {
    /// The number of the refusal, 501 or 502.
    pub fn number(&self) -> u16
        ensures { result ≡ number_of self.now }
    {
        match self {
            OfferError::Full => 501,
            OfferError::LifeSpent => 502,
        }
    }
}

/// A message that was not accepted, and why. The port is unchanged.
#[derive(Debug, Drop, Error)]
#[error("{error}")]
pub struct NotTaken {
    /// The message that was offered.
    pub message: SharedMessage,
    pub error: OfferError,
}

/// What is lacking where a group is to be ended.
#[derive(Clone, Copy, Debug, PartialEq, Eq)]
pub enum Lack {
    /// The port of this number.
    Port(u8),
    /// The place of this number.
    Place(u8),
    /// An envelope of this stamp, which a place has out.
    Envelope(Stamp),
}

/// Why a group is not ended.
#[derive(Clone, Copy, Debug, PartialEq, Eq, Error)]
pub enum FinishError {
    /// 505: a port, a place or an envelope of the group is not there.
    #[error("a port, a place or an envelope is missing")]
    Missing(Lack),
    /// 507: an envelope is there more often than its message is out.
    #[error("an envelope is not of this group, or is there twice")]
    Stranger(Stamp),
    /// 506: an allocation failed.
    #[error("out of memory")]
    Memory,
}

impl FinishError {
    /// The number of the refusal, 505, 507 or 506.
    pub fn number(&self) -> u16
        ensures { result ≡ finish_number self.now }
    {
        match self {
            FinishError::Missing(_) => 505,
            FinishError::Stranger(_) => 507,
            FinishError::Memory => 506,
        }
    }
}

impl From<JobError> for FinishError {
    ghost from_gives = { λ _ result. result ≡ finish_error.Memory };

    fn from(_error: JobError) -> FinishError {
        FinishError::Memory
    }
}
