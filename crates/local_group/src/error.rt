//! The refusals of a group on one thread.
ghost use Rattle.std.specs.Prelude.{◌≡◌};
ghost use Rattle.local_group.specs.Refusals.{offer_number, take_number};
ghost use Rattle.local_group.specs.declared.error.TakeError.TheVariants as take_error;

use group_jobs::SharedMessage;
use std::alloc::AllocError;
use thiserror::Error;

/// Why a message is not accepted. Of several reasons the first counts. Nothing has changed then.
#[derive(Clone, Copy, Debug, PartialEq, Eq, Error)]
pub enum OfferError {
    /// 401: the group is closed.
    #[error("the group is closed")]
    Shut,
    /// 502: the port has accepted 2^40 messages.
    #[error("the port has accepted all messages of its life")]
    LifeSpent,
    /// 501: as many messages wait as the group's capacity allows.
    #[error("the queue is full")]
    Full,
    /// 503: an allocation failed.
    #[error("out of memory")]
    Memory,
}

/// Why nothing is handed out. Of several reasons the first counts. Nothing has changed then.
#[derive(Clone, Copy, Debug, PartialEq, Eq, Error)]
pub enum TakeError {
    /// 401: the group is closed.
    #[error("the group is closed")]
    Shut,
    /// 503: an allocation failed.
    #[error("out of memory")]
    Memory,
}

/// A message that was not accepted, handed back, and why.
#[derive(Debug, Drop)]
pub struct NotTaken {
    pub why: OfferError,
    pub message: SharedMessage,
}

impl OfferError {
    /// The number of the refusal.
    pub fn number(&self) -> u16
        ensures { result ≡ offer_number self.now }
    {
        match self {
            OfferError::Shut => 401,
            OfferError::Full => 501,
            OfferError::LifeSpent => 502,
            OfferError::Memory => 503,
        }
    }
}

impl TakeError {
    /// The number of the refusal.
    pub fn number(&self) -> u16
        ensures { result ≡ take_number self.now }
    {
        match self {
            TakeError::Shut => 401,
            TakeError::Memory => 503,
        }
    }
}

impl From<AllocError> for TakeError {
    ghost from_gives = { λ _ error. error ≡ take_error.Memory };

    fn from(_error: AllocError) -> TakeError {
        TakeError::Memory
    }
}
