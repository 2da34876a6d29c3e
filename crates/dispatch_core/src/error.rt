//! Why an event may not happen, and the refusals of this crate.
ghost use Rattle.std.specs.Prelude.{◌≡◌};
ghost use Rattle.dispatch_core.specs.declared.error.StepError.TheVariants as step_error;
ghost use Rattle.dispatch_core.specs.declared.error.ReplayError.TheVariants as replay_error;
ghost use Rattle.dispatch_core.specs.declared.error.RoomError.TheVariants as room_error;
ghost use Rattle.dispatch_core.specs.Refusals.{number_of, replay_number_of, placed};

use std::alloc::AllocError;
use thiserror::Error;

/// Why no step allows an event. Where several hold, the one that stands first here counts.
#[derive(Clone, Copy, Debug, PartialEq, Eq, Error)]
pub enum Why {
    /// It names a port from 64 or a member from 32 on.
    #[error("there is no such port or member")]
    Range,
    /// It accepts or hands out, and the group is closed.
    #[error("the group is closed")]
    Closed,
    /// A first hand-out of a job that is not queued, or was not accepted.
    #[error("the job is not queued")]
    NotQueued,
    /// A first hand-out of a job while an older one of its port is queued.
    #[error("an older job of the port is queued")]
    NotOldest,
    /// A job is acknowledged, refused, discarded or returned of a member that does not hold it.
    #[error("the member does not hold the job")]
    NotHeld,
    /// A job is handed out again that was not returned.
    #[error("the job was not returned")]
    NotReturned,
}

/// Why a state did not do an event. It is unchanged then.
#[derive(Clone, Copy, Debug, PartialEq, Eq, Error)]
pub enum StepError {
    /// 301: no step allows the event.
    #[error("the event may not happen: {why}")]
    Stuck { why: Why },
    /// 302: an allocation failed.
    #[error("out of memory")]
    Memory,
}

/// Why a list of events was not replayed.
#[derive(Clone, Copy, Debug, PartialEq, Eq, Error)]
pub enum ReplayError {
    /// 301: no step allows the event at this place of the list; all before it may happen.
    #[error("event {at} may not happen: {why}")]
    Stuck { at: usize, why: Why },
    /// 302: memory was refused to the event at this place of the list. It may happen, and so may all before
    /// it.
    #[error("out of memory at event {at}")]
    Memory { at: usize },
    /// 302: memory was refused to the state before the first event.
    #[error("out of memory before the first event")]
    NoState,
}

/// Why there is no room for what is to be kept. Nothing has changed then.
#[derive(Clone, Copy, Debug, PartialEq, Eq, Error)]
pub enum RoomError {
    /// 302: an allocation failed.
    #[error("out of memory")]
    Memory,
}

impl RoomError {
    /// The number of the refusal.
    pub fn number(&self) -> u16
        ensures { result ≡ 302 }
    {
        match self {
            RoomError::Memory => 302,
        }
    }
}

impl StepError {
    /// The number of the refusal, 301 or 302.
    pub fn number(&self) -> u16
        ensures { result ≡ number_of self.now }
    {
        match self {
            StepError::Stuck { .. } => 301,
            StepError::Memory => 302,
        }
    }

    /// The same of the event at this place of a list.
    pub(crate) fn at(self, at: usize) -> ReplayError
        ensures { result ≡ placed at self }
    {
        match self {
            StepError::Stuck { why } => ReplayError::Stuck { at, why },
            StepError::Memory => ReplayError::Memory { at },
        }
    }
}

impl ReplayError {
    /// The number of the refusal, 301 or 302.
    pub fn number(&self) -> u16
        ensures { result ≡ replay_number_of self.now }
    {
        match self {
            ReplayError::Stuck { .. } => 301,
            ReplayError::Memory { .. } | ReplayError::NoState => 302,
        }
    }
}

impl From<AllocError> for StepError {
    ghost from_gives = { λ _ result. result ≡ step_error.Memory };

    fn from(_error: AllocError) -> StepError {
        StepError::Memory
    }
}

impl From<RoomError> for ReplayError {
    ghost from_gives = { λ _ result. result ≡ replay_error.NoState };

    fn from(_error: RoomError) -> ReplayError {
        ReplayError::NoState
    }
}

impl From<AllocError> for RoomError {
    ghost from_gives = { λ _ result. result ≡ room_error.Memory };

    fn from(_error: AllocError) -> RoomError {
        RoomError::Memory
    }
}
