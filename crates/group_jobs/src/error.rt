//! The refusals of this crate.
ghost use Rattle.std.specs.Prelude.{◌≡◌};
ghost use Rattle.group_jobs.specs.declared.error.JobError.TheVariants as job_error;

use dispatch_core::RoomError;
use std::alloc::{AllocError, AllocFailed};
use thiserror::Error;

/// Why a value was not made or got no room. Nothing has changed then.
#[derive(Clone, Copy, Debug, PartialEq, Eq, Error)]
pub enum JobError {
    /// 503: an allocation failed.
    #[error("out of memory")]
    Memory,
}

impl JobError {
    /// The number of the refusal.
    pub fn number(&self) -> u16
        ensures { result ≡ 503 }
    {
        match self {
            JobError::Memory => 503,
        }
    }
}

impl From<AllocError> for JobError {
    ghost from_gives = { λ _ result. result ≡ job_error.Memory };

    fn from(_error: AllocError) -> JobError {
        JobError::Memory
    }
}

impl<T: Drop> From<AllocFailed<T>> for JobError {
    ghost from_gives = { λ _ result. result ≡ job_error.Memory };

    fn from(_error: AllocFailed<T>) -> JobError {
        JobError::Memory
    }
}

impl From<RoomError> for JobError {
    ghost from_gives = { λ _ result. result ≡ job_error.Memory };

    fn from(_error: RoomError) -> JobError {
        JobError::Memory
    }
}
