//! Why a users file is refused.
ghost use Rattle.users.specs.declared.error.UsersError.TheVariants as error;
ghost use Rattle.std.specs.Prelude.{◌≡◌};

use std::alloc::{AllocError, AllocFailed};
use thiserror::Error;

/// Why a users file is refused. No error tells a password, or what is kept of one.
#[derive(Clone, Copy, Debug, PartialEq, Eq, Error)]
pub enum UsersError {
    /// An allocation failed.
    #[error("out of memory")]
    Memory,
    /// The line of this number, from 1 on, is no line of a users file, or is of a user of whom an earlier line is.
    #[error("line {0} is not valid")]
    Line(u64),
}

impl From<AllocError> for UsersError {
    ghost from_gives = { λ _ result. result ≡ error.Memory };

    fn from(_error: AllocError) -> UsersError {
        UsersError::Memory
    }
}

impl<T: Drop> From<AllocFailed<T>> for UsersError {
    ghost from_gives = { λ _ result. result ≡ error.Memory };

    fn from(_error: AllocFailed<T>) -> UsersError {
        UsersError::Memory
    }
}
