//! Why a share is not bound.
ghost use Rattle.shared_routes.specs.declared.error.BindError.TheVariants as error;
ghost use Rattle.std.specs.Prelude.{◌≡◌};
ghost use Rattle.shared_routes.specs.Refusals.{number_of};

use std::alloc::AllocFailed;
use thiserror::Error;

/// Why a share is not bound by [`KnownRoutes::bind`](crate::KnownRoutes::bind), or by [`KnownRoutes::declare`](crate::KnownRoutes::declare), which gives no 207.
#[derive(Clone, Copy, Debug, PartialEq, Eq, Error)]
pub enum BindError {
    /// 205: all eight slots are bound to other shares.
    #[error("no slot is free")]
    NoSlot,
    /// 206: an allocation failed.
    #[error("out of memory")]
    Memory,
    /// 207: only shares that were declared have a slot, and this is none of them.
    #[error("the share is not declared")]
    NotDeclared,
}

impl BindError {
    /// The number of the refusal, 205 to 207.
    pub fn number(&self) -> u16
        ensures { result ≡ number_of self.now }
    {
        match self {
            BindError::NoSlot => 205,
            BindError::Memory => 206,
            BindError::NotDeclared => 207,
        }
    }
}

impl<T: Drop> From<AllocFailed<T>> for BindError {
    ghost from_gives = { λ _ result. result ≡ error.Memory };

    fn from(_error: AllocFailed<T>) -> BindError {
        BindError::Memory
    }
}
