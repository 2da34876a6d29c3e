//! The refusals of a desk.
ghost use Rattle.std.specs.Prelude.{◌≡◌};
ghost use Rattle.session_desk.specs.Refusals.{number_of};

use thiserror::Error;

/// Why a desk refuses. Nothing has changed then.
#[derive(Clone, Copy, Debug, PartialEq, Eq, Error)]
pub enum DeskError {
    /// 701: a new session is wanted for a client that has none, and there is no room for it, or no newcomer gets one.
    #[error("there is no room for a further session")]
    Full,
    /// 702: no place of this group is free. [`Desk::lend_place`](crate::Desk::lend_place) says it by `None`.
    #[error("no place of this group is free")]
    NoPlace,
    /// 703: there is no memory.
    #[error("out of memory")]
    Memory,
    /// 704: no name is left for a client without an identifier.
    #[error("no name is left for a client that has none")]
    NoName,
}

impl DeskError {
    /// The number of the refusal.
    pub fn number(&self) -> u16
        ensures { result ≡ number_of self.now }
    {
        match self {
            DeskError::Full => 701,
            DeskError::NoPlace => 702,
            DeskError::Memory => 703,
            DeskError::NoName => 704,
        }
    }
}
