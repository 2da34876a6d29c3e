//! The refusal of a window that is made.
ghost use Rattle.std.specs.Prelude.{◌≡◌};

use thiserror::Error;

/// Why a window was not made.
#[derive(Debug, Drop, Error)]
pub enum WindowError {
    /// 602: there is no memory for its 256 places.
    #[error("no memory for a session's window")]
    Memory,
}

impl WindowError {
    /// The number of the refusal.
    pub fn number(&self) -> u16
        ensures { result ≡ 602 }
    {
        match self {
            WindowError::Memory => 602,
        }
    }
}
