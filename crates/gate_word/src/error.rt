//! The refusals of a gate.
ghost use Rattle.std.specs.Prelude.{◌≡◌};

use crate::seat::GateSeat;
use thiserror::Error;

/// Why a gate was not opened.
#[derive(Clone, Copy, Debug, PartialEq, Eq, Error)]
pub enum GateError {
    /// 402: there is no memory for its word and its seats.
    #[error("no memory for a gate")]
    Memory,
}

impl GateError {
    /// The number of the refusal.
    pub fn number(&self) -> u16
        ensures { result ≡ 402 }
    {
        match self {
            GateError::Memory => 402,
        }
    }
}

/// 401: the gate was shut. The seat is handed back.
#[derive(Debug, Drop, Error)]
#[error("the gate is shut")]
pub struct Refused {
    /// The seat that was to go in. It is outside.
    pub seat: GateSeat,
}

impl Refused {
    /// The number of the refusal.
    pub fn number(&self) -> u16
        ensures { result ≡ 401 }
    {
        401
    }
}
