//! Why a packet, or a part of one, could not be read or written.

ghost use Rattle.mqtt_fields.specs.declared.fault.Fault.TheVariants.{Memory, Stream};
ghost use Rattle.std.specs.Prelude.{◌≡◌};
ghost use Rattle.mqtt_fields.specs.Faults.{number_of};

use std::alloc::{AllocError, AllocFailed};
use thiserror::Error;

/// What is wrong with a packet's bytes (section 4.13).
#[derive(Clone, Copy, Debug, PartialEq, Eq, Error)]
pub enum StreamFault {
    /// Refusal 101, a Malformed Packet: the bytes are of none of the forms that this crate reads.
    #[error("malformed packet")]
    Malformed,
    /// Refusal 102, a Protocol Error: the form is right, and a value in it is not allowed.
    #[error("protocol error")]
    Protocol,
    /// Refusal 103: a packet read has more than 65,536 bytes in all, known from its header; or the Remaining Length of one
    /// to be written would be over 268,435,455.
    #[error("packet too large")]
    TooLarge,
}

/// Why a call could not answer.
#[derive(Clone, Copy, Debug, PartialEq, Eq, Error)]
pub enum Fault {
    /// Refusals 101 to 103: the packet itself is at fault.
    #[error("{0}")]
    Stream(StreamFault),
    /// Refusal 104: an allocation failed.
    #[error("out of memory")]
    Memory,
}

impl Fault {
    /// The number of the refusal, from 101 to 104.
    pub fn number(&self) -> u16
        ensures { result ≡ number_of self.now }
    {
        match self {
            Fault::Stream(StreamFault::Malformed) => 101,
            Fault::Stream(StreamFault::Protocol) => 102,
            Fault::Stream(StreamFault::TooLarge) => 103,
            Fault::Memory => 104,
        }
    }
}

impl From<StreamFault> for Fault {
    ghost from_gives = { λ fault result. result ≡ Stream fault };

    fn from(fault: StreamFault) -> Fault {
        Fault::Stream(fault)
    }
}

impl From<AllocError> for Fault {
    ghost from_gives = { λ _ result. result ≡ Memory };

    fn from(_error: AllocError) -> Fault {
        Fault::Memory
    }
}

impl<T: Drop> From<AllocFailed<T>> for Fault {
    ghost from_gives = { λ _ result. result ≡ Memory };

    fn from(_error: AllocFailed<T>) -> Fault {
        Fault::Memory
    }
}
