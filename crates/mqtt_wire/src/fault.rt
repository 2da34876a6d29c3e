//! Why a stream could not be read on.

ghost use Rattle.mqtt_fields.specs.declared.fault.Fault.TheVariants.{Memory};
ghost use Rattle.mqtt_wire.specs.declared.fault.ReadFault.TheVariants.{Refused, Device};
ghost use Rattle.std.specs.Prelude.{◌≡◌};

use mqtt_fields::Fault;
use std::alloc::AllocError;
use std::io;
use thiserror::Error;

/// Why a splitter read nothing.
#[derive(Debug, Drop, Error)]
pub enum ReadFault {
    /// Refusals 101 to 104: the stream is at fault, or there was no room for more of it.
    #[error("{0}")]
    Refused(Fault),
    /// The reader failed, and this is its error.
    #[error("{0}")]
    Device(io::Error),
}

impl From<AllocError> for ReadFault {
    ghost from_gives = { λ _ result. result ≡ Refused Memory };

    fn from(_: AllocError) -> ReadFault {
        ReadFault::Refused(Fault::Memory)
    }
}

impl From<io::Error> for ReadFault {
    ghost from_gives = { λ error result. result ≡ Device error };

    fn from(error: io::Error) -> ReadFault {
        ReadFault::Device(error)
    }
}
