//! The fixed header of a packet (section 2.1.1).

ghost use Rattle.std.specs.Prelude.{◌≡◌, ◌≤◌, List, ℕ, length};
ghost use Rattle.mqtt_wire.specs.Stream.{header_at};
ghost use Rattle.mqtt_wire.specs.Frame.{GivesHeader};

use crate::kind::{Kind, kind_of};
use mqtt_fields::{StreamFault, variable_byte_integer};

/// The greatest Remaining Length that is read: with its header of four bytes the packet has 65,536 bytes.
const MAXIMUM_REMAINING_LENGTH: u32 = 65_532;

/// What a fixed header says.
#[derive(Clone, Copy)]
pub(crate) struct FixedHeader {
    pub(crate) kind: Kind,
    pub(crate) remaining: usize,
}

/// The header in front of the bytes, and the bytes after it; `None` where it is not whole yet.
#[inline(always)]
#[tactic(auto, unfolding(crate::specs::Stream::header_at))]
pub(crate) fn read_header(bytes: &[u8]) -> Result<Option<(FixedHeader, &[u8])>, StreamFault>
    ensures { GivesHeader result (header_at bytes.now) }
{
    let [first, behind @ ..] = bytes else {
        return Ok(None);
    };
    let Some(kind) = kind_of(*first) else {
        return Err(StreamFault::Malformed);
    };
    let Some((remaining, rest)) = variable_byte_integer(3, behind)? else {
        return Ok(None);
    };
    if remaining > MAXIMUM_REMAINING_LENGTH {
        return Err(StreamFault::TooLarge);
    }
    let remaining = remaining as usize;
    Ok(Some((FixedHeader { kind, remaining }, rest)))
}
