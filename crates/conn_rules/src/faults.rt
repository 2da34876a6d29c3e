//! What a fault of its stream makes of a connection (section 4.13).
ghost use Rattle.std.specs.Prelude.{◌≡◌};
ghost use Rattle.conn_rules.specs.Faults.{fault_code, fault_refusal};

use mqtt_fields::StreamFault;
use mqtt_packet::{ConnectRefusal, ReasonCode};

/// The Reason Code of the DISCONNECT with which a fault closes a connection.
pub fn fault_code(fault: StreamFault) -> ReasonCode
    ensures { result ≡ fault_code fault }
{
    match fault {
        StreamFault::Malformed => ReasonCode::MALFORMED_PACKET,
        StreamFault::Protocol => ReasonCode::PROTOCOL_ERROR,
        StreamFault::TooLarge => ReasonCode::PACKET_TOO_LARGE,
    }
}

/// The refusal of the CONNACK with which a fault closes a connection before its CONNECT; `None` where it is closed with no
/// answer.
pub fn fault_refusal(fault: StreamFault) -> Option<ConnectRefusal>
    ensures { result ≡ fault_refusal fault }
{
    match fault {
        StreamFault::Protocol => Some(ConnectRefusal::ProtocolError),
        StreamFault::Malformed | StreamFault::TooLarge => None,
    }
}
