//! Two clients over any supply.
ghost use Rattle.std.specs.Prelude.{◌<◌};

use client_table::{ClientTable, StepOutput};
use conn_engine::Opening;
use conn_supply::{HoldingPlace, NoMemory, Supply};
use mqtt_wire::encode_into;
use std::alloc::Global;

/// A CONNECT of client `w1`, and of client `p`.
const MEMBER: &[u8] = b"\x10\x0F\x00\x04MQTT\x05\x02\x00\x3C\x00\x00\x02w1";

const PUBLISHER: &[u8] = b"\x10\x0E\x00\x04MQTT\x05\x02\x00\x3C\x00\x00\x01p";

/// A SUBSCRIBE to `$share/g/job`.
const SUBSCRIBE: &[u8] = b"\x82\x12\x00\x01\x00\x00\x0C$share/g/job\x01";

/// A PUBLISH with the payload A.
const JOB: &[u8] = b"\x32\x09\x00\x03job\x00\x01\x00A";

/// The PUBACK of identifier 1.
const ACKNOWLEDGED: &[u8] = b"\x40\x02\x00\x01";

/// A PINGREQ.
const PING: &[u8] = b"\xC0\x00";

/// What is written: two CONNACKs, a SUBACK, a PUBACK, the PUBLISH, and a PINGRESP.
pub(crate) const WRITTEN: &[u8] =
    b"\x20\x0C\x00\x00\x09\x24\x01\x25\x00\x27\x00\x01\x00\x00\x90\x04\x00\x01\x00\x01\x20\x0C\x00\x00\x09\x24\x01\x25\x00\x27\x00\x01\x00\x00\x40\x02\x00\x01\x32\x09\x00\x03job\x00\x01\x00A\xD0\x00";

/// A client's piece comes within a visit of its own; a job for the member is handed out after it.
fn says<P: HoldingPlace, S: Supply<P>>(
    supply: &mut S,
    clients: &mut ClientTable<P>,
    outputs: &mut Vec<StepOutput>,
    number: u8,
    piece: &[u8],
) -> Result<(), NoMemory>
    requires { number < 64 }
{
    if supply.begin() {
        clients.receive(supply, number, 0, piece, outputs)?;
        clients.tick(supply, 0, 0, outputs)?;
        supply.end();
    }
    Ok(())
}

/// One is a member, and the other publishes; the member acknowledges what it was handed, and goes.
fn work<P: HoldingPlace, S: Supply<P>>(
    supply: &mut S,
    clients: &mut ClientTable<P>,
    outputs: &mut Vec<StepOutput>,
) -> Result<(), NoMemory> {
    says(supply, clients, outputs, 0, MEMBER)?;
    says(supply, clients, outputs, 0, SUBSCRIBE)?;
    says(supply, clients, outputs, 1, PUBLISHER)?;
    says(supply, clients, outputs, 1, JOB)?;
    says(supply, clients, outputs, 0, ACKNOWLEDGED)?;
    says(supply, clients, outputs, 0, PING)
}

/// What was said, as bytes.
fn bytes_of(alloc: Global, outputs: &[StepOutput]) -> Option<Vec<u8>> {
    let mut bytes = Vec::new(alloc);
    for words in outputs {
        for packet in words.packets() {
            encode_into(&mut bytes, packet).ok()?;
        }
    }
    Some(bytes)
}

/// What two clients are written in all, from their CONNECT on.
pub(crate) fn two_clients<P: HoldingPlace, S: Supply<P>>(
    alloc: Global,
    supply: &mut S,
) -> Option<Vec<u8>> {
    let mut clients = ClientTable::new(alloc).ok()?;
    clients.open(0, Opening::plain(0));
    clients.open(1, Opening::plain(0));
    let mut outputs = Vec::new(alloc);
    let worked = work(supply, &mut clients, &mut outputs);
    clients.abandon(supply, 0);
    worked.ok()?;
    bytes_of(alloc, &outputs)
}
