//! Messages that are longer than their member's Maximum Packet Size, and a short one behind them.

use crate::in_memory::arriving::{Arriving, Client};
use crate::in_memory::broker::{Reports, Told, serve_all};
use scripted_transport::{ReadTurn, Scripted};
use std::alloc::{AllocError, Global};
use std::test::Fail;

/// How many messages are too long: more than three times what a worker hands a member in a turn.
const LONG: u16 = 800;

/// How many bytes a turn reads at most, and how often the client's stream is read before it ends.
const PIECE: usize = 4_096;

const READS: usize = 32;

/// A CONNECT of a client whose session lives for an hour after its connection, with a Maximum Packet Size of 64.
const CONNECT: [u8; 27] =
    *b"\x10\x19\x00\x04MQTT\x05\x02\x00\x3C\x0A\x11\x00\x00\x0E\x10\x27\x00\x00\x00\x40\x00\x02w1";

/// A SUBSCRIBE to `$share/g/job`, and an UNSUBSCRIBE from it.
const SUBSCRIBE: [u8; 20] = *b"\x82\x12\x00\x01\x00\x00\x0C$share/g/job\x01";

const UNSUBSCRIBE: [u8; 19] = *b"\xA2\x11\x00\x02\x00\x00\x0C$share/g/job";

/// A PUBLISH to `job` of 65 bytes, but for its payload, and one of 12 bytes.
const LONG_PUBLISH: [u8; 10] = *b"\x32\x3F\x00\x03job\x00\x07\x00";

const SHORT_PUBLISH: [u8; 12] = *b"\x32\x0A\x00\x03job\x00\x08\x00AA";

/// Leaves its group, publishes long messages and a short one, joins the group again, and says nothing more for some turns.
#[derive(Drop)]
struct LongWinded;

impl Client for LongWinded {
    fn connect(&self, alloc: Global, _number: u8) -> Result<Scripted, AllocError> {
        let mut input = CONNECT.to_vec(alloc)?;
        input.extend_from_slice(&SUBSCRIBE)?;
        input.extend_from_slice(&UNSUBSCRIBE)?;
        for _ in 0..LONG {
            input.extend_from_slice(&LONG_PUBLISH)?;
            input.extend_from_slice(&[b'A'; 55])?;
        }
        input.extend_from_slice(&SHORT_PUBLISH)?;
        input.extend_from_slice(&SUBSCRIBE)?;
        let reads = vec![in alloc; ReadTurn::AtMost(PIECE); READS]?;
        Scripted::new(alloc, input, reads, Vec::new(alloc), PIECE)
    }
}

// Long messages wait before their member joins: all are discarded, and it is sent the short one behind them, within the turns in which its stream is read. No sweep begins, as no time goes by.
#[test]
fn discarding(rt: HostRuntime) -> Result<(), Fail> {
    let source = Arriving::new(rt.alloc(), LongWinded, 1);
    let told = serve_all(&rt, rt.alloc(), 1, source);
    let well = Told {
        came: 1,
        ended: 1,
        counted: 1,
        reports: Reports {
            groups: 8,
            held: 1,
            queued: 0,
            discarded: u128::from(LONG),
        },
    };
    assert_eq!(rt; told, Some(well));
    Ok(())
}
