//! Workers that serve at the same time.

use crate::in_memory::arriving::{Arriving, Client};
use crate::in_memory::broker::{Reports, Told, serve_all};
use scripted_transport::Scripted;
use std::alloc::{AllocError, Global};
use std::test::Fail;

/// Sends a CONNECT with an identifier that ends in its number, and then ends its stream.
#[derive(Drop)]
struct Comer;

impl Client for Comer {
    fn connect(&self, alloc: Global, number: u8) -> Result<Scripted, AllocError> {
        let mut bytes = *b"\x10\x0F\x00\x04MQTT\x05\x02\x00\x3C\x00\x00\x02w1";
        bytes[16] = b'0'.saturating_add(number);
        let input = bytes.to_vec(alloc)?;
        Scripted::new(alloc, input, Vec::new(alloc), Vec::new(alloc), 64)
    }
}

// As many connections as workers, each of which may write only once all workers have asked to: they are served at the same time, and all end with 0.
#[test]
fn crossing(rt: HostRuntime) -> Result<(), Fail> {
    for workers in [2u8, 8] {
        let source = Arriving::new(rt.alloc(), Comer, workers);
        let told = serve_all(&rt, rt.alloc(), workers, source);
        let well = Told {
            came: u64::from(workers),
            ended: u64::from(workers),
            counted: u64::from(workers),
            reports: Reports {
                groups: 8,
                held: 0,
                queued: 0,
                discarded: 0,
            },
        };
        assert_eq!(rt; told, Some(well));
    }
    Ok(())
}
