//! Stories over scripted transports.
ghost use Rattle.std.specs.Prelude.{◌≡◌, ◌<◌, ℕ, false, IfOk};
ghost use Rattle.transport.specs.Counting.{MayCome, no_counts};

use crate::asserting::{assert_items, assert_same};
use crate::tcp::echo::write;
use scripted_transport::{ReadTurn, Scripted, ScriptedSource, WriteTurn};
use std::alloc::{AllocError, Global};
use std::process::Abort;
use std::test::Fail;
use transport::{Arrival, Crossing, Got, OpenCrossing, Put, Source, Transport};

/// A scripted transport with room for 64 KiB of output.
fn scripted(
    rt: &impl Abort,
    alloc: Global,
    input: &[u8],
    reads: &[ReadTurn],
    writes: &[WriteTurn],
) -> Scripted {
    let (Ok(input), Ok(reads), Ok(writes)) = (
        input.to_vec(alloc),
        reads.to_vec(alloc),
        writes.to_vec(alloc),
    ) else {
        panic!(rt; "out of memory");
    };
    match Scripted::new(alloc, input, reads, writes, 65_536) {
        Ok(scripted) => scripted,
        Err(_) => panic!(rt; "out of memory"),
    }
}

/// What a read of at most four bytes gives.
fn read<T: Transport>(rt: &impl Abort, transport: &mut T, buffer: &mut [u8; 4]) -> Got {
    if transport.failures() == u64::MAX || transport.ends() == u64::MAX {
        panic!(rt; "too often");
    }
    transport.read(buffer)
}

#[test]
fn each_turn(rt: HostRuntime) -> Result<(), Fail> {
    let reads = [
        ReadTurn::AtMost(2),
        ReadTurn::Idle,
        ReadTurn::AtMost(9),
        ReadTurn::Failed,
        ReadTurn::End,
    ];
    let writes = [WriteTurn::AtMost(1), WriteTurn::Idle, WriteTurn::Failed];
    let mut transport = scripted(&rt, rt.alloc(), b"abcdefgh", &reads, &writes);
    let mut buffer = [0; 4];
    assert_same(&rt, &read(&rt, &mut transport, &mut buffer), &Got::Bytes(2));
    assert_same(&rt, &buffer, &*b"ab\0\0");
    assert_same(&rt, &read(&rt, &mut transport, &mut buffer), &Got::Idle);
    assert_same(&rt, &read(&rt, &mut transport, &mut buffer), &Got::Bytes(4));
    assert_same(&rt, &buffer, &*b"cdef");
    assert_same(&rt, &read(&rt, &mut transport, &mut buffer), &Got::Failed);
    assert_same(&rt, &read(&rt, &mut transport, &mut buffer), &Got::End);
    assert_same(&rt, &read(&rt, &mut transport, &mut buffer), &Got::Bytes(2));
    assert_same(&rt, &read(&rt, &mut transport, &mut buffer), &Got::End);
    assert_same(&rt, &write(&rt, &mut transport, b"xyz"), &Put::Wrote(1));
    assert_same(&rt, &write(&rt, &mut transport, b"yz"), &Put::Idle);
    assert_same(&rt, &write(&rt, &mut transport, b"yz"), &Put::Failed);
    assert_same(&rt, &write(&rt, &mut transport, b"yz"), &Put::Wrote(2));
    assert_items(&rt, transport.output(), b"xyz".as_slice());
    assert_same(
        &rt,
        &[transport.failures(), transport.ends(), transport.idles()],
        &[2, 2, 1],
    );
    Ok(())
}

/// The first byte that comes over the next transport of a source, of any kind.
fn next_byte<T: Transport + Drop, S: Source<T>>(source: &mut S) -> Option<u8>
    requires { MayCome (S.tally source.old) }
{
    match source.next() {
        Arrival::Came(mut transport) => {
            let mut buffer = [0];
            match transport.read(&mut buffer) {
                Got::Bytes(_) => Some(buffer[0]),
                Got::Idle | Got::End | Got::Failed => None,
            }
        }
        Arrival::Idle | Arrival::End | Arrival::Failed => None,
    }
}

/// A transport over which this byte comes.
fn sends(alloc: Global, byte: u8) -> Result<Scripted, AllocError>
    ensures { IfOk result (λ scripted. scripted.counts ≡ no_counts) }
{
    let input = vec![in alloc; byte]?;
    Scripted::new(alloc, input, Vec::new(alloc), Vec::new(alloc), 0)
}

#[test]
fn arrivals(rt: HostRuntime) -> Result<(), Fail> {
    let first = sends(rt.alloc(), 6)?;
    let second = sends(rt.alloc(), 7)?;
    let turns = vec![in rt.alloc();
        Arrival::Came(first),
        Arrival::Failed,
        Arrival::Idle,
        Arrival::Came(second),
    ]?;
    let mut source = ScriptedSource::new(turns);
    let mut came = [None; 5];
    for place in 0..5usize {
        if source.failures() == u64::MAX || source.arrivals() == u64::MAX {
            panic!(rt; "too often");
        }
        came[place] = next_byte(&mut source);
    }
    assert_same(&rt, &came, &[Some(6), None, None, Some(7), None]);
    assert_same(&rt, &[source.failures(), source.arrivals()], &[1, 2]);
    Ok(())
}

/// Whether a crossing lets a worker pass within so many turns. Where not, it refused each.
fn passes<X: Crossing>(crossing: &X, worker: u32, turns: u32) -> bool
    ensures { result ≡ false → (turn : ℕ) → turn < turns → X.refuses crossing.now worker turn }
{
    for turn in 0..turns {
        if crossing.cross(worker, turn) {
            return true;
        }
    }
    false
}

#[test]
fn stand_ins(rt: HostRuntime) {
    assert!(rt; passes(&OpenCrossing, 1, 1));
}
