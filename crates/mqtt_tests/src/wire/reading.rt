//! Streams that are read straight from a reader.

use crate::asserting::assert_same;
use crate::wire::next_written;
use mqtt_fields::{Fault, StreamFault};
use mqtt_wire::{ReadFault, Splitter};
use std::alloc::Global;
use std::io;
use std::io::{ErrorKind, Read};
use std::test::Fail;

/// A PINGREQ and the beginning of another.
const PINGS: [u8; 3] = [0xC0, 0x00, 0xC0];

/// A reader that fails at first, and then gives one byte of a PINGREQ at a time.
#[derive(Drop)]
struct Stumbling {
    reads: u32,
}

impl Read for Stumbling {
    fn read(&mut self, buffer: &mut [u8]) -> io::Result<usize> {
        let turn = self.reads;
        self.reads = turn.saturating_add(1);
        if turn == 0 {
            return Err(io::Error::from(ErrorKind::ConnectionReset));
        }
        match buffer.first_mut() {
            Some(first) => {
                *first = if turn == 1 { 0xC0 } else { 0x00 };
                Ok(1)
            }
            None => Ok(0),
        }
    }
}

/// How many bytes a read gave; else why it was refused, or nothing where the reader failed.
fn read_some<R: Read>(splitter: &mut Splitter, reader: &mut R) -> Result<usize, Option<Fault>> {
    match splitter.read_from(reader) {
        Ok(count) => Ok(count),
        Err(ReadFault::Refused(fault)) => Err(Some(fault)),
        Err(ReadFault::Device(_)) => Err(None),
    }
}

/// Whether a PINGREQ is next.
fn is_pinged(alloc: Global, splitter: &mut Splitter) -> Result<bool, Fault> {
    match next_written(alloc, splitter)? {
        Some(bytes) => Ok(bytes.as_slice() == [0xC0, 0x00].as_slice()),
        None => Ok(false),
    }
}

#[test]
fn what_a_reader_gives(rt: HostRuntime) -> Result<(), Fail> {
    let mut splitter = Splitter::new(rt.alloc());
    let mut reader = PINGS.as_slice();
    assert_same(&rt, &read_some(&mut splitter, &mut reader), &Ok(3));
    assert_same(&rt, &is_pinged(rt.alloc(), &mut splitter), &Ok(true));
    assert_same(&rt, &is_pinged(rt.alloc(), &mut splitter), &Ok(false));
    assert_same(&rt, &read_some(&mut splitter, &mut reader), &Ok(0));
    Ok(())
}

#[test]
fn a_reader_that_fails(rt: HostRuntime) -> Result<(), Fail> {
    let mut splitter = Splitter::new(rt.alloc());
    let mut reader = Stumbling { reads: 0 };
    for answer in &[Err(None), Ok(1), Ok(1)] {
        assert_same(&rt, &read_some(&mut splitter, &mut reader), answer);
    }
    assert_same(&rt, &is_pinged(rt.alloc(), &mut splitter), &Ok(true));
    Ok(())
}

#[test]
fn nothing_is_read_behind_a_fault(rt: HostRuntime) -> Result<(), Fail> {
    let malformed = Fault::Stream(StreamFault::Malformed);
    let mut splitter = Splitter::new(rt.alloc());
    splitter.feed(&[0x00])?;
    assert_same(&rt, &is_pinged(rt.alloc(), &mut splitter), &Err(malformed));
    let mut reader = PINGS.as_slice();
    assert_same(
        &rt,
        &read_some(&mut splitter, &mut reader),
        &Err(Some(malformed)),
    );
    assert_same(&rt, &reader.len(), &3);
    Ok(())
}
