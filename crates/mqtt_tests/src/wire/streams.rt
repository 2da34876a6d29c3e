//! Streams of packets, read and written again, and the faults that they show.

use crate::asserting::assert_same_at;
use crate::wire::next_written;
use mqtt_fields::Fault;
use mqtt_wire::Splitter;
use std::alloc::Global;
use std::test::Fail;

// CONNECT, SUBSCRIBE, PUBLISH, PUBACK and DISCONNECT, one after another, as a client sends them.
const STREAM: [u8; 54] = [
    0x10, 0x0F, 0x00, 0x04, 0x4D, 0x51, 0x54, 0x54, 0x05, 0x02, 0x00, 0x3C, 0x00, 0x00, 0x02, 0x77,
    0x31, 0x82, 0x12, 0x00, 0x01, 0x00, 0x00, 0x0C, 0x24, 0x73, 0x68, 0x61, 0x72, 0x65, 0x2F, 0x67,
    0x2F, 0x6A, 0x6F, 0x62, 0x01, 0x32, 0x09, 0x00, 0x03, 0x6A, 0x6F, 0x62, 0x00, 0x07, 0x00, 0x41,
    0x40, 0x02, 0x00, 0x01, 0xE0, 0x00,
];

// Feeds a piece, and writes each packet again that is whole then.
fn write_again(
    alloc: Global,
    splitter: &mut Splitter,
    piece: &[u8],
    again: &mut Vec<u8>,
) -> Result<(), Fault> {
    splitter.feed(piece)?;
    for _ in 0..8 {
        let Some(bytes) = next_written(alloc, splitter)? else {
            break;
        };
        again.extend_from_slice(&bytes)?;
    }
    Ok(())
}

// The packets of the stream in pieces of that size, each written again.
fn in_pieces(alloc: Global, size: usize) -> Result<Vec<u8>, Fault> {
    let mut splitter = Splitter::new(alloc);
    let mut again = Vec::new(alloc);
    for piece in STREAM.chunks(size.max(1)) {
        write_again(alloc, &mut splitter, piece, &mut again)?;
    }
    Ok(again)
}

// The packets of the stream cut in two at that byte, each written again.
fn in_two(alloc: Global, at: usize) -> Result<Vec<u8>, Fault> {
    let (front, back) = STREAM.split_at(at.min(STREAM.len()));
    let mut splitter = Splitter::new(alloc);
    let mut again = Vec::new(alloc);
    write_again(alloc, &mut splitter, front, &mut again)?;
    write_again(alloc, &mut splitter, back, &mut again)?;
    Ok(again)
}

#[test]
fn every_cutting(rt: HostRuntime) -> Result<(), Fail> {
    for place in 0..55usize {
        let again = in_pieces(rt.alloc(), place)?;
        assert_eq!(rt; again.as_slice(), STREAM.as_slice(), "in pieces of {place}");
        let again = in_two(rt.alloc(), place)?;
        assert_eq!(rt; again.as_slice(), STREAM.as_slice(), "in two at {place}");
    }
    Ok(())
}

// A PUBLISH of 65,536 bytes, the most that is read.
fn longest_publish(alloc: Global) -> Result<Vec<u8>, Fault> {
    let mut bytes = Vec::from_slice(alloc, b"\x32\xFC\xFF\x03\x00\x01a\x00\x07\x00")?;
    bytes.resize(65_536, 0x41)?;
    Ok(bytes)
}

#[test]
fn longest_packet(rt: HostRuntime) -> Result<(), Fail> {
    let bytes = longest_publish(rt.alloc())?;
    let again = first_again(rt.alloc(), &mut Splitter::new(rt.alloc()), &bytes)?;
    assert!(rt; again.as_slice() == bytes.as_slice());
    Ok(())
}

// What a splitter answers to these bytes: the number of a fault, 0 where it wants more, 1 for a packet.
fn answer_to(alloc: Global, stream: &[u8]) -> Result<u16, Fault> {
    let mut splitter = Splitter::new(alloc);
    splitter.feed(stream)?;
    match next_written(alloc, &mut splitter) {
        Ok(None) => Ok(0),
        Ok(Some(_)) => Ok(1),
        Err(Fault::Memory) => Err(Fault::Memory),
        Err(fault) => match next_written(alloc, &mut splitter) {
            Err(again) if again == fault => Ok(fault.number()),
            _ => Ok(2),
        },
    }
}

// Packets of every kind in their written form, with every property that they may have.
const WRITTEN: &str = "\
103800044D51545405C2003C23110000000A1500016D16000164170119002100052200032600016B000176270000100000027731000175000170
101000044D51545405400000000000000170
3B2500016100071D0101020000000A0300016308000172090001642300022600016B0001764142
320E00036A6F620001050200000E1041
30050001610041
3406000161000700
400F0007100B1F0001722600016B000176
4003000710
82140001090B052600016B0001760001612D00016212
820A0001030BC80100016100
A21600020E2600016B000176260001610001620001610000
C000
E000
E00104
E0120010110000000A1F0001722600016B000176
F000
6200
1003000004
100800044D5154540504
";

// A packet in another form, and its written form.
const SPELLED: &str = "\
321400036A6F6200070B2600016B0001760300016141 321400036A6F6200070B030001612600016B00017641
4003000700 40020007
400400070000 40020007
E00100 E000
D00100 D000
101000064D51497364700302003C00027731 1003000003
100B00044D515454052E003C00 100800044D5154540504
";

// Bytes, and the number of the fault that they show; 0 where more bytes are wanted.
const FAULTS: &str = "\
82FFFFFF 0
32FCFF03 0
C0 0
00 101
36 101
41 101
80 101
F1 101
829200 101
82FFFFFFFF 101
82FFFFFF00 101
82FFFFFF7F 103
32FDFF03 103
C00100 101
100D00044D51545405030000000000 101
100D00044D515454051C0000000000 101
100D00044D51545405080000000000 101
100D00044D51545405200000000000 101
100600054D515454 101
100600044D515454 101
10040001FF05 101
100E00044D5154540502000000000100 101
100E00044D5154540502000000000000 101
100D00044D51545405820000000000 101
101100044D5154540502000005110000000000 101
101700044D515454050200000A110000000111000000010000 102
101100044D5154540502000004160001640000 102
100F00044D515454050200000217020000 102
100F00044D515454050200000219020000 102
101000044D51545405020000032100000000 102
101200044D515454050200000527000000000000 102
100F00044D51545405020000020B010000 101
100F00044D515454050200000280010000 101
100E00044D5154540502000080000000 101
3206000161000000 102
320E0001610007080300016103000161 102
32080001610007020B01 102
320B00036A6F620001020B0541 102
320C00036A6F620001030BC80141 102
321000016100070A02000000050200000005 102
3209000161000703210001 101
3207000161000001FF 102
3207000161000701FF 101
320E00016100070803000161030001FF 102
320E000161000708030001FF03000161 101
320A00016100070409000561 101
32080001610007022300 101
40020000 102
40050001000123 101
40050001000000 101
400100 101
400400010005 101
4008000100FFFFFFFF01 101
8203000100 102
820700000000016101 102
820700010000016103 102
820700010000016130 102
820700010000016140 101
820700010000016143 101
82090001020B0000016101 102
820A0001030B800000016101 101
82080001800000016101 101
820700010000016181 101
8209000102010100016101 101
A203000100 102
A206000000000161 102
A2080001020B01000161 101
E00600041F000100 101
E00400022100 101
E003000000 101
";

// The first packet of these bytes, written again.
fn rewritten(alloc: Global, digits: &str) -> Result<Vec<u8>, Fault> {
    let bytes = bytes_of(alloc, digits)?;
    let mut splitter = Splitter::new(alloc);
    first_again(alloc, &mut splitter, &bytes)
}

// Feeds a stream, and writes its first packet again.
fn first_again(alloc: Global, splitter: &mut Splitter, stream: &[u8]) -> Result<Vec<u8>, Fault> {
    splitter.feed(stream)?;
    match next_written(alloc, splitter) {
        Ok(Some(bytes)) => Ok(bytes),
        Ok(None) => Ok(Vec::new(alloc)),
        Err(fault) => Err(fault),
    }
}

// The bytes that hex digits say; a lack of memory where they say none.
fn bytes_of(alloc: Global, digits: &str) -> Result<Vec<u8>, Fault> {
    match hex::decode(alloc, digits) {
        Ok(bytes) => Ok(bytes),
        Err(_) => Err(Fault::Memory),
    }
}

#[test]
fn packets(rt: HostRuntime) -> Result<(), Fail> {
    for line in WRITTEN.lines() {
        let again = rewritten(rt.alloc(), line)?;
        let bytes = bytes_of(rt.alloc(), line)?;
        assert_eq!(rt; again.as_slice(), bytes.as_slice(), "{line}");
    }
    Ok(())
}

#[test]
fn other_spellings(rt: HostRuntime) -> Result<(), Fail> {
    for line in SPELLED.lines() {
        let (spelled, written) = line.split_once(' ').ok_or("two words")?;
        let again = rewritten(rt.alloc(), spelled)?;
        let bytes = bytes_of(rt.alloc(), written)?;
        assert_eq!(rt; again.as_slice(), bytes.as_slice(), "{line}");
    }
    Ok(())
}

#[test]
fn faults(rt: HostRuntime) -> Result<(), Fail> {
    for line in FAULTS.lines() {
        let (digits, number) = line.split_once(' ').ok_or("two words")?;
        let answer = answer_to(rt.alloc(), &bytes_of(rt.alloc(), digits)?)?;
        assert_same_at(&rt, &Some(answer), &number.parse().ok(), line);
    }
    Ok(())
}

// A SUBSCRIBE of 33 entries, each of the filter `a`: its Remaining Length is 135.
fn subscribe(alloc: Global) -> Result<Vec<u8>, Fault> {
    let mut bytes = Vec::from_slice(alloc, &[0x82, 0x87, 0x01, 0, 1, 0])?;
    for _ in 0..33u8 {
        bytes.extend_from_slice(b"\0\x01a\x01")?;
    }
    Ok(bytes)
}

#[test]
fn more_than_32_entries(rt: HostRuntime) -> Result<(), Fail> {
    let bytes = subscribe(rt.alloc())?;
    let again = first_again(rt.alloc(), &mut Splitter::new(rt.alloc()), &bytes)?;
    assert!(rt; again.as_slice() == bytes.as_slice());
    Ok(())
}
