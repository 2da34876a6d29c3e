//! Streams of one client: wherever they are cut, wherever they end, with bytes replaced, and long ones.
use crate::acting::{answered, plain};
use crate::clients::{CONNACK, CONNECT, FIRST_JOB_OUT, JOB, MEMBER_OUT, SUBACK, SUBSCRIBE, join};
use std::alloc::{AllocError, Global};
use std::process::Abort;
use std::test::Fail;
use text_io::RunError;

/// The digits of 48 bytes: a CONNECT of 17, a SUBSCRIBE of 20 and a PUBLISH of 11.
fn first_job(alloc: Global) -> Result<Vec<u8>, AllocError> {
    let mut digits = join(alloc, &[CONNECT, SUBSCRIBE, JOB])?;
    digits.retain(|digit| *digit != b'\n');
    Ok(digits)
}

/// What goes out for the digits in lines of that size, where `solo` ends.
fn run_in_lines(alloc: Global, digits: &[u8], size: usize) -> Result<Vec<u8>, RunError> {
    let mut lines = Vec::new(alloc);
    for line in digits.chunks(size.max(1)) {
        lines.extend_from_slice(line)?;
        lines.push(b'\n')?;
    }
    answered(alloc, plain(alloc), &lines)
}

/// What goes out for the digits in two lines, cut at that place, where `solo` ends.
fn run_in_two(alloc: Global, digits: &[u8], place: usize) -> Result<Vec<u8>, RunError> {
    let (front, back) = digits.split_at(place.min(digits.len()));
    let lines = join(alloc, &[front, b"\n", back])?;
    answered(alloc, plain(alloc), &lines)
}

/// What goes out is the same; else the number of the byte, or how many a line has, is told.
fn same_at(rt: &impl Abort, written: &[u8], wanted: &[u8], bytes: usize) {
    assert_eq!(rt; written, wanted, "at {bytes} bytes");
}

/// A stream in lines of each size, from one byte to all of them, and cut in two at each byte.
#[test]
fn every_cutting(rt: HostRuntime) -> Result<(), Fail> {
    let digits = first_job(rt.alloc())?;
    for bytes in 1..49usize {
        let written = run_in_lines(rt.alloc(), &digits, 2 * bytes)?;
        same_at(&rt, &written, FIRST_JOB_OUT, bytes);
        let written = run_in_two(rt.alloc(), &digits, 2 * bytes)?;
        same_at(&rt, &written, FIRST_JOB_OUT, bytes);
    }
    Ok(())
}

/// What goes out for the first bytes of the stream: that of the packets that are whole.
fn output_of(bytes: usize) -> &'static [u8] {
    match bytes {
        0..=16 => b"",
        17..=36 => CONNACK,
        37..=47 => MEMBER_OUT,
        _ => FIRST_JOB_OUT,
    }
}

/// What goes out for so many bytes of the digits, where `solo` ends.
fn run_of_first(alloc: Global, digits: &[u8], bytes: usize) -> Result<Vec<u8>, RunError> {
    let (first, _) = digits.split_at(bytes.saturating_mul(2).min(digits.len()));
    answered(alloc, plain(alloc), first)
}

/// A stream that ends after each byte: what goes out is that of the packets that are whole.
#[test]
fn every_end(rt: HostRuntime) -> Result<(), Fail> {
    let digits = first_job(rt.alloc())?;
    for bytes in 0..49usize {
        let written = run_of_first(rt.alloc(), &digits, bytes)?;
        same_at(&rt, &written, output_of(bytes), bytes);
    }
    Ok(())
}

/// What goes out for the digits with this byte in the place of the one at that place, where `solo` ends.
fn run_replaced(alloc: Global, digits: &[u8], place: usize, byte: u8) -> Result<Vec<u8>, RunError> {
    let (front, rest) = digits.split_at(place.min(digits.len()));
    let byte = format!(in alloc; "{byte:02x}")?;
    let line = join(
        alloc,
        &[front, byte.as_bytes(), rest.get(2..).unwrap_or(b"")],
    )?;
    answered(alloc, plain(alloc), &line)
}

/// Bytes that are put in the place of others: the least and the greatest, single bits, and around the sign bit. All 256 would
/// take `rt try` four minutes.
const BYTES: [u8; 10] = [0x00, 0x01, 0x02, 0x04, 0x10, 0x40, 0x7F, 0x80, 0x81, 0xFF];

/// With another byte at that place the run ends, and this goes out first.
fn replace(
    rt: &impl Abort,
    alloc: Global,
    digits: &[u8],
    place: usize,
    answers: &[u8],
) -> Result<(), RunError> {
    for byte in BYTES.iter() {
        let written = run_replaced(alloc, digits, place, *byte)?;
        assert!(rt; written.starts_with(answers), "{byte} at {place}");
    }
    Ok(())
}

/// A stream in which each byte is replaced: it is read to its end, and the packets before that byte are answered as they were.
#[test]
fn every_byte_replaced(rt: HostRuntime) -> Result<(), Fail> {
    let digits = first_job(rt.alloc())?;
    let both = join(rt.alloc(), &[CONNACK, SUBACK])?;
    for bytes in 0..48usize {
        let answers = match bytes {
            0..=16 => b"",
            17..=36 => CONNACK,
            _ => both.as_slice(),
        };
        replace(&rt, rt.alloc(), &digits, 2 * bytes, answers)?;
    }
    Ok(())
}

/// A packet of 65,536 bytes is read, and sent on: its payload is 65,524 bytes of zero.
#[test]
fn largest_packet(rt: HostRuntime) -> Result<(), Fail> {
    let payload = vec![in rt.alloc(); b'0'; 2 * 65_524]?;
    let input = join(
        rt.alloc(),
        &[CONNECT, SUBSCRIBE, b"32FCFF0300036A6F62000700", &payload],
    )?;
    let output = join(
        rt.alloc(),
        &[
            CONNACK,
            SUBACK,
            b"40020007\n32fcff0300036a6f62000100",
            &payload,
            b"\n$share/g/job accepted 1 acknowledged 0 refused 0 held 0 queued 0 returned 1 discarded 0\n",
        ],
    )?;
    let written = answered(rt.alloc(), plain(rt.alloc()), &input)?;
    assert!(rt; written.as_slice() == output.as_slice());
    Ok(())
}

/// What goes out where so many jobs are published, and none is acknowledged.
fn run_of_jobs(alloc: Global, count: u32) -> Result<Vec<u8>, RunError> {
    let mut input = join(alloc, &[CONNECT, SUBSCRIBE])?;
    for _ in 0..count {
        input.extend_from_slice(JOB)?;
    }
    answered(alloc, plain(alloc), &input)
}

/// Of 257 jobs 256 are sent on, under 1 to 256; the last one waits.
#[test]
fn most_jobs_out(rt: HostRuntime) -> Result<(), Fail> {
    let mut output = join(rt.alloc(), &[CONNACK, SUBACK])?;
    for identifier in 1..=256u32 {
        let line = format!(in rt.alloc(); "40020007\n320900036a6f62{identifier:04x}0041\n")?;
        output.extend_from_slice(line.as_bytes())?;
    }
    output.extend_from_slice(
        b"40020007\n$share/g/job accepted 257 acknowledged 0 refused 0 held 0 queued 1 returned 256 discarded 0\n",
    )?;
    let written = run_of_jobs(rt.alloc(), 257)?;
    assert!(rt; written.as_slice() == output.as_slice());
    Ok(())
}

/// 256 jobs are out and 1,024 wait: the next one is refused.
#[test]
fn full_queue(rt: HostRuntime) -> Result<(), Fail> {
    let written = run_of_jobs(rt.alloc(), 1_281)?;
    let end =
        b"4003000797\n$share/g/job accepted 1280 acknowledged 0 refused 0 held 0 queued 1024 returned 256 discarded 0\n";
    assert!(rt; written.ends_with(end));
    Ok(())
}
