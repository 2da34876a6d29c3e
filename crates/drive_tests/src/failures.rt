//! Runs whose lines are none, and runs whose reader or writer fails.
use crate::acting::{assert_same, assert_same_bytes, plain};
use crate::clients::{CONNECT, FIRST_JOB_OUT, JOB, SUBSCRIBE, join};
use drive::drive_lines;
use solo_output::solo;
use std::alloc::Global;
use std::io;
use std::io::{ErrorKind, Read, Write};
use std::process::Abort;
use std::test::Fail;
use text_io::{DeviceFault, RunError};

/// A form of a run.
#[derive(Clone, Copy)]
enum Form {
    Solo,
    Drive,
}

/// A run of that form.
fn run<R: Read, W: Write>(
    alloc: Global,
    form: Form,
    reader: &mut R,
    writer: &mut W,
) -> Result<(), RunError> {
    match form {
        Form::Solo => solo(alloc, plain(alloc), reader, writer),
        Form::Drive => drive_lines(alloc, plain(alloc), reader, writer),
    }
}

/// A writer that takes some bytes, one a write, and then fails at each write and flush.
#[derive(Drop)]
struct FailingWriter {
    taken: Vec<u8>,
    room: usize,
}

impl FailingWriter {
    fn new(alloc: Global, room: usize) -> FailingWriter {
        FailingWriter {
            taken: Vec::new(alloc),
            room,
        }
    }
}

impl Write for FailingWriter {
    fn write(&mut self, buf: &[u8]) -> io::Result<usize> {
        let Some(byte) = buf.first() else {
            return Ok(0);
        };
        if self.taken.len() >= self.room {
            return Err(io::Error::from(ErrorKind::BrokenPipe));
        }
        self.taken.push(*byte)?;
        Ok(1)
    }

    fn flush(&mut self) -> io::Result<()> {
        if self.taken.len() >= self.room {
            return Err(io::Error::from(ErrorKind::BrokenPipe));
        }
        Ok(())
    }
}

/// A bad line is told though the writer takes nothing.
#[test]
fn bad_input(rt: HostRuntime) {
    let bad: [(Form, &[u8], u64); 7] = [
        (Form::Solo, b"1", 1),
        (Form::Solo, b"10\n1", 2),
        (Form::Solo, b"\n\n0x\n", 3),
        (Form::Solo, b"10\r\n", 1),
        (Form::Solo, b"10 \n1", 1),
        (Form::Drive, b"0 opens 0\n", 1),
        (Form::Drive, b"0 open 0\n0 open 64", 2),
    ];
    for (form, input, line) in bad.iter() {
        let mut writer = FailingWriter::new(rt.alloc(), 0);
        let ended = run(rt.alloc(), *form, &mut &input[..], &mut writer);
        assert_same(&rt, &ended, &Err(RunError::Line(*line)));
        assert_same(&rt, &writer.taken.len(), &0);
        assert_same(&rt, &RunError::Line(*line).status(), &5);
    }
}

/// A reader that gives some bytes and then fails.
#[derive(Drop)]
struct FailingReader<'a>(&'a [u8]);

impl Read for FailingReader<'_> {
    fn read(&mut self, buf: &mut [u8]) -> io::Result<usize> {
        match self.0.read(buf) {
            Ok(0) | Err(_) => Err(io::Error::from(ErrorKind::ConnectionReset)),
            Ok(count) => Ok(count),
        }
    }
}

/// A reader's failure is told though a line that came before is bad.
#[test]
fn reader_fails(rt: HostRuntime) {
    let rows: [(Form, &[u8]); 4] = [
        (Form::Solo, CONNECT),
        (Form::Solo, b"0x\n"),
        (Form::Drive, b"0 open 0\n"),
        (Form::Drive, b"0 opens 0\n"),
    ];
    for (form, read) in rows.iter() {
        let mut writer = Vec::new(rt.alloc());
        let ended = run(rt.alloc(), *form, &mut FailingReader(read), &mut writer);
        assert_same(&rt, &ended, &Err(RunError::ReadFailed));
        assert_same(&rt, &writer.len(), &0);
    }
    assert_same(&rt, &RunError::ReadFailed.status(), &3);
}

/// A reader that gives an empty line a read, so many times.
#[derive(Drop)]
struct EmptyLines(u32);

impl Read for EmptyLines {
    fn read(&mut self, buf: &mut [u8]) -> io::Result<usize> {
        let (Some(byte), Some(left)) = (buf.first_mut(), self.0.checked_sub(1)) else {
            return Ok(0);
        };
        *byte = b'\n';
        self.0 = left;
        Ok(1)
    }
}

/// The read that finds the end counts too.
#[test]
fn most_reads(rt: HostRuntime) {
    let rows = [
        ((1 << 20) - 1, Ok(())),
        (1 << 20, Err(RunError::TooManyReads)),
    ];
    for (lines, wanted) in rows.iter() {
        let mut writer = Vec::new(rt.alloc());
        let ended = run(rt.alloc(), Form::Solo, &mut EmptyLines(*lines), &mut writer);
        assert_same(&rt, &ended, wanted);
        assert_same(&rt, &writer.len(), &0);
    }
    assert_same(&rt, &RunError::TooManyReads.status(), &3);
}

/// Reads are counted, and lines are not.
#[test]
fn more_lines_than_reads(rt: HostRuntime) -> Result<(), Fail> {
    let lines = vec![in rt.alloc(); b'\n'; (1 << 20) + 1]?;
    for form in [Form::Solo, Form::Drive].iter() {
        let mut writer = Vec::new(rt.alloc());
        let ended = run(rt.alloc(), *form, &mut lines.as_slice(), &mut writer);
        assert_same(&rt, &ended, &Ok(()));
        assert_same(&rt, &writer.len(), &0);
    }
    Ok(())
}

/// A client that subscribes and ends, with the number 7 in `drive`.
const EVENTS: &[u8] = b"\
0 open 7
0 bytes 7 100F00044D5154540502003C00000277318212000100000C2473686172652F672F6A6F6201
0 end 7
";

/// What is said to it.
const SAID: &[u8] = b"\
7 200c000009240125002700010000
7 900400010001
7 close
$share/g/job accepted 0 acknowledged 0 refused 0 held 0 queued 0 returned 0 discarded 0
";

/// A writer that fails after each byte of the output has the bytes up to there.
fn fail_behind_each(rt: &impl Abort, alloc: Global, form: Form, input: &[u8], output: &[u8]) {
    for room in 0..=output.len() {
        let mut writer = FailingWriter::new(alloc, room);
        let ended = run(alloc, form, &mut &input[..], &mut writer);
        assert_same(&rt, &ended, &Err(RunError::WriteFailed(DeviceFault::Other)));
        assert_same_bytes(rt, &writer.taken, &output[..room], "behind a byte");
    }
}

#[test]
fn writer_fails(rt: HostRuntime) -> Result<(), Fail> {
    let input = join(rt.alloc(), &[CONNECT, SUBSCRIBE, JOB])?;
    fail_behind_each(&rt, rt.alloc(), Form::Solo, &input, FIRST_JOB_OUT);
    fail_behind_each(&rt, rt.alloc(), Form::Drive, EVENTS, SAID);
    assert_same(&rt, &RunError::WriteFailed(DeviceFault::Other).status(), &3);
    Ok(())
}
