//! What is written, to the end of it or to a failure.
ghost use Rattle.std.specs.Prelude.{◌≡◌, OnOk, OnErr, IfErr};
ghost use Rattle.std.specs.Io.KnownBytes.{Appends};
ghost use Rattle.text_io.specs.Passing.{Begins};
ghost use Rattle.text_io.specs.Faults.{fault_of_write};
ghost use Rattle.text_io.specs.Status.{IsOfWriting};

use crate::error::{DeviceFault, RunError};
use std::io::{ErrorKind, Write};

/// What it means that a write failed so.
fn not_written(kind: ErrorKind) -> RunError
    ensures { result ≡ RunError.WriteFailed (fault_of_write kind) }
{
    let fault = match kind {
        ErrorKind::StorageFull | ErrorKind::QuotaExceeded => DeviceFault::NoSpace,
        _ => DeviceFault::Other,
    };
    RunError::WriteFailed(fault)
}

/// Writes all of the bytes. At a failure the writer has a beginning of them.
//
// `Write::write_all` does not say what was written at a failure. The turns are counted, so that the loop ends whatever the writer answers.
fn write_out<W: Write>(writer: &mut W, bytes: &[u8]) -> Result<(), RunError>
    ensures ok { OnOk result (Appends (W.contents writer.old) (W.contents writer.new) bytes.now) }
    ensures err { OnErr result (Begins (W.contents writer.old) (W.contents writer.new) bytes.now) }
    ensures cause { IfErr result IsOfWriting }
{
    let mut rest = bytes;
    for _ in 0..u64::MAX {
        if rest.is_empty() {
            return Ok(());
        }
        match writer.write(rest) {
            Ok(0) => return Err(RunError::WriteFailed(DeviceFault::Other)),
            Ok(count) => rest = &rest[count..],
            Err(e) if e.kind() == ErrorKind::Interrupted => {}
            Err(e) => return Err(not_written(e.kind())),
        }
    }
    Err(RunError::WriteFailed(DeviceFault::Other))
}

/// Writes all of a text. At a failure the writer has a beginning of it.
///
/// # Errors
///
/// [`RunError::WriteFailed`].
pub fn write_all<W: Write>(writer: &mut W, text: &[u8]) -> Result<(), RunError>
    ensures ok { OnOk result (Appends (W.contents writer.old) (W.contents writer.new) text.now) }
    ensures err { OnErr result (Begins (W.contents writer.old) (W.contents writer.new) text.now) }
    ensures cause { IfErr result IsOfWriting }
{
    write_out(writer, text)?;
    match writer.flush() {
        Ok(()) => Ok(()),
        Err(e) => Err(not_written(e.kind())),
    }
}
