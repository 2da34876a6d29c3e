//! `solo`: one client, from its stream in lines of hex digits to what it is sent.
ghost use Rattle.std.specs.Prelude.{◌≡◌, ℕ, Err, IfErr, IfSome, OnOk};
ghost use Rattle.std.specs.Io.KnownBytes.{Keeps};
ghost use Rattle.text_io.specs.Status.{IsOfWriting};
ghost use Rattle.text_io.specs.declared.error.DeviceFault.{DeviceFault};
ghost use Rattle.drive.specs.Transcripts.{Writes, BeginsTo};
ghost use Rattle.solo_output.specs.Output.{IsOutputFor};
ghost use Rattle.solo_output.specs.Streams.{stream_of};

use conn_rules::Setup;
use drive::drive_client;
use std::alloc::Global;
use std::io::{Read, Write};
use text_io::RunError;

/// Runs one client against a server: reads its stream as lines of hex digits, a piece a line, and writes a line for each packet
/// that it is sent; at the end the line of the report of each share that is bound. All happens at the moment 0.
///
/// It reads at most 2^20 times. Nothing is run where a line is not hex.
///
/// # Errors
///
/// [`RunError::Line`] for the first line that is not an even number of hex digits; [`RunError::ReadFailed`]; [`RunError::TooManyReads`]
/// where 2^20 reads did not reach the input's end; and [`RunError::Memory`]: nothing was written then. [`RunError::WriteFailed`]: what was
/// written begins the output.
pub fn solo<R: Read, W: Write>(
    alloc: Global,
    setup: Setup,
    reader: &mut R,
    writer: &mut W,
) -> Result<(), RunError>
    // What was written is the output that is defined for the input, and nothing else.
    ensures ended { OnOk result (IfSome (R.remaining reader.old)
        (λ input. Writes (IsOutputFor setup input) (W.contents writer.old) (W.contents writer.new))) }
    // A line that is named is the first that is not hex.
    ensures bad_line { (line : ℕ) → result ≡ Err (RunError.Line line) → IfSome (R.remaining reader.old)
        (λ input. stream_of input ≡ Err line) }
    // Where the writer failed, what was written begins that output; at each other error nothing was written.
    ensures begun { (fault : DeviceFault) → result ≡ Err (RunError.WriteFailed fault) → IfSome (R.remaining reader.old)
        (λ input. BeginsTo (IsOutputFor setup input) (W.contents writer.old) (W.contents writer.new)) }
    ensures kept { IfErr result (λ error. ¬ IsOfWriting error → Keeps (W.contents writer.old) (W.contents writer.new)) }
{
    prove!(setup.groups.shares().len() <= 8);
    prove!(setup.capacity.get() <= 65_536);
    drive_client(alloc, setup, reader, writer)
}
