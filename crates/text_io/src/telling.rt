//! What is said of an error.
ghost use Rattle.std.specs.Prelude.{◌≡◌, ◌⊎◌, IfErr, OnOk, OnErr};
ghost use Rattle.std.specs.Io.KnownBytes.{Appends};
ghost use Rattle.text_io.specs.Passing.{Begins};
ghost use Rattle.text_io.specs.Faults.{device_line};
ghost use Rattle.text_io.specs.Status.{IsOfWriting, error_line};
ghost use Rattle.text_io.specs.declared.error.RunError.TheVariants.{Memory};

use crate::error::{DeviceFault, RunError};
use crate::output::write_all;
use std::alloc::Global;
use std::io::Write;

/// The line of a device that failed so.
fn line_of(fault: DeviceFault) -> &'static [u8]
    ensures { result.now ≡ device_line fault }
{
    match fault {
        DeviceFault::PortInUse => b"device: the port is in use\n",
        DeviceFault::MetricsPortInUse => b"device: the port of the metrics is in use\n",
        DeviceFault::AddressElsewhere => b"device: the address is not one of this machine\n",
        DeviceFault::TooFewDescriptors => b"device: too few file descriptors\n",
        DeviceFault::NotPermitted => b"device: permission denied\n",
        DeviceFault::NoSpace => b"device: no space left\n",
        DeviceFault::Other => b"device\n",
    }
}

/// Writes the line of an error: `device` or `memory`, and behind a colon why, where that is known; `unfinished`, `input line N`, or `users line N`. At a failure the writer has a beginning of it.
///
/// # Errors
///
/// [`RunError::WriteFailed`], and [`RunError::Memory`] at the line of a [`RunError::Line`] or a [`RunError::UsersLine`].
pub fn tell<W: Write>(alloc: Global, error: RunError, writer: &mut W) -> Result<(), RunError>
    ensures ok { OnOk result (Appends (W.contents writer.old) (W.contents writer.new) (error_line error)) }
    ensures err { OnErr result (Begins (W.contents writer.old) (W.contents writer.new) (error_line error)) }
    ensures cause { IfErr result (λ failure. IsOfWriting failure ⊎ (failure ≡ Memory)) }
{
    match error {
        RunError::ReadFailed | RunError::TooManyReads => write_all(writer, b"device\n"),
        RunError::WriteFailed(fault) | RunError::Network(fault) => write_all(
            writer,
            line_of(fault),
        ),
        RunError::UsersUnread => write_all(writer, b"device: the users file cannot be read\n"),
        RunError::NoRandomBytes => write_all(writer, b"device: no random bytes\n"),
        RunError::Memory => write_all(writer, b"memory\n"),
        RunError::TooFewDescriptors => write_all(writer, b"memory: too few file descriptors\n"),
        RunError::Unfinished => write_all(writer, b"unfinished\n"),
        RunError::Line(number) => {
            let line = format!(in alloc; "input line {number}\n")?;
            write_all(writer, line.as_bytes())
        }
        RunError::UsersLine(number) => {
            let line = format!(in alloc; "users line {number}\n")?;
            write_all(writer, line.as_bytes())
        }
    }
}
