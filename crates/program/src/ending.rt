//! The words, what they ask for, and the status.
ghost use Rattle.std.specs.Prelude.{◌≡◌, map, string_bytes};
ghost use Rattle.program.specs.Ending.{Did, Ends, EndsAsAsked, HasSaid, Tells, status_at};

use crate::asking::{Asked, asked_by};
use crate::hashing::hash_password;
use crate::serving::serve;
use arguments::Request;
use drive::drive_lines;
use solo_output::solo;
use std::alloc::Global;
use std::io;
use std::io::{Read, Write};
use std::net::Net;
use std::random::RandomSource;
use std::rt::{Clock, Files};
use std::sync::Wait;
use std::thread::Threads;
use text_io::{RunError, tell, write_all};

/// The status that the program ends with where its words are wrong.
const USAGE: u8 = 2;

/// How the program ends.
#[derive(Debug, Drop)]
pub struct Exit {
    /// The status that it ends with: 0, 2, 3, 4 or 5, as [`run`] has it.
    pub status: u8,
    /// Whether all that was to be said on the error output stands there. An error is [`RunError::WriteFailed`] where that failed, or
    /// [`RunError::Memory`]; a beginning stands there then.
    pub told: Result<(), RunError>,
}

/// The program: does what its words ask for, its own name in front, and says how it ends. `hash-password` needs random bytes. `serve` needs threads, sockets, a clock and, with `--users`, the file, and returns
/// only once the reader has ended, or at an error, and all connections have ended; with `--until killed` it reads nothing, and returns at an error alone.
///
/// | Status | |
/// |---|---|
/// | 0 | all was written, and of `serve` the reader has ended; or the help or the version was |
/// | 2 | the words are wrong, which is said on the error output; nothing was read |
/// | 3 | the reader, the output or the network failed, 2^20 reads did not reach the input's end, the file with the users cannot be read, or the system gave no random bytes |
/// | 4 | memory was refused, or what became of the messages of a group is not known |
/// | 5 | a line of the input is none that the command takes, or one of the file with the users is no user's; nothing was run |
///
/// What a broker's log says (`--log`) stands on the error output first. At 3, 4 and 5 it then has a line that says so: `device` or `memory`, and behind a colon why, where that is known; `unfinished`, `input line N` or `users line N`. Where it fails, or memory for that line is
/// refused, it has a beginning of that, and [`Exit::told`] says so.
///
/// The words are an error where one of them is no UTF-8 text, which ends as wrong words do, or where memory was refused for them.
pub fn run<
    H: Threads + Wait + Net + Clock + Files + RandomSource + Sync,
    R: Read + Send,
    W: Write,
    E: Write + Send,
>(
    rt: &H,
    alloc: Global,
    words: io::Result<Vec<String>>,
    reader: &mut R,
    output: &mut W,
    errors: &mut E,
) -> Exit
    // It ends as what its words ask for ends.
    ensures ends { EndsAsAsked words (λ given. map string_bytes given.items)
        (record { input = R.remaining reader.old; output = W.contents output.old; errors = E.contents errors.old })
        (record { input = R.remaining reader.new; output = W.contents output.new; errors = E.contents errors.new }) result }
{
    perform(rt, alloc, asked_by(alloc, words), reader, output, errors)
}

/// Does what was asked for, and says how the program ends, as [`run`].
pub fn perform<
    H: Threads + Wait + Net + Clock + Files + RandomSource + Sync,
    R: Read + Send,
    W: Write,
    E: Write + Send,
>(
    rt: &H,
    alloc: Global,
    asked: Result<Asked, RunError>,
    reader: &mut R,
    output: &mut W,
    errors: &mut E,
) -> Exit
    ensures ends { Ends asked
        (record { input = R.remaining reader.old; output = W.contents output.old; errors = E.contents errors.old })
        (record { input = R.remaining reader.new; output = W.contents output.new; errors = E.contents errors.new }) result }
{
    match asked {
        Ok(Asked::Run(request)) => {
            let ended = command(rt, alloc, request, reader, output, errors);
            conclude(alloc, ended, errors)
        }
        Ok(Asked::Show(text)) => {
            let ended = write_all(output, text.as_bytes());
            conclude(alloc, ended, errors)
        }
        Ok(Asked::Refuse(text)) => Exit {
            status: USAGE,
            told: write_all(errors, text.as_bytes()),
        },
        Err(error) => conclude(alloc, Err(error), errors),
    }
}

/// Runs a command. What a broker says while it serves stands on the error output then.
fn command<
    H: Threads + Wait + Net + Clock + Files + RandomSource + Sync,
    R: Read + Send,
    W: Write,
    E: Write + Send,
>(
    rt: &H,
    alloc: Global,
    request: Request,
    reader: &mut R,
    output: &mut W,
    errors: &mut E,
) -> Result<(), RunError>
    ensures did { Did request result (R.remaining reader.old) (R.remaining reader.new) (W.contents output.old) (W.contents output.new) }
    ensures said { HasSaid request (E.contents errors.old) (E.contents errors.new) }
{
    match request {
        Request::Solo(setup) => solo(alloc, setup, reader, output),
        Request::Drive(setup) => drive_lines(alloc, setup, reader, output),
        Request::Serve(service) => serve(rt, alloc, &service, reader, output, errors),
        Request::HashPassword(password) => hash_password(rt, alloc, &password, reader, output),
    }
}

/// How the program ends where what it did came to an end so: an error is told.
fn conclude<E: Write>(alloc: Global, ended: Result<(), RunError>, errors: &mut E) -> Exit
    ensures status { result.status ≡ status_at ended }
    ensures told { Tells ended result.told (E.contents errors.old) (E.contents errors.new) }
{
    match ended {
        Ok(()) => Exit {
            status: 0,
            told: Ok(()),
        },
        Err(error) => Exit {
            status: error.status(),
            told: tell(alloc, error, errors),
        },
    }
}
