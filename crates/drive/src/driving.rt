//! A run: from a reader of what happens to a writer of what is said.
ghost use Rattle.std.specs.Prelude.{◌≡◌, ◌++◌, List, ℕ, length, Err, OnOk, IfOk, IfErr, IfSome, Ok};
ghost use Rattle.std.specs.List.{flat_map};
ghost use Rattle.std.specs.Io.KnownBytes.{Keeps};
ghost use Rattle.text_io.specs.Status.{IsOfWriting};
ghost use Rattle.text_io.specs.declared.error.DeviceFault.{DeviceFault};
ghost use Rattle.text_io.specs.declared.error.RunError.TheVariants.{Memory};
ghost use Rattle.client_table.specs.Clients.{StepOutput as Output};
ghost use Rattle.conn_rules.specs.declared.setup.Setup.{Setup as Beginning};
ghost use Rattle.local_server.specs.Servers.{IsNewServer, ServerState};
ghost use Rattle.local_server.specs.Happening.{Happens, HappensAll};
ghost use Rattle.local_server.specs.Sizes.{AllWritable};
ghost use Rattle.drive.specs.Scripts.{script_of, NamesBadLine};
ghost use Rattle.drive.specs.Streams.{client_script_of};
ghost use Rattle.drive.specs.Transcripts.{ReportsFirst, IsTranscript, IsOutput, IsDriveOutput, IsClientOutput, Writes, BeginsTo};
ghost use Rattle.drive.specs.Forms.{script_as, lines_as};

use crate::form::Form;
use crate::script::read_script;
use crate::stream::read_stream;
use crate::transcript::Transcript;
use bytes::BytesMut;
use client_table::StepOutput;
use conn_rules::Setup;
use local_server::{Server, TimedEvent};
use std::alloc::Global;
use std::io::{Read, Write};
use text_io::{RunError, read_all, write_all};

/// Drives a server by the events that an input spells, one a line, and writes what is said in them: a line for each packet, and
/// one where a connection ends; at the end the line of the report of each share that is bound.
///
/// It reads at most 2^20 times. Nothing is run where a line spells no event.
///
/// # Errors
///
/// [`RunError::Line`] for the first line that spells no event; [`RunError::ReadFailed`]; [`RunError::TooManyReads`] where 2^20 reads did not
/// reach the input's end; and [`RunError::Memory`]: nothing was written then. [`RunError::WriteFailed`]: what was written begins the transcript.
pub fn drive_lines<R: Read, W: Write>(
    alloc: Global,
    setup: Setup,
    reader: &mut R,
    writer: &mut W,
) -> Result<(), RunError>
    // What was written is the transcript of the events that the input spells, and nothing else.
    ensures ended { OnOk result (IfSome (R.remaining reader.old)
        (λ input. Writes (IsDriveOutput setup input) (W.contents writer.old) (W.contents writer.new))) }
    // A line that is named is the first that spells no event.
    ensures bad_line { (line : ℕ) → result ≡ Err (RunError.Line line) → IfSome (R.remaining reader.old)
        (λ input. script_of input ≡ Err line) }
    // Where the writer failed, what was written begins the transcript; at each other error nothing was written.
    ensures begun { (fault : DeviceFault) → result ≡ Err (RunError.WriteFailed fault) → IfSome (R.remaining reader.old)
        (λ input. BeginsTo (IsDriveOutput setup input) (W.contents writer.old) (W.contents writer.new)) }
    ensures kept { IfErr result (λ error. ¬ IsOfWriting error → Keeps (W.contents writer.old) (W.contents writer.new)) }
{
    run(alloc, Form::Events, setup, reader, writer)
}

/// Drives a server by the stream of one client: reads it as lines of hex digits, a piece a line, and writes a line for each packet
/// that the client is sent; at the end the line of the report of each share that is bound. All happens at the moment 0.
///
/// It reads at most 2^20 times. Nothing is run where a line is not hex.
///
/// # Errors
///
/// [`RunError::Line`] for the first line that is not an even number of hex digits; the others as in [`drive_lines`].
pub fn drive_client<R: Read, W: Write>(
    alloc: Global,
    setup: Setup,
    reader: &mut R,
    writer: &mut W,
) -> Result<(), RunError>
    // What was written is what the client is sent and the reports, and nothing else.
    ensures ended { OnOk result (IfSome (R.remaining reader.old)
        (λ input. Writes (IsClientOutput setup input) (W.contents writer.old) (W.contents writer.new))) }
    // A line that is named is the first that is not hex.
    ensures bad_line { (line : ℕ) → result ≡ Err (RunError.Line line) → IfSome (R.remaining reader.old)
        (λ input. client_script_of input ≡ Err line) }
    // Where the writer failed, what was written begins that; at each other error nothing was written.
    ensures begun { (fault : DeviceFault) → result ≡ Err (RunError.WriteFailed fault) → IfSome (R.remaining reader.old)
        (λ input. BeginsTo (IsClientOutput setup input) (W.contents writer.old) (W.contents writer.new)) }
    ensures kept { IfErr result (λ error. ¬ IsOfWriting error → Keeps (W.contents writer.old) (W.contents writer.new)) }
{
    run(alloc, Form::Client, setup, reader, writer)
}

/// A run of either form.
fn run<R: Read, W: Write>(
    alloc: Global,
    form: Form,
    setup: Setup,
    reader: &mut R,
    writer: &mut W,
) -> Result<(), RunError>
    ensures ended { OnOk result (IfSome (R.remaining reader.old)
        (λ input. Writes (IsOutput (script_as form input) (lines_as form) setup) (W.contents writer.old) (W.contents writer.new))) }
    ensures bad_line { (line : ℕ) → result ≡ Err (RunError.Line line) → IfSome (R.remaining reader.old)
        (λ input. script_as form input ≡ Err line) }
    ensures begun { (fault : DeviceFault) → result ≡ Err (RunError.WriteFailed fault) → IfSome (R.remaining reader.old)
        (λ input. BeginsTo (IsOutput (script_as form input) (lines_as form) setup) (W.contents writer.old) (W.contents writer.new)) }
    ensures kept { IfErr result (λ error. ¬ IsOfWriting error → Keeps (W.contents writer.old) (W.contents writer.new)) }
{
    let input = read_all(alloc, reader)?;
    let events = read_events(alloc, form, &input)?;
    let text = transcript(alloc, form, setup, &events)?;
    write_all(writer, &text)
}

/// The events that an input spells.
fn read_events(alloc: Global, form: Form, input: &[u8]) -> Result<Vec<TimedEvent>, RunError>
    ensures ok { IfOk result (λ events. script_as form input.now ≡ Ok events.items) }
    ensures err { IfErr result (NamesBadLine (script_as form input.now)) }
{
    match form {
        Form::Events => read_script(alloc, input),
        Form::Client => read_stream(alloc, input),
    }
}

/// What is written of a run over these events.
fn transcript(
    alloc: Global,
    form: Form,
    setup: Setup,
    events: &[TimedEvent],
) -> Result<BytesMut, RunError>
    ensures ok { IfOk result (λ text. IsTranscript (lines_as form) setup events.now text.items) }
    ensures err { IfErr result (λ error. error ≡ Memory) }
{
    match Server::open(alloc, setup) {
        Ok(mut server) => {
            let text = transcribe(alloc, form, &mut server, events);
            server.end();
            text
        }
        Err(_) => Err(RunError::Memory),
    }
}

/// What is written of these events, and of the reports after them.
fn transcribe(
    alloc: Global,
    form: Form,
    server: &mut Server,
    events: &[TimedEvent],
) -> Result<BytesMut, RunError>
    requires { (setup : Beginning) × IsNewServer setup server.old }
    ensures ok { IfOk result (λ text. (outputs : List Output) × (reports : List ℕ) × HappensAll server.old events.now outputs server.new
        × (text.items ≡ flat_map (lines_as form) outputs ++ reports) × ReportsFirst (length server.new.broker.routes) server.new.broker reports) }
    ensures err { IfErr result (λ error. error ≡ Memory) }
{
    let mut transcript = Transcript::new(alloc);
    let mut outputs = Vec::new(alloc);
    for event in events {
        happen(form, server, event, &mut outputs, &mut transcript)?;
    }
    transcript.report(alloc, server)?;
    Ok(transcript.into_text())
}

/// An event, and what is said in it.
fn happen(
    form: Form,
    server: &mut Server,
    event: &TimedEvent,
    outputs: &mut Vec<StepOutput>,
    transcript: &mut Transcript,
) -> Result<(), RunError>
    // Whatever is said in it can be written.
    requires { (outputs : List Output) (after : ServerState) →
        Happens server.old event.now.moment event.now.event outputs (Ok tt) after → AllWritable outputs }
    ensures ok { OnOk result ((outputs : List Output) × Happens server.old event.now.moment event.now.event outputs (Ok tt) server.new
        × (transcript.new ≡ transcript.old ++ flat_map (lines_as form) outputs)) }
    ensures err { IfErr result (λ error. error ≡ Memory) }
{
    outputs.clear();
    match server.happen(event.moment, &event.event, outputs) {
        Ok(()) => transcript.tell(form, outputs),
        Err(_) => Err(RunError::Memory),
    }
}
