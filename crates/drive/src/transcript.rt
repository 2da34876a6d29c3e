//! What is written of a run.
ghost use Rattle.std.specs.Prelude.{◌≡◌, ◌<◌, ◌++◌, [], List, ℕ, length, IfErr, OnOk};
ghost use Rattle.mqtt_wire.specs.Writing.{written};
ghost use Rattle.local_broker.specs.Reporting.{TellsLine};
ghost use Rattle.local_server.specs.Sizes.{AllWritable, IsWritable};
ghost use Rattle.text_io.specs.declared.error.RunError.TheVariants.{Memory};
ghost use Rattle.std.specs.Fmt.{decimal};
ghost use Rattle.std.specs.List.{AllByRecursion, flat_map};
ghost use Rattle.drive.specs.Transcripts.{hex_line, packet_line, next_line, lines_of_output, client_line, ReportsFirst};
ghost use Rattle.drive.specs.Forms.{lines_as};

use crate::form::Form;
use bytes::{BufMut, BytesMut};
use client_table::StepOutput;
use conn_supply::Then;
use itoa::Buffer;
use local_server::Server;
use mqtt_fields::Fault;
use mqtt_packet::Packet;
use mqtt_wire::encode_into;
use std::alloc::Global;
use std::marker::Model;
use text_io::RunError;

/// What is written of a run, as it grows. Contracts see it as its bytes.
#[derive(Drop)]
pub(crate) struct Transcript {
    text: BytesMut,
    // The bytes of the packet that is told; their room serves the next one.
    packet: Vec<u8>,
}

impl Model for Transcript {
    ghost use Rattle.std.specs.Prelude.{List, ℕ};

    ghost Value = { List ℕ };

    ghost view = { λ t. t.text.items };
}

impl Transcript {
    /// Nothing yet.
    pub(crate) fn new(alloc: Global) -> Transcript
        ensures { result ≡ [] }
    {
        Transcript {
            text: BytesMut::new(alloc),
            packet: Vec::new(alloc),
        }
    }

    /// The bytes.
    pub(crate) fn into_text(self) -> BytesMut
        ensures { result.items ≡ self }
    {
        self.text
    }

    /// Adds what was said.
    #[tactic(auto, using(crate::proofs::Texts::one_more))]
    pub(crate) fn tell(&mut self, form: Form, outputs: &[StepOutput]) -> Result<(), RunError>
        requires { AllWritable outputs.now }
        ensures ok { OnOk result (self.new ≡ self.old ++ flat_map (lines_as form) outputs.now) }
        ensures err { IfErr result (λ error. error ≡ Memory) }
    {
        for step in outputs {
            match form {
                Form::Events => self.tell_step(step)?,
                Form::Client => self.tell_client(step.packets())?,
            }
        }
        Ok(())
    }

    /// Adds what one step of a connection wrote.
    fn tell_step(&mut self, output: &StepOutput) -> Result<(), RunError>
        requires { AllByRecursion IsWritable output.now.packets }
        ensures ok { OnOk result (self.new ≡ self.old ++ lines_of_output output.now) }
        ensures err { IfErr result (λ error. error ≡ Memory) }
    {
        let connection = output.connection();
        for packet in output.packets() {
            self.tell_packet(connection, packet)?;
        }
        self.tell_next(connection, output.next())
    }

    /// Adds what the one client is sent.
    #[tactic(auto, using(crate::proofs::Texts::one_more))]
    fn tell_client(&mut self, packets: &[Packet]) -> Result<(), RunError>
        requires { AllByRecursion IsWritable packets.now }
        ensures ok { OnOk result (self.new ≡ self.old ++ flat_map client_line packets.now) }
        ensures err { IfErr result (λ error. error ≡ Memory) }
    {
        for packet in packets {
            self.tell_bytes(packet)?;
        }
        Ok(())
    }

    /// Adds the line of a packet.
    fn tell_packet(&mut self, connection: u16, packet: &Packet) -> Result<(), RunError>
        requires { IsWritable packet.now }
        ensures ok { OnOk result (self.new ≡ self.old ++ packet_line connection packet.now) }
        ensures err { IfErr result (λ error. error ≡ Memory) }
    {
        self.tell_number(connection)?;
        self.text.put_u8(b' ')?;
        self.tell_bytes(packet)
    }

    /// Adds the number of a connection.
    fn tell_number(&mut self, connection: u16) -> Result<(), RunError>
        ensures ok { OnOk result (self.new ≡ self.old ++ decimal connection) }
        ensures err { IfErr result (λ error. error ≡ Memory) }
    {
        let mut digits = Buffer::new();
        self.text
            .extend_from_slice(digits.format(connection).as_bytes())?;
        Ok(())
    }

    /// Adds the bytes of a packet, and ends the line.
    #[inline(always)]
    fn tell_bytes(&mut self, packet: &Packet) -> Result<(), RunError>
        requires { IsWritable packet.now }
        ensures ok { OnOk result (self.new ≡ self.old ++ client_line packet.now) }
        ensures err { IfErr result (λ error. error ≡ Memory) }
    {
        self.packet.clear();
        write_packet(&mut self.packet, packet)?;
        add_hex_line(&mut self.text, &self.packet)
    }

    /// Adds a line where a connection has ended.
    fn tell_next(&mut self, connection: u16, next: Then) -> Result<(), RunError>
        ensures ok { OnOk result (self.new ≡ self.old ++ next_line connection next) }
        ensures err { IfErr result (λ error. error ≡ Memory) }
    {
        let word = match next {
            Then::Go => return Ok(()),
            Then::Close => " close\n",
            Then::Kicked => " kicked\n",
        };
        self.tell_number(connection)?;
        self.text.extend_from_slice(word.as_bytes())?;
        Ok(())
    }

    /// Adds the lines of the reports, in the order of the slots.
    #[tactic(auto, using(crate::proofs::Texts::one_report))]
    pub(crate) fn report(&mut self, alloc: Global, server: &Server) -> Result<(), RunError>
        ensures ok { OnOk result ((reports : List ℕ) × (self.new ≡ self.old ++ reports)
            × ReportsFirst (length server.now.broker.routes) server.now.broker reports) }
        ensures err { IfErr result (λ error. error ≡ Memory) }
    {
        'slots: for slot in 0..server.shares().len() {
            self.report_of(alloc, server, slot as u8)?;
        }
        Ok(())
    }

    /// Adds the line of the report of the share that is bound to this slot.
    fn report_of(&mut self, alloc: Global, server: &Server, slot: u8) -> Result<(), RunError>
        requires { slot < length server.now.broker.routes }
        ensures ok { OnOk result ((line : List ℕ) × TellsLine server.now.broker slot line × (self.new ≡ self.old ++ line)) }
        ensures err { IfErr result (λ error. error ≡ Memory) }
    {
        match server.line(alloc, slot) {
            Ok(Some(line)) => {
                self.text.extend_from_slice(&line)?;
                Ok(())
            }
            Ok(None) => Ok(()),
            Err(_) => Err(RunError::Memory),
        }
    }
}

/// Adds the bytes of a packet. It is not too long, so no fault is met but lack of memory.
fn write_packet(bytes: &mut Vec<u8>, packet: &Packet) -> Result<(), RunError>
    requires { IsWritable packet.now }
    ensures ok { OnOk result (bytes.new.items ≡ bytes.old.items ++ written packet.now) }
    ensures err { IfErr result (λ error. error ≡ Memory) }
{
    match encode_into(bytes, packet) {
        Ok(()) => Ok(()),
        Err(Fault::Memory) => Err(RunError::Memory),
        Err(Fault::Stream(_)) => unreachable!(),
    }
}

/// Adds a line of these bytes in lower case hex digits. Room for all of it is asked for once.
fn add_hex_line(text: &mut BytesMut, bytes: &[u8]) -> Result<(), RunError>
    ensures ok { OnOk result (text.new.items ≡ text.old.items ++ hex_line bytes.now) }
    ensures err { IfErr result (λ error. error ≡ Memory) }
{
    let start = text.len();
    let digits = 2 * bytes.len();
    text.reserve(digits + 1)?;
    text.advance_mut(digits);
    match hex::encode_to_slice(bytes, &mut text[start..]) {
        Ok(()) => {
            text.extend_reserved(b"\n");
            Ok(())
        }
        Err(_) => unreachable!(),
    }
}
