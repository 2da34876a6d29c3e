//! A stream in pieces, and the packets that it spells (section 2.1).

ghost use Rattle.std.specs.Prelude.{◌≡◌, [], length, IsTrue, None, Some};
ghost use Rattle.mqtt_fields.specs.Forms.{AreBytes};
ghost use Rattle.mqtt_wire.specs.Stream.{NextAnswers, FeedAnswers, ReadAnswers};
ghost use Rattle.mqtt_wire.specs.Frame.{IsHeld, ReachesHeader, ReachesPacket, TakesPacket, fault_in};

use crate::body_room::BodyRoom;
use crate::fault::ReadFault;
use crate::frame::{Frame, read_frame, take_body, take_header};
use crate::header::FixedHeader;
use crate::short::take_short;
use bytes::BytesMut;
use mqtt_fields::{Fault, StreamFault};
use mqtt_packet::Packet;
use std::alloc::{AllocError, Global};
use std::io::Read;
use std::marker::Model;

/// For how many bytes at least there is room where a reader is read.
const LEAST_ROOM: usize = 4_096;

/// What was taken of the packet in front, and was not answered yet.
#[derive(Drop)]
pub(crate) enum InHand {
    /// Nothing: the header is not whole yet.
    Nothing,
    /// The header, which is looked at once. The body is not whole yet, or memory was refused.
    Headed(FixedHeader),
    /// All of the packet: memory was refused, or its body is at fault.
    Whole(Frame),
}

/// Cuts a stream of bytes into packets, in whatever pieces it comes.
///
/// A contract sees it as the bytes that it has not read yet and the fault that it met, if it met one. The texts and the
/// payload of a packet share the bytes of its body. The body of a CONNECT, PUBLISH or SUBSCRIBE that is less than half of the
/// stream's buffer is copied: one of at most 128 bytes into a block of 512, which it shares with others, and a longer one into
/// bytes of its own. Any other shares those of the stream. So what is kept of a packet keeps no more than 512 bytes, or twice the
/// size of its body.
#[derive(Drop)]
pub struct Splitter {
    alloc: Global,
    in_hand: InHand,
    stream: BytesMut,
    room: BodyRoom,
    fault: Option<StreamFault>,
}

impl Model for Splitter {
    ghost use Rattle.std.specs.Prelude.{◌++◌};
    ghost use Rattle.mqtt_wire.specs.Stream.{Unread};

    ghost Value = { Unread };

    ghost use Rattle.mqtt_wire.specs.Frame.{IsHeld, unread};

    ghost view = { λ s. unread s.in_hand s.stream.items s.fault };

    ghost invariant = { λ s. IsHeld s.in_hand s.stream.items };
}

impl Splitter {
    /// A splitter that was given nothing yet.
    pub fn new(alloc: Global) -> Splitter
        ensures { result ≡ record { bytes = []; fault = None } }
    {
        Splitter {
            alloc,
            in_hand: InHand::Nothing,
            stream: BytesMut::new(alloc),
            room: BodyRoom::new(alloc),
            fault: None,
        }
    }

    /// Takes the next piece of the stream, which may be empty. Where a fault was met before, it is answered again; where
    /// memory is refused, nothing has changed.
    pub fn feed(&mut self, piece: &[u8]) -> Result<(), Fault>
        ensures { FeedAnswers self.old piece.now result self.new }
    {
        if let Some(fault) = self.fault {
            return Err(Fault::Stream(fault));
        }
        make_room(&mut self.stream, piece.len())?;
        self.room.note(self.stream.capacity());
        self.stream.extend_from_slice(piece)?;
        Ok(())
    }

    /// Takes what one read of a reader gives, of at most as many bytes as the stream's buffer has room for, which it is
    /// read into; it makes room for 4,096 at least. `Ok(0)` tells the reader's end.
    ///
    /// Where it is refused, nothing has changed: where a fault was met before, that is answered again, and the reader is not
    /// asked; nor is it where memory is refused. An interrupted read is answered as [`ReadFault::Device`], too.
    pub fn read_from<R: Read>(&mut self, reader: &mut R) -> Result<usize, ReadFault>
        ensures { ReadAnswers self.old (R.remaining reader.old) result self.new (R.remaining reader.new) }
    {
        if let Some(fault) = self.fault {
            return Err(ReadFault::Refused(Fault::Stream(fault)));
        }
        self.stream.reserve(LEAST_ROOM)?;
        self.room.note(self.stream.capacity());
        let before = self.stream.len();
        self.stream.read_from(reader)?;
        Ok(count(&self.stream) - before)
    }

    /// Takes the next packet from the front; `None` where it is not whole yet.
    ///
    /// What it answers fits its types, so what [`encode_into`](crate::encode_into) writes of it is read again. A fault of the
    /// stream stands for good: every later call answers it again. [`Fault::Memory`] comes only where a whole packet is in
    /// front; nothing has changed then, and the call may be made again.
    #[inline(always)]
    #[tactic(auto, unfolding(crate::specs::Stream::header_at))]
    pub fn next(&mut self) -> Result<Option<Packet>, Fault>
        ensures { NextAnswers self.old result self.new }
    {
        if let Some(fault) = self.fault {
            return Err(Fault::Stream(fault));
        }
        // After the last whole packet nothing is left most often, and then nothing is looked at.
        if self.is_drained() {
            return Ok(None);
        }
        let answer = take_packet(
            self.alloc,
            &mut self.room,
            &mut self.in_hand,
            &mut self.stream,
        );
        self.fault = stream_fault(&answer);
        answer
    }

    /// Whether nothing is unread.
    fn is_drained(&self) -> bool
        ensures { IsTrue result → self.now.bytes ≡ [] }
    {
        matches!(self.in_hand, InHand::Nothing) && self.stream.is_empty()
    }
}

/// Makes room for a piece of so many bytes, and for 4,096 at least, where there is less.
fn make_room(stream: &mut BytesMut, size: usize) -> Result<(), AllocError>
    ensures { stream.new.items ≡ stream.old.items }
{
    if stream.capacity() - stream.len() < size {
        stream.reserve(size.max(LEAST_ROOM))?;
    }
    Ok(())
}

/// How many bytes these are: the contract tells that they are bytes, too.
fn count(stream: &[u8]) -> usize
    ensures count { result ≡ length stream.now }
    ensures bytes { AreBytes stream.now }
{
    stream.len()
}

/// The fault of the stream that an answer tells, if it tells one.
fn stream_fault(answer: &Result<Option<Packet>, Fault>) -> Option<StreamFault>
    ensures { result ≡ fault_in answer.now }
{
    match answer {
        Err(Fault::Stream(fault)) => Some(*fault),
        Err(Fault::Memory) | Ok(_) => None,
    }
}

/// Takes the next packet, once all of it is there.
fn take_packet(
    alloc: Global,
    room: &mut BodyRoom,
    in_hand: &mut InHand,
    stream: &mut BytesMut,
) -> Result<Option<Packet>, Fault>
    ensures { IsHeld in_hand.old stream.old.items → TakesPacket in_hand.old stream.old.items result in_hand.new stream.new.items }
{
    if let InHand::Nothing = in_hand {
        if let Some(packet) = take_short(alloc, room, stream) {
            return Ok(Some(packet));
        }
    }
    take_framed(alloc, room, in_hand, stream)
}

/// Takes the next packet, its header and then its body.
#[inline(never)]
fn take_framed(
    alloc: Global,
    room: &mut BodyRoom,
    in_hand: &mut InHand,
    stream: &mut BytesMut,
) -> Result<Option<Packet>, Fault>
    ensures { IsHeld in_hand.old stream.old.items → TakesPacket in_hand.old stream.old.items result in_hand.new stream.new.items }
{
    reach_packet(room, in_hand, stream)?;
    let InHand::Whole(frame) = in_hand else {
        return Ok(None);
    };
    let packet = read_frame(alloc, frame)?;
    *in_hand = InHand::Nothing;
    Ok(Some(packet))
}

/// Takes what is there of the packet in front: its header, and then its body.
fn reach_packet(
    room: &mut BodyRoom,
    in_hand: &mut InHand,
    stream: &mut BytesMut,
) -> Result<(), Fault>
    ensures { IsHeld in_hand.old stream.old.items → ReachesPacket in_hand.old stream.old.items result in_hand.new stream.new.items }
{
    reach_header(in_hand, stream)?;
    if let InHand::Headed(header) = in_hand {
        if let Some(frame) = take_body(room, *header, stream)? {
            *in_hand = InHand::Whole(frame);
        }
    }
    Ok(())
}

/// Takes the header of the packet in front, where it was not taken yet and is whole.
fn reach_header(in_hand: &mut InHand, stream: &mut BytesMut) -> Result<(), StreamFault>
    ensures { IsHeld in_hand.old stream.old.items → ReachesHeader in_hand.old stream.old.items result in_hand.new stream.new.items }
{
    if let InHand::Nothing = in_hand {
        if let Some(header) = take_header(stream)? {
            *in_hand = InHand::Headed(header);
        }
    }
    Ok(())
}
