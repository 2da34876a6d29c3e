//! What is still to be written.
ghost use Rattle.std.specs.Prelude.{◌≡◌, ◌<◌, ◌≤◌, ◌++◌, ◌↔◌, [], IsTrue, length, drop, vec_capacity, IfOk, OnOk, OnErr};
ghost use Rattle.conn_service.specs.Services.{bytes_of, write_room};
ghost use Rattle.conn_service.specs.Moments.{since_step};

use crate::answers::Answered;
use conn_supply::NoMemory;
use mqtt_packet::Packet;
use mqtt_wire::encode_into;
use std::alloc::{AllocError, Global};
use std::marker::Model;

/// How many bytes may wait before a further packet is stepped, and for how many there is room from the start: 16 KiB.
pub(crate) const WRITE_ROOM: usize = 16_384;

/// Bytes that wait to be written, and room for [`WRITE_ROOM`] at least. Contracts see it as their list.
#[derive(Drop)]
pub(crate) struct Outgoing {
    buffer: Vec<u8>,
    // How many bytes at the front are written.
    written: usize,
}

impl Model for Outgoing {
    ghost use Rattle.std.specs.Prelude.{ℕ, ◌≤◌, List, drop, length, vec_capacity};
    ghost use Rattle.conn_service.specs.Services.{IsKeptIn};

    ghost Value = { List ℕ };

    ghost view = { λ o. drop o.written o.buffer.items };

    ghost invariant = { λ o. IsKeptIn o.written (length o.buffer.items) (vec_capacity o.buffer) };
}

impl Outgoing {
    /// None, with room for [`WRITE_ROOM`] bytes.
    pub(crate) fn new(alloc: Global) -> Result<Outgoing, AllocError>
        ensures { IfOk result (λ outgoing. outgoing ≡ []) }
    {
        let buffer = Vec::with_capacity(alloc, WRITE_ROOM)?;
        Ok(Outgoing { buffer, written: 0 })
    }

    /// How many there are.
    pub(crate) fn len(&self) -> usize
        ensures { result ≡ length self.now }
    {
        self.buffer.len() - self.written
    }

    /// Whether there is none.
    pub(crate) fn is_empty(&self) -> bool
        ensures { IsTrue result ↔ (self.now ≡ []) }
    {
        self.written == self.buffer.len()
    }

    /// All of them.
    pub(crate) fn bytes(&self) -> &[u8]
        ensures { result.now ≡ self.now }
    {
        &self.buffer[self.written..]
    }

    /// So many at the front are written.
    pub(crate) fn take_front(&mut self, count: usize)
        requires { count ≤ length self.old }
        ensures { self.new ≡ drop count self.old }
    {
        self.written += count;
        if self.written == self.buffer.len() {
            self.buffer.clear();
            self.written = 0;
        }
    }

    /// Puts the packets after them, each in its one written form.
    ///
    /// # Errors
    ///
    /// [`NoMemory`], only where there would be more than [`WRITE_ROOM`] of them; also where a packet is too long to be written. Nothing has changed then.
    pub(crate) fn put_all(&mut self, packets: &[Packet]) -> Result<(), NoMemory>
        ensures put { OnOk result (self.new ≡ self.old ++ bytes_of packets.now) }
        ensures kept { OnErr result (self.new ≡ self.old) }
        ensures full { OnErr result (write_room < length (self.old ++ bytes_of packets.now)) }
    {
        drop_front(&mut self.buffer, self.written);
        self.written = 0;
        encode_all(&mut self.buffer, packets)
    }
}

/// Drops so many bytes at the front of the buffer, which keeps its room.
fn drop_front(buffer: &mut Vec<u8>, count: usize)
    requires { count ≤ length buffer.old.items }
    ensures rest { buffer.new.items ≡ drop count buffer.old.items }
    ensures capacity { vec_capacity buffer.new ≡ vec_capacity buffer.old }
{
    if count > 0 {
        let rest = buffer.len() - count;
        buffer.copy_within(count.., 0);
        buffer.truncate(rest);
    }
}

/// Writes the packets after what the buffer holds. Where there is no memory it holds what it held.
fn encode_all(buffer: &mut Vec<u8>, packets: &[Packet]) -> Result<(), NoMemory>
    requires room { write_room ≤ vec_capacity buffer.old }
    ensures put { OnOk result (buffer.new.items ≡ buffer.old.items ++ bytes_of packets.now) }
    ensures kept { OnErr result (buffer.new.items ≡ buffer.old.items) }
    ensures full { OnErr result (write_room < length (buffer.old.items ++ bytes_of packets.now)) }
    ensures room { write_room ≤ vec_capacity buffer.new }
{
    let before = buffer.len();
    'packets: for packet in packets {
        if let Err(_fault) = encode_into(buffer, packet) {
            buffer.truncate(before);
            return Err(NoMemory);
        }
    }
    Ok(())
}

/// Puts what a step said after what waits, and counts it among what was answered. Answers the moment since which nothing was taken: this one, where nothing waited.
pub(crate) fn put_down(
    outgoing: &mut Outgoing,
    answered: &mut Answered,
    packets: &[Packet],
    since: u64,
    now: u64,
) -> Result<u64, NoMemory>
    ensures put { OnOk result (outgoing.new ≡ outgoing.old ++ bytes_of packets.now) }
    ensures since { IfOk result (λ later. later ≡ since_step outgoing.old now since) }
    ensures kept { OnErr result (outgoing.new ≡ outgoing.old) }
    ensures full { OnErr result (write_room < length (outgoing.old ++ bytes_of packets.now)) }
{
    let later = if outgoing.is_empty() { now } else { since };
    outgoing.put_all(packets)?;
    answered.note(packets);
    Ok(later)
}
