//! MQTT 5.0 control packets as bytes: what a client's stream spells, and the one form in which each packet is written.
//!
//! [`Splitter`] takes a stream in pieces and answers its packets; [`encode`] writes a packet. A packet is a value of
//! [`mqtt_packet`], and what can be wrong with one is a [`Fault`](mqtt_fields::Fault).
//!
//! Every kind of packet that a client sends is read, with every property and every rule on a value. What a client has no
//! business to send is read as [`Packet::Foreign`](mqtt_packet::Packet), a CONNECT of another version as `OtherVersion`, one
//! with a will as `WithWill`: what they say beyond that is not looked at.
//!
//! ```
//! let mut splitter = Splitter::new(alloc);
//! splitter.feed(b"\xC0")?;
//! let open = splitter.next()?; // None: the packet is not whole yet
//! splitter.feed(b"\x00")?;
//! let packet = splitter.next()?; // Some(Packet::Pingreq)
//! let mut out = Vec::new(alloc);
//! encode_into(&mut out, &Packet::Pingresp)?; // D0 00
//! ```
#![tactic(auto)]

mod bodies;
mod body_room;
mod body_writing;
mod connack_writing;
mod fault;
mod frame;
mod header;
mod kind;
mod laws;
mod reason_writing;
mod short;
mod sizes;
mod splitter;
mod writing;

pub use fault::ReadFault;
pub use laws::{
    first_fault_counts, pieces_are_read_as_the_whole, spellings_are_told_apart,
    streams_have_one_reading, written_packets_are_read_again,
};
pub use splitter::Splitter;
pub use writing::{encode, encode_into, encoded_size};
