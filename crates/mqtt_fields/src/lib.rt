//! The fields of MQTT 5.0 control packets as bytes, and their sections of properties: each read and each written.
//!
//! A reader takes a field from the front of what is left of a body, and answers the first fault there is: `read_byte`,
//! `read_u16`, `read_text`, `read_properties`, .. A writer puts it after what a buffer holds, which has room for it: `put_byte`,
//! `put_u16`, `put_text`, `put_connect_properties`, .. How much room properties take, `connect_list_size` and its like say. The
//! values are those of [`mqtt_packet`]; whole packets, and streams of them, are the matter of the crate above.
//!
//! ```
//! let mut body = Bytes::copy_from_slice(alloc, b"\x00\x04MQTT\x05")?;
//! let name = read_text(&mut body)?; // "MQTT"
//! let version = read_byte(&mut body)?; // 5
//! let missing = read_byte(&mut body); // Err(StreamFault::Malformed)
//! ```
#![tactic(auto)]

mod fault;
mod field_writing;
mod fields;
mod laws;
mod properties;
mod property;
mod property_sizes;
mod property_writing;
mod sections;
mod single_properties;

pub use fault::{Fault, StreamFault};
pub use field_writing::{
    put_binary, put_byte, put_bytes, put_identifier, put_text, put_u16, put_variable_byte_integer,
};
pub use fields::{
    read_binary_if, read_byte, read_identifier, read_text, read_text_if, read_u16,
    variable_byte_integer,
};
pub use laws::written_properties_rise;
pub use properties::Properties;
pub use property::{Property, PropertyName, Section};
pub use property_sizes::{
    connect_list_size, disconnect_list_size, puback_list_size, publish_list_size, section_size,
    subscribe_list_size, unsubscribe_list_size, variable_size,
};
pub use property_writing::{
    put_connect_properties, put_disconnect_list, put_maximum_packet_size, put_no_properties,
    put_puback_list, put_publish_properties, put_subscribe_properties, put_unsubscribe_properties,
};
pub use sections::read_properties;
pub use single_properties::put_text_if;
