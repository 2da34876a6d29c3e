//! Tests of `conn_service`: connections over scripted transports. What is written is compared with rows that were worked out by hand from the
//! standard, and with what `solo` writes.

mod acting;
mod alone;
mod bytes_changed;
mod counting;
mod failing;
mod flooding;
mod noting;
mod played;
mod together;
