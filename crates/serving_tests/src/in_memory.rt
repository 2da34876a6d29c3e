//! A broker on threads over transports in memory.

mod arriving;
mod broker;
mod connections;
mod crossing;
mod discarding;
