//! Tests of `tcp_edge`: both ends of connections in one process, over the loopback.

mod alone;
mod bells;
pub mod echo;
mod ends;
mod peers;
mod sources;
