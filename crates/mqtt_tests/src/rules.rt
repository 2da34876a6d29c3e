//! Tests of `conn_rules`.

mod answers;
mod reading;
mod sent;
