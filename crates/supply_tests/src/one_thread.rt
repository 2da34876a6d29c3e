//! Brokers with one worker on the caller's thread: two clients, full dockets, and all scenarios beside the server on one thread, byte for byte.

mod clients;
mod gathering;
mod one_day;
mod scenarios_alike;
mod telling;
