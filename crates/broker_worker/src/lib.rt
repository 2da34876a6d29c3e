//! A worker of a broker: it serves many connections, each by rounds, and calls other workers and is called by them.
//!
//! A [`Worker`] waits at one place, its [`Poller`](worker_connections::Poller), for what may be read or written and for a call of the others. It receives its
//! connections and goes on with them (`worker_connections`), and rings for whoever waits for what they did: a bell for each group tells members of other workers
//! of jobs that came or came back, and a call tells of a session that was asked for or is free. Its [`Mailboxes`] has all workers.
#![tactic(auto)]

mod handing_out;
mod marks;
mod offering;
mod planning;
mod rounds;
mod sharing;
mod telling;
mod worker;
mod worker_parts;

pub use worker::Worker;
pub use worker_bells::Mailboxes;
pub use worker_parts::{UnusedPoller, WorkerParts, all_worker_parts};
