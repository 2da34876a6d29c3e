//! One ledger to which many give what they settled.
//!
//! A place of a group that threads share settles jobs into a docket of its own, which waits for nobody and takes no memory.
//! Now and then it moves what it settled into the group's one ledger, where the runs of all places join
//! ([`SharedLedger::gather`]): so the memory grows with the gaps between the jobs of all places together.
//!
//! The ledger is the one item of a queue with room for one. Who takes it up has it alone, and puts it down again; who finds
//! the queue empty knows that another has it just then.
#![tactic(auto)]

mod giver;
mod queue;
mod share;
mod shared;
mod witness;

pub use giver::{Giver, Holder};
pub use queue::{Gathering, LedgerPass, LedgerQueue};
pub use share::LedgerShare;
pub use shared::SharedLedger;
pub use witness::{LawfulLedgerWitness, LedgerWitness};
