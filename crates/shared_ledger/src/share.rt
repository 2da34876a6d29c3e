//! What who gives to a shared ledger knows of it, for contracts alone: no value of this type is made.
use group_jobs::Ledger;
use std::collections::LinkedList;

/// What the holder of a pass knows: how many of the ledger's 64 parts it has, the ledger where it is in its hands, and what it
/// gave, in order.
pub struct LedgerShare {
    pub parts: u64,
    pub hand: LinkedList<Ledger>,
    pub gave: LinkedList<Ledger>,
}
