//! What is done to a bell, for contracts alone: no value of these types is made.
use std::collections::LinkedList;

/// One step on a bell's word.
pub enum BellStep {
    /// The worker listened: it isn't idle.
    Listened(u64),
    /// The worker settled: it is idle.
    Settled(u64),
    /// Somebody rang.
    Rang,
    /// A ringer called the worker: it isn't idle any more.
    Called(u64),
}

/// What a listener or a ringer knows: the history up to its own last step, the newest first.
pub struct BellView {
    pub history: LinkedList<BellStep>,
}
