//! What a seat does and knows, for contracts alone: no value of these types is made.
use std::collections::LinkedList;

/// One step of one seat on the gate's word, with the number that it found there.
pub enum GateStep {
    /// `enter` found the gate open, and added 2: the seat is inside.
    Entered(u64),
    /// `enter` found the gate shut, and added 2, which the same call takes off again.
    Bounced(u64),
    /// A refused `enter` took its 2 off.
    TakenOff(u64),
    /// `leave` took 2 off.
    Left(u64),
    /// `shut` set the shut bit.
    Shut(u64),
    /// `drained` looked.
    Looked(u64),
}

/// What the holder of some seats knows: how many seats its gate has, the numbers of its own, which are `count` from
/// `first` on, and the steps that were made, the newest first.
pub struct GateView {
    pub seats: u64,
    pub first: u64,
    pub count: u64,
    pub steps: LinkedList<GateStep>,
}
