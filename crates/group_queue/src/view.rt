//! What a port or a place knows of the queues, for contracts alone: no value of these types is made.
use crate::posted::Posted;
use std::collections::LinkedList;

/// Who pushes to the main queue or pops from it.
pub enum Name {
    /// A port, which pushes.
    Port(u8),
    /// A place, which pops.
    Place(u8),
    /// Who ends the group, and pops what is left.
    Finisher,
}

/// What somebody pushed, or popped, in order.
pub struct Entry {
    pub name: Name,
    pub list: LinkedList<Posted>,
}

/// What the holder of a pass knows: what those did whose names it has. Who opened the group also has each name that it has
/// not given away: the ports and the places from these numbers on, which did nothing.
pub struct View {
    pub keeps: bool,
    pub ports: u64,
    pub places: u64,
    pub entries: LinkedList<Entry>,
}

/// What the holder of a pass of the returns queue knows: how many of its 64 parts it has, and what it pushed and popped, in
/// order.
pub struct Bag {
    pub parts: u64,
    pub pushed: LinkedList<Posted>,
    pub popped: LinkedList<Posted>,
}
