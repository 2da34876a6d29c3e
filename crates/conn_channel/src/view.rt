//! What the holder of a pass knows, for contracts alone: no value of this type is made.
use std::collections::LinkedList;

/// The connections that were sent with a pass, in order, and those that each end received whose pass it is or was joined to it, in order; how many end
/// marks were sent and received; its parts of the right to know of all, and to send.
pub struct PassView<T> {
    pub parts: u64,
    pub sends: u64,
    pub sent: LinkedList<T>,
    pub end_marks_sent: u64,
    pub received: LinkedList<LinkedList<T>>,
    pub end_marks_received: u64,
}
