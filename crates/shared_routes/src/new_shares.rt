//! What becomes of a share that nobody declared.

/// What a table does with a share that is bound to no slot, where a client asks for its group.
#[derive(Clone, Copy, Debug, PartialEq, Eq)]
pub enum NewShares {
    /// It is bound to the least free slot.
    Bound,
    /// It is refused: only shares that are declared have a slot.
    Refused,
}
