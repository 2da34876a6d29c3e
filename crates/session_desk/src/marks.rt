//! What a desk notes of each connection.
ghost use Rattle.std.specs.Prelude.{◌≡◌, ◌↔◌, IfOk, IsTrue, replicate, None, Some, true, false, slice_get, slice_set};
ghost use Rattle.limits.specs.Limits.{most_connections};

use limits::MOST_CONNECTIONS;
use std::alloc::{AllocError, Global};

/// How many connections there are.
const ALL: usize = MOST_CONNECTIONS as usize;

/// No connection waits.
pub(crate) fn no_waits(alloc: Global) -> Result<Vec<Option<u64>>, AllocError>
    ensures { IfOk result (λ notes. notes.items ≡ replicate most_connections None) }
{
    Ok(vec![in alloc; None; ALL]?)
}

/// No connection is marked.
pub(crate) fn no_marks(alloc: Global) -> Result<Vec<bool>, AllocError>
    ensures { IfOk result (λ notes. notes.items ≡ replicate most_connections false) }
{
    Ok(vec![in alloc; false; ALL]?)
}

/// Notes this of a connection.
pub(crate) fn note<T: Copy>(notes: &mut Vec<T>, connection: u16, value: T)
    ensures { notes.new.items ≡ slice_set notes.old.items connection value }
{
    if let Some(noted) = notes.get_mut(usize::from(connection)) {
        *noted = value;
    }
}

/// Whether a connection is marked.
pub(crate) fn is_marked(marks: &Vec<bool>, connection: u16) -> bool
    ensures { IsTrue result ↔ (slice_get marks.now.items connection ≡ Some true) }
{
    match marks.get(usize::from(connection)) {
        Some(mark) => *mark,
        None => false,
    }
}

/// Whether a connection waits for the session with this number.
pub(crate) fn waits_for(waits: &Vec<Option<u64>>, connection: u16, number: u64) -> bool
    ensures { IsTrue result ↔ (slice_get waits.now.items connection ≡ Some (Some number)) }
{
    match waits.get(usize::from(connection)) {
        Some(Some(waited)) => *waited == number,
        _ => false,
    }
}
