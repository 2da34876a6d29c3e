//! Texts of clients, as a log has them.
use std::alloc::{AllocError, Global};

/// How many bytes of a text are shown.
const MOST_SHOWN: usize = 128;

/// A text that a client named, such as its Client Identifier, in quotation marks, with each byte that is not printable ASCII, each quotation mark and each backslash
/// escaped as in a byte string of Rust: so it ends where its quotation mark does. Of a text of more than 128 bytes these are shown, with `...` behind the quotation mark.
///
/// # Errors
///
/// Out of memory.
pub fn quoted(alloc: Global, text: &[u8]) -> Result<String, AllocError> {
    match text.get(..MOST_SHOWN) {
        Some(beginning) if text.len() > MOST_SHOWN => {
            format!(in alloc; "\"{}\"...", beginning.escape_ascii())
        }
        _ => format!(in alloc; "\"{}\"", text.escape_ascii()),
    }
}
