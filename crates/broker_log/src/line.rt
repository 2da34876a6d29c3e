//! A line of a log.
ghost use Rattle.std.specs.Prelude.{◌≡◌, ◌++◌, IfOk, IfSome, OnOk};
ghost use Rattle.broker_log.specs.Lines.{IsLineOf, line_text, shown, shown_byte};

use crate::level::Level;
use std::alloc::{AllocError, Global};

/// What is said where standard input is at its end as the broker begins to read it.
const INPUT_ENDED: &str =
    "standard input is at its end already, so the broker closes; --until killed serves until it is killed";

/// What a line says.
#[derive(Drop)]
pub(crate) enum Line {
    /// A text, at a level that is not `Off`.
    Text { level: Level, text: String },
    /// Standard input is at its end as the broker begins to read it. Each log has it.
    InputEnded,
}

impl Line {
    /// The bytes of the line, with the line feed that ends it and no other; `None` where a log of this level doesn't have it.
    ///
    /// # Errors
    ///
    /// Out of memory.
    pub(crate) fn bytes(&self, alloc: Global, level: Level) -> Result<Option<Vec<u8>>, AllocError>
        ensures { IfOk result (λ shown. IfSome shown (λ bytes. IsLineOf level bytes.items)) }
    {
        match self {
            Line::InputEnded => Ok(Some(line_bytes(alloc, Level::Off, INPUT_ENDED)?)),
            Line::Text { level: its, text } if *its != Level::Off && level.has(*its) => {
                Ok(Some(line_bytes(alloc, *its, text.as_str())?))
            }
            Line::Text { .. } => Ok(None),
        }
    }
}

/// The line of a text: after the word of its level, with a question mark for each control character.
fn line_bytes(alloc: Global, level: Level, text: &str) -> Result<Vec<u8>, AllocError>
    ensures { IfOk result (λ bytes. bytes.items ≡ line_text level text.now) }
{
    let mut bytes = Vec::new(alloc);
    bytes.extend_from_slice(level.label().as_bytes())?;
    bytes.extend_from_slice(b": ")?;
    add_shown(&mut bytes, text.as_bytes())?;
    bytes.extend_from_slice(b"\n")?;
    Ok(bytes)
}

/// Adds a text, with a question mark for each control character.
fn add_shown(bytes: &mut Vec<u8>, text: &[u8]) -> Result<(), AllocError>
    ensures { OnOk result (bytes.new.items ≡ bytes.old.items ++ shown text.now) }
{
    for byte in text {
        bytes.push(shown_byte(*byte))?;
    }
    Ok(())
}

/// How a byte of a text is written.
fn shown_byte(byte: u8) -> u8
    ensures { result ≡ shown_byte byte }
{
    if byte < 32 || byte == 127 { b'?' } else { byte }
}
