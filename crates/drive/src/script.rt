//! The events that the lines of an input spell.
ghost use Rattle.std.specs.Prelude.{◌≡◌, Ok, IfOk, IfErr};
ghost use Rattle.hex.specs.Hex.{decode_of};
ghost use Rattle.text_io.specs.declared.error.RunError.TheVariants.{Memory};
ghost use Rattle.drive.specs.Words.{words_of, connection_of};
ghost use Rattle.drive.specs.Scripts.{of_server, of_connection, of_piece, event_of, timed_event_of, is_passed_over, script_of, NamesBadLine};

use crate::digits::decode;
use crate::numbers::{connection, number};
use crate::words::Words;
use bytes::BytesMut;
use hex::FromHexError;
use local_server::{ServerEvent, TimedEvent};
use std::alloc::Global;
use text_io::{RunError, split_line};

/// The events that an input spells.
///
/// # Errors
///
/// [`RunError::Line`] for the first line that spells none, and [`RunError::Memory`].
#[tactic(auto, using(crate::proofs::Lines::one_event))]
pub(crate) fn read_script(alloc: Global, input: &[u8]) -> Result<Vec<TimedEvent>, RunError>
    ensures ok { IfOk result (λ events. script_of input.now ≡ Ok events.items) }
    ensures err { IfErr result (NamesBadLine (script_of input.now)) }
{
    let mut events = Vec::new(alloc);
    let mut buffer = BytesMut::with_capacity(alloc, input.len() / 2)?;
    let mut rest = input;
    let mut number = 0;
    while !rest.is_empty() {
        let (line, others) = split_line(rest);
        number += 1;
        if !is_passed_over(line) {
            match timed_event(&mut buffer, line)? {
                Some(event) => events.push(event)?,
                None => return Err(RunError::Line(number)),
            }
        }
        rest = others;
    }
    Ok(events)
}

/// Whether a line is empty or begins with `#`.
fn is_passed_over(line: &[u8]) -> bool
    ensures { result ≡ is_passed_over line.now }
{
    match line.first() {
        None => true,
        Some(byte) => *byte == b'#',
    }
}

/// The event that a line spells.
fn timed_event(buffer: &mut BytesMut, line: &[u8]) -> Result<Option<TimedEvent>, RunError>
    ensures ok { IfOk result (λ found. found ≡ timed_event_of (words_of line.now)) }
    ensures err { IfErr result (λ error. error ≡ Memory) }
{
    let mut words = Words::of(line);
    let Some(moment) = words.next() else {
        return Ok(None);
    };
    let Some(moment) = number(moment) else {
        return Ok(None);
    };
    match event(buffer, &mut words)? {
        Some(event) => Ok(Some(TimedEvent { moment, event })),
        None => Ok(None),
    }
}

/// The event that the words after a moment spell.
fn event(buffer: &mut BytesMut, words: &mut Words) -> Result<Option<ServerEvent>, RunError>
    ensures ok { IfOk result (λ found. found ≡ event_of words.old) }
    ensures err { IfErr result (λ error. error ≡ Memory) }
{
    match (words.next(), words.next(), words.next(), words.next()) {
        (Some(word), None, None, None) => Ok(of_server(word)),
        (Some(word), Some(number), None, None) => Ok(of_connection(word, number)),
        (Some(word), Some(number), Some(digits), None) => of_piece(buffer, word, number, digits),
        _ => Ok(None),
    }
}

/// `close`.
fn of_server(word: &[u8]) -> Option<ServerEvent>
    ensures { result ≡ of_server word.now }
{
    match word {
        b"close" => Some(ServerEvent::Close),
        _ => None,
    }
}

/// `open`, `tick` and `end`, each with the number of a connection.
fn of_connection(word: &[u8], number: &[u8]) -> Option<ServerEvent>
    ensures { result ≡ of_connection word.now (connection_of number.now) }
{
    let number = connection(number)?;
    match word {
        b"open" => Some(ServerEvent::Open(number)),
        b"tick" => Some(ServerEvent::Tick(number)),
        b"end" => Some(ServerEvent::End(number)),
        _ => None,
    }
}

/// `bytes`, with the number of a connection and the piece that the digits spell.
fn of_piece(
    buffer: &mut BytesMut,
    word: &[u8],
    number: &[u8],
    digits: &[u8],
) -> Result<Option<ServerEvent>, RunError>
    ensures ok { IfOk result (λ found. found ≡ of_piece word.now (connection_of number.now) (decode_of digits.now)) }
    ensures err { IfErr result (λ error. error ≡ Memory) }
{
    let Some(number) = connection(number) else {
        return Ok(None);
    };
    match decode(buffer, digits) {
        Ok(piece) if word == b"bytes".as_slice() => Ok(Some(ServerEvent::Bytes(number, piece))),
        Ok(_) => Ok(None),
        Err(FromHexError::OutOfMemory) => Err(RunError::Memory),
        Err(_) => Ok(None),
    }
}
