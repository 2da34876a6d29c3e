//! The lines of a log are written.
ghost use Rattle.std.specs.Prelude.{◌≡◌, true};
ghost use Rattle.broker_log.specs.Lines.{BeginsToLog, HasLogged};

use crate::level::Level;
use crate::line::Line;
use crate::log::{CAPACITY, Log};
use std::alloc::Global;
use std::io::Write;
use std::rt::Clock;
use std::thread;
use std::time::Duration;
use text_io::write_all;

/// How many milliseconds lie between two looks for lines.
const PAUSE: u64 = 20;

/// Writes what is said until the log is closed and all is written, or a write fails.
pub(crate) fn write_until_closed<C: Clock, W: Write>(
    clock: &C,
    alloc: Global,
    log: &Log,
    errors: &mut W,
)
    ensures { BeginsToLog log.now (W.contents errors.old) (W.contents errors.new) }
{
    for _ in 0..u64::MAX {
        let is_closed = log.is_closed();
        if !write_lines(alloc, log, errors) || is_closed {
            return;
        }
        thread::sleep(clock, Duration::from_millis(PAUSE));
    }
}

/// Writes the lines that are there, and how many were lost. Whether no write failed.
fn write_lines<W: Write>(alloc: Global, log: &Log, errors: &mut W) -> bool
    ensures whole { result ≡ true → HasLogged log.now (W.contents errors.old) (W.contents errors.new) }
    ensures begun { BeginsToLog log.now (W.contents errors.old) (W.contents errors.new) }
{
    write_taken(alloc, log, errors) && write_lost(alloc, log, errors)
}

/// Writes the lines that are there. Whether no write failed.
fn write_taken<W: Write>(alloc: Global, log: &Log, errors: &mut W) -> bool
    ensures whole { result ≡ true → HasLogged log.now (W.contents errors.old) (W.contents errors.new) }
    ensures begun { BeginsToLog log.now (W.contents errors.old) (W.contents errors.new) }
{
    for _ in 0..CAPACITY {
        let Some(line) = log.take() else {
            return true;
        };
        if !write_line(alloc, log, &line, errors) {
            return false;
        }
    }
    true
}

/// Writes how many lines were lost, if some were. Whether no write failed.
fn write_lost<W: Write>(alloc: Global, log: &Log, errors: &mut W) -> bool
    ensures whole { result ≡ true → HasLogged log.now (W.contents errors.old) (W.contents errors.new) }
    ensures begun { BeginsToLog log.now (W.contents errors.old) (W.contents errors.new) }
{
    let lost = log.take_lost();
    if lost == 0 {
        return true;
    }
    match format!(in alloc; "{lost} lines of the log were dropped") {
        Ok(text) => {
            let line = Line::Text {
                level: Level::Error,
                text,
            };
            write_line(alloc, log, &line, errors)
        }
        Err(_) => true,
    }
}

/// Writes a line, where the log is to have it; where memory is refused for it, it is lost. Whether no write failed.
fn write_line<W: Write>(alloc: Global, log: &Log, line: &Line, errors: &mut W) -> bool
    ensures whole { result ≡ true → HasLogged log.now (W.contents errors.old) (W.contents errors.new) }
    ensures begun { BeginsToLog log.now (W.contents errors.old) (W.contents errors.new) }
{
    match line.bytes(alloc, log.level()) {
        Ok(Some(bytes)) => write_all(errors, &bytes).is_ok(),
        Ok(None) => true,
        Err(_) => {
            log.count_lost();
            true
        }
    }
}
