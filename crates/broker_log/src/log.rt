//! The log that threads share.
ghost use Rattle.std.specs.Prelude.{◌≡◌, ◌≢◌, ◌≤◌, true, IfOk};
ghost use Rattle.broker_log.specs.Lines.{BeginsToLog, rank_of};
ghost use Rattle.broker_log.specs.declared.level.Level.TheVariants.{Off};

use crate::level::Level;
use crate::line::Line;
use crate::writing::write_until_closed;
use crossbeam_queue::RuledArrayQueue;
use crossbeam_queue::protocol::Free;
use std::alloc::{AllocError, Global};
use std::io::Write;
use std::marker::Model;
use std::rt::Clock;
use std::sync::atomic::{AtomicBool, AtomicU64, Ordering};

/// How many lines wait at most to be written.
pub(crate) const CAPACITY: usize = 1_024;

/// How often a line is tried to put down, where other threads put down theirs at the same moment.
const TRIES: u32 = 64;

/// The queue of the lines that are to be written.
type Lines = RuledArrayQueue<Line, (), Free, Global>;

/// The log of a broker, which its threads share by reference: all may say lines, and one writes them, by [`Log::run`].
///
/// Contracts see it as its level.
#[derive(Drop)]
pub struct Log {
    level: Level,
    lines: Lines,
    // How many lines were lost that nobody was told of yet.
    lost: AtomicU64,
    is_closed: AtomicBool,
}

impl Model for Log {
    ghost use Rattle.broker_log.specs.declared.level.Level.{Level};

    ghost Value = { Level };

    ghost view = { λ log. log.level };
}

impl Log {
    /// A log of this level, without a line. Takes the memory of its queue.
    ///
    /// # Errors
    ///
    /// Out of memory.
    pub fn open(alloc: Global, level: Level) -> Result<Log, AllocError>
        ensures { IfOk result (λ log. log ≡ level) }
    {
        let (lines, _pass) = Lines::ruled(alloc, CAPACITY)?;
        Ok(Log {
            level,
            lines,
            lost: AtomicU64::new(0),
            is_closed: AtomicBool::new(false),
        })
    }

    /// How much it has.
    pub fn level(&self) -> Level
        ensures { result ≡ self.now }
    {
        self.level
    }

    /// Whether it has lines of this level.
    pub fn writes(&self, level: Level) -> bool
        ensures { result ≡ true → (level ≢ Off) × (rank_of level ≤ rank_of self.now) }
    {
        level != Level::Off && self.level.has(level)
    }

    /// Says a line of this level, where it has such: it is written after those that were said before. It doesn't wait and doesn't fail: where 1,024 lines wait, or memory was
    /// refused for the text or for the line, the line is lost, and counted.
    pub fn say(&self, level: Level, text: Result<String, AllocError>) {
        if !self.writes(level) {
            return;
        }
        match text {
            Ok(text) => self.put(Line::Text { level, text }),
            Err(_) => self.count_lost(),
        }
    }

    /// Says that standard input is at its end as the broker begins to read it. This is written at each level.
    pub fn say_input_ended(&self) {
        self.put(Line::InputEnded);
    }

    /// Nothing is said any more: what was said is written, and then [`Log::run`] returns.
    pub fn close(&self) {
        self.is_closed.store(true, Ordering::SeqCst);
    }

    /// Writes what is said, in order, until the log is closed and all is written, or a write fails. Of lines that were lost it writes how many. Every 20 milliseconds it looks for lines: so who says one
    /// need not wake it.
    pub fn run<C: Clock, W: Write>(&self, clock: &C, alloc: Global, errors: &mut W)
        ensures { BeginsToLog self.now (W.contents errors.old) (W.contents errors.new) }
    {
        write_until_closed(clock, alloc, self, errors);
    }

    /// Puts a line down to be written, or counts it as lost.
    fn put(&self, line: Line) {
        if !self.try_put(line) {
            self.count_lost();
        }
    }

    /// Counts a line as lost.
    pub(crate) fn count_lost(&self) {
        let _before = self.lost.fetch_add(1, Ordering::SeqCst);
    }

    /// Puts a line down to be written. Whether there was room.
    fn try_put(&self, line: Line) -> bool {
        let mut line = line;
        for _ in 0..TRIES {
            let mut pass = self.lines.pass();
            match self.lines.try_push_as::<Free>(&mut pass, line) {
                Ok(()) => return true,
                Err(back) => line = back,
            }
        }
        false
    }

    /// Takes the line that was said first, if there is one.
    pub(crate) fn take(&self) -> Option<Line> {
        let mut pass = self.lines.pass();
        self.lines.try_pop_as::<Free>(&mut pass)
    }

    /// Takes the number of the lines that were lost since it was taken last.
    pub(crate) fn take_lost(&self) -> u64 {
        self.lost.swap(0, Ordering::SeqCst)
    }

    /// Whether nothing is said any more.
    pub(crate) fn is_closed(&self) -> bool {
        self.is_closed.load(Ordering::SeqCst)
    }
}
