//! A scenario, its events, and what is written in it.

use std::alloc::Global;

/// A scenario over a broker that was just opened.
#[derive(Drop)]
pub struct Scenario<'a> {
    pub name: &'a str,
    /// How many messages may wait in each group.
    pub capacity: u32,
    /// The shares that are bound.
    pub shares: &'a [&'a str],
    /// The events, as `drive` reads them, and after each of them, with `> ` before it, what is written then; at the end the reports.
    pub lines: &'a str,
}

/// What happens to a connection.
#[derive(Drop)]
pub enum What {
    Open,
    Bytes(Vec<u8>),
    Tick,
    End,
}

/// An event of a scenario: what happens to the connection of this number, at this moment in milliseconds.
#[derive(Drop)]
pub struct ScenarioEvent {
    pub moment: u64,
    pub connection: u8,
    pub what: What,
}

impl<'a> Scenario<'a> {
    /// The events that happen to connections. `None` where a line spells none, or an allocation fails.
    pub fn events(&self, alloc: Global) -> Option<Vec<ScenarioEvent>> {
        let mut events = Vec::new(alloc);
        for line in self.lines.lines() {
            if is_event(line) && moment_of_close(line).is_none() {
                events.push(event_of(alloc, line)?).ok()?;
            }
        }
        Some(events)
    }

    /// The moment at which the broker closes after them, where it does.
    pub fn close(&self) -> Option<u64> {
        self.lines.lines().find_map(moment_of_close)
    }

    /// The lines that `drive` reads. `None` where an allocation fails.
    pub fn script(&self, alloc: Global) -> Option<String> {
        let mut script = String::new(alloc);
        for line in self.lines.lines() {
            if is_event(line) {
                script.push_str(line).ok()?;
                script.push('\n').ok()?;
            }
        }
        Some(script)
    }
}

/// Whether a line spells an event.
fn is_event(line: &str) -> bool {
    !line.starts_with("> ")
}

/// The moment of a line that closes the broker.
fn moment_of_close(line: &str) -> Option<u64> {
    line.strip_suffix(" close")?.parse::<u64>().ok()
}

/// The event that a line spells.
fn event_of(alloc: Global, line: &str) -> Option<ScenarioEvent> {
    let mut words = line.split(' ');
    let (moment, word, connection) = (words.next()?, words.next()?, words.next()?);
    Some(ScenarioEvent {
        moment: moment.parse::<u64>().ok()?,
        connection: connection.parse::<u8>().ok()?,
        what: what_of(alloc, word, words.next())?,
    })
}

/// What a word and the digits after it say.
fn what_of(alloc: Global, word: &str, digits: Option<&str>) -> Option<What> {
    match (word, digits) {
        ("open", None) => Some(What::Open),
        ("bytes", Some(digits)) => Some(What::Bytes(hex::decode(alloc, digits.as_bytes()).ok()?)),
        ("tick", None) => Some(What::Tick),
        ("end", None) => Some(What::End),
        _ => None,
    }
}
