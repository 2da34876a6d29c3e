//! What the log of a broker says of connections that no worker took up.
use broker_log::{Level, Log};
use metrics::TurnedAway;
use std::alloc::{AllocError, Global};

/// In how many milliseconds there is one line of them at most, however many they are.
const PERIOD: u64 = 1_000;

/// What was said of them.
#[derive(Drop)]
pub(crate) struct TurnedAwayLog<'a> {
    log: &'a Log,
    alloc: Global,
    // What they were when it was said last.
    before: TurnedAway,
    // When that was, in milliseconds since the lobby was opened.
    said: u64,
}

impl<'a> TurnedAwayLog<'a> {
    /// Nothing was said.
    pub(crate) fn of(log: &'a Log, alloc: Global) -> TurnedAwayLog<'a> {
        TurnedAwayLog {
            log,
            alloc,
            before: TurnedAway::NONE,
            said: 0,
        }
    }

    /// Says how many there are more, at this moment in milliseconds, if it is time.
    pub(crate) fn look(&mut self, counts: &TurnedAway, now: u64) {
        if *counts == self.before || now.saturating_sub(self.said) < PERIOD {
            return;
        }
        if self.log.writes(Level::Info) {
            self.log
                .say(Level::Info, text(self.alloc, &self.before, counts));
        }
        self.before = *counts;
        self.said = now;
    }
}

/// How many were turned away since these were counted.
fn text(alloc: Global, before: &TurnedAway, counts: &TurnedAway) -> Result<String, AllocError> {
    let newcomers = counts.for_newcomer.saturating_sub(before.for_newcomer);
    let late = counts.late.saturating_sub(before.late);
    let addresses = counts.of_address.saturating_sub(before.of_address);
    format!(in alloc;
        "connections closed before their first packet was read: {newcomers} for newcomers, {late} after ten seconds, {addresses} beyond what their address may have"
    )
}
