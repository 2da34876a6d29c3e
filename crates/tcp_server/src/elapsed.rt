//! The clock of a broker.
use std::rt::Clock as SystemClock;
use std::time::Instant;

/// Tells how many milliseconds went by since the broker began. It never goes back, and stands where the system's clock can't be read.
#[derive(Drop)]
pub(crate) struct Elapsed<'a, R> {
    rt: &'a R,
    start: Instant,
    latest: u64,
}

impl<'a, R: SystemClock> Elapsed<'a, R> {
    /// A clock that begins at this moment.
    pub(crate) fn since(rt: &'a R, start: Instant) -> Elapsed<'a, R> {
        Elapsed {
            rt,
            start,
            latest: 0,
        }
    }

    /// How many milliseconds went by.
    pub(crate) fn now(&mut self) -> u64 {
        if let Ok(elapsed) = self.start.elapsed(self.rt) {
            let millis = u64::try_from(elapsed.as_millis()).unwrap_or(u64::MAX);
            self.latest = self.latest.max(millis);
        }
        self.latest
    }
}
