//! How a broker drains once its input has ended: its workers accept nothing more, until all that they accepted is settled.
use std::sync::atomic::{AtomicBool, AtomicU64, Ordering};

/// Where a drain stands. Who watches the input asks for it; the poller of each worker looks, and tells what its worker has settled.
#[derive(Drop)]
pub(crate) struct Drain {
    // Whether the workers are to drain.
    is_asked: AtomicBool,
    // How many workers drain and have told what they count.
    told: AtomicU64,
    // How many messages more these accepted than they settled, modulo 2^64.
    unsettled: AtomicU64,
}

impl Drain {
    /// Nobody drains yet.
    pub(crate) fn new() -> Drain {
        Drain {
            is_asked: AtomicBool::new(false),
            told: AtomicU64::new(0),
            unsettled: AtomicU64::new(0),
        }
    }

    /// All workers drain from their next turns on.
    pub(crate) fn ask(&self) {
        self.is_asked.store(true, Ordering::SeqCst);
    }

    /// Whether workers are to drain.
    pub(crate) fn is_asked(&self) -> bool {
        self.is_asked.load(Ordering::SeqCst)
    }

    /// Whether so many workers drain, and have settled all that they accepted. Since they accept nothing any more, it stays so.
    pub(crate) fn is_settled(&self, workers: u8) -> bool {
        self.told.load(Ordering::SeqCst) == u64::from(workers)
            && self.unsettled.load(Ordering::SeqCst) == 0
    }

    /// A worker that drains accepted so many messages more than it settled, modulo 2^64. `before` is what it told last, if it did.
    fn tell(&self, unsettled: u64, before: Option<u64>) {
        let change = unsettled.wrapping_sub(before.unwrap_or(0));
        if change != 0 {
            let _sum = self.unsettled.fetch_add(change, Ordering::SeqCst);
        }
        if before.is_none() {
            let _others = self.told.fetch_add(1, Ordering::SeqCst);
        }
    }
}

/// The part of one worker in a drain.
#[derive(Drop)]
pub(crate) struct DrainPart<'a> {
    drain: &'a Drain,
    // Whether its worker drains.
    drains: bool,
    // What it told last of its worker.
    told: Option<u64>,
}

impl<'a> DrainPart<'a> {
    /// The part of a worker that does not drain yet.
    pub(crate) fn of(drain: &'a Drain) -> DrainPart<'a> {
        DrainPart {
            drain,
            drains: false,
            told: None,
        }
    }

    /// Its worker accepted so many messages more than it settled, modulo 2^64. That is told where it drains: what it accepted it accepted before.
    pub(crate) fn tell(&mut self, unsettled: u64) {
        if self.drains {
            self.drain.tell(unsettled, self.told);
            self.told = Some(unsettled);
        }
    }

    /// Whether its worker drains.
    pub(crate) fn drains(&self) -> bool {
        self.drains
    }

    /// Looks whether its worker is to drain from now on.
    pub(crate) fn look(&mut self) -> bool {
        if !self.drains {
            self.drains = self.drain.is_asked();
        }
        self.drains
    }
}
