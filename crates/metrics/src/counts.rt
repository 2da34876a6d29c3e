//! What the workers of a broker have counted, for whoever asks.
ghost use Rattle.std.specs.Prelude.{◌≡◌, length, IfOk};

use conn_service::AnswerCounts;
use mqtt_topic::Share;
use once_cell::race::OnceBox;
use shared_supply::SupplyCounts;
use std::alloc::{AllocError, Global};
use std::sync::{Mutex, Wait};
use worker_connections::ServedCounts;

/// What one worker has counted since it began, or what several have together.
#[derive(Clone, Copy, Debug, PartialEq, Eq)]
pub struct WorkerCounts {
    /// Of messages and sessions.
    pub supply: SupplyCounts,
    /// Of connections that have ended.
    pub served: ServedCounts,
    /// Of what was answered to clients.
    pub answers: AnswerCounts,
    /// How many clients have their session.
    pub connected: u64,
    /// How many connections it took up.
    pub opened: u64,
    /// How often it waited.
    pub turns: u64,
    /// How often a call of another worker ended its wait.
    pub calls: u64,
    /// 1 where it drains; of several, how many do.
    pub draining: u64,
}

impl WorkerCounts {
    /// Nothing has happened yet.
    pub const NONE: WorkerCounts = WorkerCounts {
        supply: SupplyCounts::NONE,
        served: ServedCounts::NONE,
        answers: AnswerCounts::NONE,
        connected: 0,
        opened: 0,
        turns: 0,
        calls: 0,
        draining: 0,
    };

    /// How many connections have not ended.
    pub fn live(&self) -> u64 {
        self.opened.saturating_sub(self.served.total())
    }

    /// Adds what another worker has counted.
    pub fn add(&mut self, other: &WorkerCounts) {
        self.supply.add(&other.supply);
        self.served.add(&other.served);
        self.answers.add(&other.answers);
        self.connected = self.connected.saturating_add(other.connected);
        self.opened = self.opened.saturating_add(other.opened);
        self.turns = self.turns.saturating_add(other.turns);
        self.calls = self.calls.saturating_add(other.calls);
        self.draining = self.draining.saturating_add(other.draining);
    }
}

/// Connections that were closed before a worker took them up: nothing was read of them.
#[derive(Clone, Copy, Debug, PartialEq, Eq)]
pub struct TurnedAway {
    /// Their address had as many as it may; or they were gone already, or there was no memory to count one more.
    pub of_address: u64,
    /// A newcomer wanted their place: of those whose first packet had not come they came first.
    pub for_newcomer: u64,
    /// Their first packet had not come in ten seconds (section 3.1.4).
    pub late: u64,
}

impl TurnedAway {
    /// Nobody was turned away.
    pub const NONE: TurnedAway = TurnedAway {
        of_address: 0,
        for_newcomer: 0,
        late: 0,
    };
}

/// How many groups a broker has at most.
const GROUPS: usize = 8;

/// Where a worker puts what it has counted, and the shares that it knows, for whoever asks. The worker never waits.
#[derive(Drop)]
pub struct SharedCounts {
    alloc: Global,
    latest: Mutex<WorkerCounts>,
    // The texts of the shares, by their slots.
    shares: [OnceBox<Vec<u8>>; GROUPS],
}

impl SharedCounts {
    /// Nothing was counted, and no share is known.
    pub fn new(alloc: Global) -> SharedCounts {
        SharedCounts {
            alloc,
            latest: Mutex::new(WorkerCounts::NONE),
            shares: [
                OnceBox::new(alloc),
                OnceBox::new(alloc),
                OnceBox::new(alloc),
                OnceBox::new(alloc),
                OnceBox::new(alloc),
                OnceBox::new(alloc),
                OnceBox::new(alloc),
                OnceBox::new(alloc),
            ],
        }
    }

    /// Puts down that this share is bound to this slot, for good. It takes the memory of its text.
    ///
    /// # Errors
    ///
    /// An allocation failed: the text is not there.
    pub fn store_share(&self, slot: u8, share: &Share) -> Result<(), AllocError> {
        let Some(place) = self.shares.get(usize::from(slot)) else {
            return Ok(());
        };
        if place.get().is_none() {
            let text = Vec::from_slice(self.alloc, share.text())?;
            let _another = place.set(Box::new(self.alloc, text)?);
        }
        Ok(())
    }

    /// The text of the share that is bound to a slot, where its worker has put it down.
    pub fn share(&self, slot: usize) -> Option<&[u8]> {
        match self.shares.get(slot)?.get() {
            Some(text) => Some(text.as_slice()),
            None => None,
        }
    }

    /// Puts down all that its worker has counted. Where somebody reads at this moment what stood there stays, until the next time.
    pub fn store(&self, counts: &WorkerCounts) {
        if let Some(mut latest) = self.latest.try_lock() {
            *latest = *counts;
        }
    }

    /// What its worker has counted.
    pub fn load<R: Wait>(&self, rt: &R) -> WorkerCounts {
        *self.latest.lock(rt)
    }
}

/// The places of so many workers.
pub fn shared_counts(alloc: Global, workers: usize) -> Result<Vec<SharedCounts>, AllocError>
    ensures { IfOk result (λ all. length all.items ≡ workers) }
{
    let mut all = Vec::with_capacity(alloc, workers)?;
    for worker in 0..workers {
        let _ = worker;
        all.push(SharedCounts::new(alloc))?;
    }
    Ok(all)
}
