//! What each worker tells the others of its members and of the messages of each group. No contract speaks of it: it may be out of date, and only says who is asked first.
use crate::loads::{Average, Load};
use std::alloc::{AllocError, Global};
use std::sync::atomic::{AtomicU64, Ordering};

/// How many groups there are.
const SLOTS: usize = 8;

/// What a worker tells of a group.
#[derive(Clone, Copy, Debug, PartialEq, Eq)]
pub struct Hint {
    /// Of its members that may be handed a message.
    pub load: Load,
    /// How many messages each of them was handed.
    pub average: Average,
    /// How many messages its connections brought into the group, counted from 0 again at 2^32.
    pub brought: u32,
    /// How many its members were handed, counted so too.
    pub handed: u32,
}

/// What one worker tells of one group. It alone writes here.
#[derive(Drop)]
struct Words {
    // The four numbers of its load.
    load: AtomicU64,
    average: AtomicU64,
    // What was brought, above what was handed out.
    tally: AtomicU64,
}

impl Words {
    fn new() -> Words {
        Words {
            load: AtomicU64::new(0),
            average: AtomicU64::new(0),
            tally: AtomicU64::new(0),
        }
    }
}

/// What all workers tell, by worker and slot.
#[derive(Drop)]
pub struct Hints {
    words: Vec<Words>,
}

impl Hints {
    /// So many workers told nothing yet.
    ///
    /// # Errors
    ///
    /// Out of memory.
    pub fn new(alloc: Global, workers: usize) -> Result<Hints, AllocError> {
        let mut words = Vec::new(alloc);
        for _ in 0..workers {
            for _ in 0..SLOTS {
                words.push(Words::new())?;
            }
        }
        Ok(Hints { words })
    }

    /// What there is of a worker and a slot.
    fn at(&self, worker: usize, slot: usize) -> Option<&Words> {
        self.words
            .get(worker.saturating_mul(SLOTS).saturating_add(slot))
    }

    /// A worker tells this of a group.
    pub fn tell(&self, worker: usize, slot: usize, hint: Hint) {
        if let Some(words) = self.at(worker, slot) {
            put(
                &words.tally,
                u64::from(hint.brought) << 32 | u64::from(hint.handed),
            );
            put(&words.average, u64::from(hint.average.parts));
            put(&words.load, word_of(hint.load));
        }
    }

    /// What a worker told of its members in a group, and how many messages each of them was handed.
    pub fn load(&self, worker: usize, slot: usize) -> (Load, Average) {
        match self.at(worker, slot) {
            Some(words) => {
                let load = load_of(words.load.load(Ordering::SeqCst));
                let parts = low_half(words.average.load(Ordering::SeqCst));
                (load, Average { parts })
            }
            None => (Load::NONE, Average::NONE),
        }
    }

    /// About how many messages wait in a group, by what so many workers told.
    pub fn waiting(&self, workers: usize, slot: usize) -> u32 {
        let mut brought = 0u32;
        let mut handed = 0u32;
        for worker in 0..workers {
            if let Some(words) = self.at(worker, slot) {
                let tally = words.tally.load(Ordering::SeqCst);
                brought = brought.wrapping_add(low_half(tally >> 32));
                handed = handed.wrapping_add(low_half(tally));
            }
        }
        let waiting = brought.wrapping_sub(handed);
        // Where one was counted out before it was counted in, none waits.
        if waiting > u32::MAX / 2 { 0 } else { waiting }
    }
}

/// Writes a word, where another is there.
fn put(word: &AtomicU64, value: u64) {
    if word.load(Ordering::SeqCst) != value {
        word.store(value, Ordering::SeqCst);
    }
}

/// The lower half of a word.
fn low_half(word: u64) -> u32 {
    u32::try_from(word & 0xFFFF_FFFF).unwrap_or(0)
}

/// A load in a word, so that it is read as it was told.
fn word_of(load: Load) -> u64 {
    u64::from(load.members) << 48
        | u64::from(load.least) << 32
        | u64::from(load.at_least) << 16
        | u64::from(load.rest)
}

/// The load of a word.
fn load_of(word: u64) -> Load {
    Load {
        members: quarter(word >> 48),
        least: quarter(word >> 32),
        at_least: quarter(word >> 16),
        rest: quarter(word),
    }
}

/// The lowest quarter of a word.
fn quarter(word: u64) -> u16 {
    u16::try_from(word & 0xFFFF).unwrap_or(0)
}
