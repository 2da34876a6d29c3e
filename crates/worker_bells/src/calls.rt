//! What workers call one another for, and how many connections each has.

use crate::hints::Hints;
use crate::shares::share_of;
use bell::{MOST_WORKERS, Wake};
use conn_supply::NoMemory;
use std::alloc::Global;
use std::sync::Arc;
use std::sync::atomic::{AtomicU64, Ordering};

// What a worker is called for: bits of its word. The bits from the third on count invitations.
const ALL_DUE: u64 = 1;

const CLOSING: u64 = 2;

const INVITED: u64 = 4;

/// What others tell a worker.
#[derive(Drop)]
struct Mailbox {
    calls: AtomicU64,
    // How many connections it has, and how many were sent for it.
    open: AtomicU64,
    // Whether one of them waits for a session: 1, or 0.
    waits: AtomicU64,
}

impl Mailbox {
    /// That of a worker that has no connection.
    fn new() -> Mailbox {
        Mailbox {
            calls: AtomicU64::new(0),
            open: AtomicU64::new(0),
            waits: AtomicU64::new(0),
        }
    }
}

/// What a worker was called for.
#[derive(Clone, Copy, Debug, PartialEq, Eq)]
pub struct Calls {
    /// So many connections were sent for it.
    pub invited: u64,
    /// Each of its connections is to go on.
    pub all_due: bool,
    /// The broker closes.
    pub closing: bool,
}

/// The workers of a broker, as each of them knows the others.
#[derive(Drop)]
pub struct Mailboxes<W> {
    mailboxes: Vec<Mailbox>,
    alarms: Vec<Arc<Vec<W>, Global>>,
    // How many connections a worker has at most.
    share: u64,
    // How many workers have begun.
    begun: AtomicU64,
    // How many connections were sent that the worker for which each was sent has not received.
    underway: AtomicU64,
    hints: Hints,
}

impl<W: Wake> Mailboxes<W> {
    /// So many workers, of whom none has a connection; these alarms wake them, in their order.
    ///
    /// # Errors
    ///
    /// Out of memory.
    pub fn open(alloc: Global, count: usize, alarms: Vec<W>) -> Result<Mailboxes<W>, NoMemory>
    where
        W: Drop,
    {
        let mut mailboxes = Vec::with_capacity(alloc, count)?;
        for _ in 0..count {
            mailboxes.push(Mailbox::new())?;
        }
        Ok(Mailboxes {
            mailboxes,
            alarms: bell_groups_of(alloc, alarms)?,
            share: u64::from(share_of(count)),
            begun: AtomicU64::new(0),
            underway: AtomicU64::new(0),
            hints: Hints::new(alloc, count)?,
        })
    }

    /// What wakes them.
    pub fn alarms(&self) -> &[Arc<Vec<W>, Global>] {
        self.alarms.as_slice()
    }

    /// How many workers there are.
    pub fn len(&self) -> usize {
        self.mailboxes.len()
    }

    /// What they tell one another of their members.
    pub fn hints(&self) -> &Hints {
        &self.hints
    }

    /// A worker has begun.
    pub fn note_begun(&self) {
        let _count = self.begun.fetch_add(1, Ordering::SeqCst);
    }

    /// Whether each of them has begun.
    pub fn has_begun(&self) -> bool {
        self.begun.load(Ordering::SeqCst) >= self.mailboxes.len() as u64
    }

    /// Wakes a worker.
    fn wake(&self, worker: usize) {
        if let Some(bell_group) = self.alarms.get(worker / MOST_WORKERS) {
            if let Some(alarm) = bell_group.get(worker % MOST_WORKERS) {
                alarm.wake();
            }
        }
    }

    /// Calls a worker.
    fn call(&self, worker: usize, call: u64) {
        if let Some(mailbox) = self.mailboxes.get(worker) {
            let _before = mailbox.calls.fetch_or(call, Ordering::SeqCst);
            self.wake(worker);
        }
    }

    /// Each connection of a worker is to go on.
    pub fn call_all_due(&self, worker: usize) {
        self.call(worker, ALL_DUE);
    }

    /// A session is free: workers of whose connections one waits for a session look whether it is theirs.
    pub fn call_waiting(&self) {
        for worker in 0..self.mailboxes.len() {
            if let Some(mailbox) = self.mailboxes.get(worker) {
                if mailbox.waits.load(Ordering::SeqCst) > 0 {
                    self.call(worker, ALL_DUE);
                }
            }
        }
    }

    /// Each connection of every worker is to go on.
    pub fn call_everybody(&self) {
        for worker in 0..self.mailboxes.len() {
            self.call(worker, ALL_DUE);
        }
    }

    /// The broker closes.
    pub fn close(&self) {
        for worker in 0..self.mailboxes.len() {
            self.call(worker, CLOSING);
        }
    }

    /// A connection was sent for this worker, which may receive one more from now on.
    pub fn invite(&self, worker: usize) {
        if let Some(mailbox) = self.mailboxes.get(worker) {
            let _underway = self.underway.fetch_add(1, Ordering::SeqCst);
            let _count = mailbox.open.fetch_add(1, Ordering::SeqCst);
            let _before = mailbox.calls.fetch_add(INVITED, Ordering::SeqCst);
            self.wake(worker);
        }
    }

    /// A worker has received a connection for which it was invited.
    pub fn note_received(&self) {
        let _underway = self.underway.fetch_sub(1, Ordering::SeqCst);
    }

    /// Whether each connection that was sent was received. Where the broker closes, only end marks come from then on.
    pub fn is_all_received(&self) -> bool {
        self.underway.load(Ordering::SeqCst) == 0
    }

    /// A connection of this worker has ended.
    pub fn leave(&self, worker: usize) {
        if let Some(mailbox) = self.mailboxes.get(worker) {
            let _count = mailbox.open.fetch_sub(1, Ordering::SeqCst);
        }
    }

    /// Whether a connection of this worker waits for a session.
    pub fn note_waiting(&self, worker: usize, waits: bool) {
        if let Some(mailbox) = self.mailboxes.get(worker) {
            mailbox.waits.store(u64::from(waits), Ordering::SeqCst);
        }
    }

    /// What a worker was called for since it asked last.
    pub fn take_calls(&self, worker: usize) -> Calls {
        let word = match self.mailboxes.get(worker) {
            Some(mailbox) => mailbox.calls.swap(0, Ordering::SeqCst),
            None => 0,
        };
        Calls {
            invited: word / INVITED,
            all_due: word & ALL_DUE != 0,
            closing: word & CLOSING != 0,
        }
    }

    /// The worker that has the fewest connections, if it may have one more.
    pub fn least_full(&self) -> Option<usize> {
        let mut least = self.share;
        let mut found = None;
        for worker in 0..self.mailboxes.len() {
            if let Some(mailbox) = self.mailboxes.get(worker) {
                let open = mailbox.open.load(Ordering::SeqCst);
                if open < least {
                    least = open;
                    found = Some(worker);
                }
            }
        }
        found
    }

    /// The worker whose connections have numbers about this one.
    pub fn worker_of(&self, connection: u16) -> usize {
        if self.share == 0 {
            return 0;
        }
        (u64::from(connection) / self.share) as usize
    }
}

/// The alarms of 32 workers each.
fn bell_groups_of<W: Drop>(
    alloc: Global,
    alarms: Vec<W>,
) -> Result<Vec<Arc<Vec<W>, Global>>, NoMemory> {
    let mut bell_groups = Vec::new(alloc);
    let mut bell_group = Vec::new(alloc);
    for alarm in alarms {
        bell_group.push(alarm)?;
        if bell_group.len() == MOST_WORKERS {
            bell_groups.push(Arc::new(alloc, bell_group)?)?;
            bell_group = Vec::new(alloc);
        }
    }
    if !bell_group.is_empty() {
        bell_groups.push(Arc::new(alloc, bell_group)?)?;
    }
    Ok(bell_groups)
}
