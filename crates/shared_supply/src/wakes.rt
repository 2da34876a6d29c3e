//! What a worker did that others may wait for.
ghost use Rattle.std.specs.Prelude.{◌≡◌, ◌<◌};
ghost use Rattle.limits.specs.Limits.{most_groups};
ghost use Rattle.shared_supply.specs.Waking.{KeepsAtMost, also_asked, asking_back, freeing, no_wakes, one_called, one_more, one_taken, one_taken_if};

use broker_groups::{Broker, BrokerPlace};
use conn_supply::NoMemory;
use group_jobs::Envelope;
use session_desk::{Attached, DeskError};

/// What a worker did that others may wait for, since it was last asked.
#[derive(Clone, Copy, Debug, PartialEq, Eq)]
pub struct Wakes {
    /// For each slot, how many messages were accepted into its group or given back to it, less those that it handed out since, or 2^32 - 1 where they were
    /// more: so many members of other workers may be handed one.
    pub messages: [u32; 8],
    /// For each slot, how many of the next hand-outs are of messages for which another worker called it, and not of those.
    pub calls: [u32; 8],
    /// Whose sessions were asked back: a packet or a Tick ends those connections.
    pub asked_back: AskedBack,
    /// Whether a session was parked, or ended with its connection: who waits for one gets it at a Tick.
    pub has_freed_session: bool,
}

/// The connections whose sessions were asked back.
#[derive(Clone, Copy, Debug, PartialEq, Eq)]
pub enum AskedBack {
    /// None was.
    Nobody,
    /// Once, that of the connection with this number.
    One(u16),
    /// More than once: any connection's may have been.
    Several,
}

impl Wakes {
    /// Nobody has anything to wait for.
    pub(crate) fn none() -> Wakes
        ensures { result ≡ no_wakes }
    {
        Wakes {
            messages: [0; 8],
            calls: [0; 8],
            asked_back: AskedBack::Nobody,
            has_freed_session: false,
        }
    }

    /// One message more is in the group of this slot.
    pub(crate) fn count(&mut self, slot: u8)
        requires { slot < most_groups }
        ensures { self.new ≡ one_more slot self.old }
    {
        let slot = usize::from(slot);
        self.messages[slot] = self.messages[slot].saturating_add(1);
    }

    /// Another worker called for a message of the group of this slot.
    pub(crate) fn count_call(&mut self, slot: usize)
        requires { slot < most_groups }
        ensures { self.new ≡ one_called slot self.old }
    {
        self.calls[slot] = self.calls[slot].saturating_add(1);
    }

    /// Where an answer has a message of the group of this slot, that is handed out: one less for which it was called, or one less for others.
    pub(crate) fn note_taken(&mut self, slot: u8, answer: &Result<Option<Envelope>, NoMemory>)
        requires { slot < most_groups }
        ensures { self.new ≡ one_taken_if answer.now slot self.old }
    {
        if let Ok(Some(_)) = answer {
            self.take(usize::from(slot));
        }
    }

    /// A message of the group of this slot is handed out.
    fn take(&mut self, slot: usize)
        requires { slot < most_groups }
        ensures { self.new ≡ one_taken slot self.old }
    {
        let own = 1u32.saturating_sub(self.calls[slot]);
        self.messages[slot] = self.messages[slot].saturating_sub(own);
        self.calls[slot] = self.calls[slot].saturating_sub(1);
    }

    /// Keeps so many messages of each group at most, and gives back how many more there were.
    pub(crate) fn keep(&mut self, most: &[u32; 8]) -> [u32; 8]
        ensures { KeepsAtMost most.now result self.old self.new }
    {
        let mut beyond = [0; 8];
        for slot in 0..8 {
            let kept = self.messages[slot].min(most[slot]);
            beyond[slot] = self.messages[slot] - kept;
            self.messages[slot] = kept;
        }
        beyond
    }

    /// Notes whose session an answer of the desk says to be asked back.
    pub(crate) fn note<B: Broker>(
        &mut self,
        answer: &Result<Attached<Envelope, BrokerPlace<B>>, DeskError>,
    )
        ensures { self.new ≡ asking_back answer.now self.old }
    {
        match answer {
            Ok(Attached::Replace(holder)) => self.asked_back = also(self.asked_back, *holder),
            Ok(Attached::New { .. }) => {}
            Ok(Attached::Resumed(_)) => {}
            Ok(Attached::Busy) => {}
            Err(_) => {}
        }
    }

    /// A session was parked, or ended.
    pub(crate) fn free_session(&mut self)
        ensures { self.new ≡ freeing self.old }
    {
        self.has_freed_session = true;
    }
}

/// The session of this connection is asked back too.
fn also(asked: AskedBack, connection: u16) -> AskedBack
    ensures { result ≡ also_asked asked connection }
{
    match asked {
        AskedBack::Nobody => AskedBack::One(connection),
        AskedBack::One(_) => AskedBack::Several,
        AskedBack::Several => AskedBack::Several,
    }
}
