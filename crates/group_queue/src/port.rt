//! Ports: where a group accepts messages.
ghost use Rattle.std.specs.Prelude.{◌≡◌, ◌≤◌};
ghost use Rattle.limits.specs.Limits.{most_accepted};

use crate::main_queue::MainPass;
use crate::witness::{Nobody, Witness};
use std::marker::{Model, PhantomData};

/// Who has it alone publishes through it. A port belongs to the group that it was opened with, may go to another thread, and
/// numbers the messages that it sends from 0 on.
///
/// Contracts see it as a `PortState`: the group's slot, the port's number, how many messages it has sent, and which.
#[derive(Drop)]
pub struct Port<W: Witness = Nobody> {
    pub(crate) group: u8,
    pub(crate) number: u8,
    pub(crate) accepted: u64,
    pub(crate) pass: MainPass,
    pub(crate) witness: PhantomData<W>,
}

impl<W: Witness> Model for Port<W> {
    ghost use Rattle.group_queue.specs.Ports.{PortState};

    ghost Value = { PortState };

    ghost use Rattle.group_queue.specs.Senders.{sent_by, IsCounted};
    ghost use Rattle.group_queue.specs.Witnesses.{FollowsPort};

    ghost view = { λ p. record { group = p.group; number = p.number; accepted = p.accepted; sent = sent_by p.pass; queue = p.pass.table_id } };

    ghost invariant = { λ p. IsCounted p.number p.accepted p.pass × FollowsPort W.saw_main p.number };
}

impl<W: Witness> Port<W> {
    /// The slot of its group.
    pub fn slot(&self) -> u8
        ensures { result ≡ self.now.group }
    {
        self.group
    }

    /// Its number in its group, from 0 to 63.
    pub fn number(&self) -> u8
        ensures { result ≡ self.now.number }
    {
        self.number
    }

    /// How many messages it accepted, 2^40 at most: their numbers are those below.
    pub fn accepted(&self) -> u64
        ensures value { result ≡ self.now.accepted }
        ensures few { result ≤ most_accepted }
    {
        self.accepted
    }
}
