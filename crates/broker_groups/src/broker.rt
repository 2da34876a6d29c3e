//! The name of a broker, which its gate, groups, ports and places carry in their types.
ghost use Rattle.std.specs.Prelude.{ℕ};
ghost use Rattle.gate_word.specs.Seats.{GateId};
ghost use Rattle.group_queue.specs.Ports.{GroupId};

use group_queue::Witness;
use std::marker::{Brand, PhantomData};

/// Which gate and which groups a broker has: one group for each slot below [`MOST_GROUPS`](limits::MOST_GROUPS). What names a broker in its type belongs
/// to this gate and to these groups, wherever it lies: behind a lock, with a member, or with a thread.
pub trait Broker {
    ghost use Rattle.std.specs.Prelude.{ℕ};
    ghost use Rattle.gate_word.specs.Seats.{GateId};
    ghost use Rattle.group_queue.specs.Ports.{GroupId};

    /// The witness of its groups: what was seen of their queues, for contracts alone.
    type Seen: Witness;

    /// Its gate.
    ghost gate: { GateId };

    /// Its group of each slot.
    ghost group: { ℕ → GroupId };
}

/// The name of a broker without its witness.
pub trait BrokerName {
    ghost use Rattle.std.specs.Prelude.{ℕ};
    ghost use Rattle.gate_word.specs.Seats.{GateId};
    ghost use Rattle.group_queue.specs.Ports.{GroupId};

    /// Its gate.
    ghost gate: { GateId };

    /// Its group of each slot.
    ghost group: { ℕ → GroupId };
}

/// A broker is named at a call: a function over every name is called at `Brand`, and the proof of the call says which gate
/// and groups it is called with.
impl BrokerName for Brand {
    ghost use Rattle.broker_groups.specs.Brokers.{no_gate, no_group};

    ghost gate = { no_gate };

    ghost group = { λ _. no_group };
}

/// The broker of this name whose groups have this witness.
pub struct Witnessed<N, W> {
    name: PhantomData<N>,
    witness: PhantomData<W>,
}

impl<N: BrokerName, W: Witness> Broker for Witnessed<N, W> {
    type Seen = W;

    ghost gate = { N.gate };

    ghost group = { N.group };
}
