//! The sessions whose time is over end also where no connection is there that ticks.
ghost use Rattle.std.specs.Prelude.{◌≡◌};
ghost use Rattle.worker_connections.specs.Retiring.{RetiresDue};

use broker_groups::Broker;
use call_history::HistoryName;
use conn_engine::retire_due;
use conn_supply::Supply;
use shared_supply::SharedSupply;
use std::sync::Wait;

/// Retires the sessions whose time is over at this moment, in a visit of the gate; where that is shut, none. Where none is due, neither the desk nor a group is asked.
pub(crate) fn retire_in_visit<'a, 'g, B: Broker, N: HistoryName, R: Wait>(
    supply: &mut SharedSupply<'a, 'g, B, N, R>,
    now: u64,
)
    ensures retired { RetiresDue B.group B.Seen.Witness supply.old now supply.new }
    ensures routes { supply.new.known.table ≡ supply.old.known.table }
    ensures parts { supply.new.desk.parts ≡ supply.old.desk.parts }
{
    if supply.begin() {
        retire_due(supply, now);
    }
    supply.end();
}
