//! One broker with one worker on one thread, from its opening to its reports.
ghost use Rattle.std.specs.Prelude.{◌≡◌};

use crate::broker::ending::sum_of;
use crate::broker::opening::shut;
use crate::broker::worker::{Shift, work_alone};
use crate::one_thread::clients::{WRITTEN, two_clients};
use broker_groups::{Broker, BrokerPlace, Key, Witnessed};
use call_history::HistoryName;
use conn_supply::Supply;
use gate_word::Gate;
use group_queue::Nobody;
use shared_supply::SharedBroker;
use std::alloc::Global;
use std::marker::Brand;
use std::test::Fail;

/// Two clients come to the worker, once the gate was shut or while it is open. What they are written.
#[derive(Drop)]
struct TwoClients {
    is_shut: bool,
    written: Option<Vec<u8>>,
}

impl Shift for TwoClients {
    fn work<B: Broker, S: Supply<BrokerPlace<B>>>(
        &mut self,
        alloc: Global,
        supply: &mut S,
        gate: &Gate,
        spare: Key<B>,
    ) {
        if self.is_shut {
            let _is_drained = shut(gate, spare);
        }
        self.written = two_clients(alloc, supply);
    }
}

// The worker's member is handed the publisher's job and acknowledges it; then all groups end.
#[test]
fn a_job_is_handed_out_and_acknowledged(rt: HostRuntime) -> Result<(), Fail> {
    let mut day = TwoClients {
        is_shut: false,
        written: None,
    };
    let counts = work_alone(&rt, rt.alloc(), 8, &mut day).ok_or("a day")?;
    assert_eq!(rt; day.written.ok_or("what is written")?.as_slice(), WRITTEN);
    assert_eq!(rt; (counts.len(), sum_of(&counts).acknowledged), (8, 1));
    Ok(())
}

// A gate that was shut lets no worker in: nothing is written, and all groups end.
#[test]
fn a_shut_gate(rt: HostRuntime) -> Result<(), Fail> {
    let mut day = TwoClients {
        is_shut: true,
        written: None,
    };
    let counts = work_alone(&rt, rt.alloc(), 8, &mut day).ok_or("a day")?;
    assert_eq!(rt; day.written.ok_or("what is written")?.len(), 0);
    assert_eq!(rt; (counts.len(), sum_of(&counts).acknowledged), (8, 0));
    Ok(())
}

fn is_shared_by_threads<T: Sync>() {}

fn may_be_threaded<B: Broker + Send + Sync, N: HistoryName + Send + Sync>()
where
    B::Seen: Send + Sync,
{
    is_shared_by_threads::<SharedBroker<'static, B, N>>();
}

#[test]
fn what_threads_may_do_with_it() {
    may_be_threaded::<Witnessed<Brand, Nobody>, Brand>();
}
