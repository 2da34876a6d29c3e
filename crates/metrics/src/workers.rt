//! How the workers go on.
use crate::counts::WorkerCounts;
use crate::exposition::{Kind, Label, add_family, add_sample};
use std::alloc::{AllocError, Global};

/// Adds how the workers went on.
pub(crate) fn add_workers(
    alloc: Global,
    text: &mut Vec<u8>,
    workers: &[WorkerCounts],
) -> Result<(), AllocError> {
    add_per_worker(
        alloc,
        text,
        "share_broker_worker_turns_total",
        "How often the worker waited for its connections.",
        workers,
        |counts| counts.turns,
    )?;
    add_per_worker(
        alloc,
        text,
        "share_broker_worker_calls_total",
        "How often a call of another worker ended its wait.",
        workers,
        |counts| counts.calls,
    )
}

/// Adds a counter with a number for each worker.
fn add_per_worker<F: Fn(&WorkerCounts) -> u64>(
    alloc: Global,
    text: &mut Vec<u8>,
    name: &str,
    help: &str,
    workers: &[WorkerCounts],
    number: F,
) -> Result<(), AllocError>
    requires { F.IsAlwaysCallable number }
{
    add_family(text, name, help, Kind::Counter)?;
    for (worker, counts) in workers.iter().enumerate() {
        let worker = worker.to_string(alloc)?;
        let label = Label {
            name: "worker",
            value: worker.as_bytes(),
        };
        add_sample(text, name, &[label], number(counts))?;
    }
    Ok(())
}
