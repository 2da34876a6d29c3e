//! What the threads of a pool do.
ghost use Rattle.std.specs.Prelude.{◌<◌, ℕ, length, slice_index_or};
ghost use Rattle.worker_pool.specs.Accepting.{HasAccepted, TellsEnd};
ghost use Rattle.worker_pool.specs.Workers.{HaveRun};

use crate::accepting::Acceptor;
use crate::network::Network;
use crate::watching::Watch;
use broker_groups::Broker;
use broker_worker::Worker;
use call_history::HistoryName;
use std::rt::Clock as SystemClock;
use std::sync::Wait;
use std::thread;
use std::thread::Threads;
use transport::Transport;
use worker_connections::Poller;

/// Who does something in a thread.
trait Labour<R> {
    /// What it was, and what it is once it has done that.
    ghost has_run: { Self → Self → Type 0 };

    /// Does it to its end.
    fn labour(&mut self, rt: &R)
        ensures { has_run self.old self.new };
}

impl<'a, B: Broker, W: Network, R: Wait + SystemClock> Labour<R> for Acceptor<'a, B, W> {
    ghost use Rattle.worker_pool.specs.Accepting.{HasAccepted, TellsEnd};

    ghost has_run = { λ old new. HasAccepted W.Source.tally W.Source.arrived old new × TellsEnd W.Source.tally old new };

    fn labour(&mut self, rt: &R) {
        self.accept_all(rt);
    }
}

impl<'a, 'g, B: Broker, N: HistoryName, T: Transport + Drop, Q: Poller<T> + Drop, R: Wait> Labour<R>
    for Worker<'a, 'g, B, N, T, Q, R> {
    ghost use Rattle.worker_pool.specs.Workers.{HasRun};

    ghost has_run = { λ old new. HasRun old new };

    fn labour(&mut self, rt: &R) {
        self.run(rt);
    }
}

/// Who accepts does so in this thread, who watches in a second one, and each worker works in one of its own.
///
/// Where the system makes no thread for one of them, it is run once another has returned, which does not wait for it. That is so whichever thread is refused. Who accepts
/// is run at once, and where a worker does not begin in time it tells all workers to end. Who watches is run at once, or once who accepts has returned; no worker is run
/// before that in its thread. A worker is run at once, or once who watches or another worker has returned.
pub(crate) fn run_all<
    'a,
    'g,
    B: Broker + Send + Sync,
    N: HistoryName + Send + Sync,
    W: Network,
    D: Watch,
    R: Threads + Wait + SystemClock + Sync,
>(
    rt: &R,
    acceptor: &mut Acceptor<'a, B, W>,
    watch: &mut D,
    input: &mut D::Input,
    workers: &mut Vec<Worker<'a, 'g, B, N, W::Transport, W::Poller, R>>,
)
where
    B::Seen: Send + Sync,
    W::Transport: Send,
    W::Source: Send,
    W::Poller: Send,
    W::Alarm: Send + Sync,
    ensures accepted { HasAccepted W.Source.tally W.Source.arrived acceptor.old acceptor.new }
    ensures ends { TellsEnd W.Source.tally acceptor.old acceptor.new }
    ensures watched { D.has_watched watch.old watch.new input.old input.new }
    ensures run { HaveRun workers.old.items workers.new.items }
{
    accept_beside(rt, acceptor, watch, input, workers.as_mut_slice());
}

/// The same over any who accepts, and workers in a row. The second of two is always run in this thread, at once.
fn accept_beside<R: Threads + Sync, A: Labour<R>, D: Watch, K: Labour<R> + Send>(
    rt: &R,
    acceptor: &mut A,
    watch: &mut D,
    input: &mut D::Input,
    workers: &mut [K],
)
    ensures accepted { A.has_run acceptor.old acceptor.new }
    ensures watched { D.has_watched watch.old watch.new input.old input.new }
    ensures run { (i : ℕ) (d : K) → i < length workers.old → K.has_run (slice_index_or workers.old i d) (slice_index_or workers.new i d) }
{
    let mut beside = || watch_beside(rt, watch, input, workers);
    let mut accepting = || acceptor.labour(rt);
    thread::join_mut(rt, &mut beside, &mut accepting);
}

/// Who watches does so in this thread, and each worker works in one of its own.
fn watch_beside<R: Threads + Sync, D: Watch, K: Labour<R> + Send>(
    rt: &R,
    watch: &mut D,
    input: &mut D::Input,
    workers: &mut [K],
)
    ensures watched { D.has_watched watch.old watch.new input.old input.new }
    ensures run { (i : ℕ) (d : K) → i < length workers.old → K.has_run (slice_index_or workers.old i d) (slice_index_or workers.new i d) }
{
    let mut working = || work_each(rt, workers);
    let mut watching = || watch.run(input);
    thread::join_mut(rt, &mut working, &mut watching);
}

/// Each worker works, in a thread of its own.
fn work_each<R: Threads + Sync, K: Labour<R> + Send>(rt: &R, workers: &mut [K])
    ensures { (i : ℕ) (d : K) → i < length workers.old → K.has_run (slice_index_or workers.old i d) (slice_index_or workers.new i d) }
{
    let count = workers.len();
    if count > 0 {
        thread::for_each_mut(rt, workers, count, &|_, worker| worker.labour(rt));
    }
}
