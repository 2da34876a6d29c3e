//! Messages that wait for a place.
ghost use Rattle.std.specs.Prelude.{◌≡◌, ◌≢◌, ◌<◌, ◌≤◌, ◌+◌, None, [], ◌∷◌, ◌++◌, OnOk};
ghost use Rattle.std.specs.VecDeque.{deque_len, deque_capacity};
ghost use Rattle.local_group.specs.Groups.{waits};
ghost use Rattle.local_group.specs.Keeping.{front_of};

use dispatch_core::Job;
use group_jobs::SharedMessage;
use std::alloc::AllocError;
use std::collections::VecDeque;

/// A message of a group that nobody holds, and which job it is.
#[derive(Debug, Drop)]
pub struct Waiting {
    pub job: Job,
    pub message: SharedMessage,
}

/// The job in front, if there is one.
pub(crate) fn front_of(waiting: &VecDeque<Waiting>) -> Option<Job>
    ensures { result ≡ front_of waiting.now.items }
{
    waiting.front().map(|front| front.job)
}

/// Makes room for each message that is out to be given back, and for one more.
pub(crate) fn make_way_back(returned: &mut VecDeque<Waiting>, out: usize) -> Result<(), AllocError>
    ensures ok { OnOk result (deque_len returned.new + out + 1 ≤ deque_capacity returned.new) }
    ensures items { returned.new.items ≡ returned.old.items }
    ensures len { deque_len returned.new ≡ deque_len returned.old }
    ensures capacity { deque_capacity returned.old ≤ deque_capacity returned.new }
{
    match out.checked_add(1) {
        Some(room) => returned.reserve(room),
        None => Err(AllocError),
    }
}

/// Takes the message in front. There is one.
pub(crate) fn take_front(waiting: &mut VecDeque<Waiting>) -> Waiting
    requires { front_of waiting.old.items ≢ None }
    ensures front { waiting.old.items ≡ result ∷ waiting.new.items }
    ensures len { deque_len waiting.old ≡ deque_len waiting.new + 1 }
    ensures capacity { deque_capacity waiting.new ≡ deque_capacity waiting.old }
{
    match waiting.pop_front() {
        Some(front) => front,
        None => unreachable!(),
    }
}

/// Puts a message after the others. There is room for it.
pub(crate) fn put_behind(waiting: &mut VecDeque<Waiting>, job: Job, message: SharedMessage)
    requires { deque_len waiting.old < deque_capacity waiting.old }
    ensures items { waiting.new.items ≡ waiting.old.items ++ waits job message ∷ [] }
    ensures len { deque_len waiting.new ≡ deque_len waiting.old + 1 }
    ensures capacity { deque_capacity waiting.old ≤ deque_capacity waiting.new }
{
    match waiting.push_back(Waiting { job, message }) {
        Ok(()) => (),
        Err(_) => unreachable!(),
    }
}
