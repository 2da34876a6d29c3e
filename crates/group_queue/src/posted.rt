//! Messages in a group's queues.
ghost use Rattle.std.specs.Prelude.{◌≡◌};

use dispatch_core::Job;
use group_jobs::SharedMessage;

/// A message in one of a group's queues, with the port that it came through and its number there.
#[derive(Debug, Drop)]
pub struct Posted {
    pub job: Job,
    pub message: SharedMessage,
}

impl Posted {
    /// Its job; the message is let go.
    pub(crate) fn into_job(self) -> Job
        ensures { result ≡ self.job }
    {
        self.job
    }
}
