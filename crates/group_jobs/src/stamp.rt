//! Stamps: which message of which group it is.
ghost use Rattle.std.specs.Prelude.{◌≡◌};
ghost use Rattle.group_jobs.specs.Stamps.{job_of, stamp_of};

use dispatch_core::Job;

/// An accepted message, by its group, the port that it came through, and its number there. A port's numbers go up from 0,
/// without a gap.
#[derive(Clone, Copy, Debug, PartialEq, Eq)]
pub struct Stamp {
    /// The slot of the group.
    pub group: u8,
    /// From 0 to 63.
    pub port: u8,
    /// The place in the order in which the port accepted its messages.
    pub number: u64,
}

impl Stamp {
    /// The stamp of a job of this group.
    pub fn of(group: u8, job: Job) -> Stamp
        ensures { result ≡ stamp_of group job }
    {
        Stamp {
            group,
            port: job.port,
            number: job.number,
        }
    }

    /// The stamp without its group.
    pub fn job(self) -> Job
        ensures { result ≡ job_of self }
    {
        Job {
            port: self.port,
            number: self.number,
        }
    }
}
