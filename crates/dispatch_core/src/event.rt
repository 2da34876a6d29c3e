//! Jobs, what happens to them, and where they are.
ghost use Rattle.std.specs.Prelude.{◌≡◌, ◌↔◌, IsTrue};
ghost use Rattle.dispatch_core.specs.Step.{IsInRange, NeedsOpen};
ghost use Rattle.dispatch_core.specs.Mentions.{named_job, named_member};

use limits::{MOST_MEMBERS, MOST_PORTS};

/// A message that a group accepted: the port that it came through, and its number there. A port's
/// numbers go up from 0, without a gap.
#[derive(Clone, Copy, Debug, PartialEq, Eq)]
pub struct Job {
    /// From 0 to 63.
    pub port: u8,
    /// The place in the order in which the port accepted its jobs.
    pub number: u64,
}

/// What can happen in a group. Each is one step, at one moment.
#[derive(Clone, Copy, Debug, PartialEq, Eq)]
pub enum Event {
    /// A port accepts its next job, which is queued from then on.
    Accept { port: u8 },
    /// A member is handed the oldest queued job of a port: the job's first hand-out (4.6).
    First { member: u8, job: Job },
    /// A member acknowledges a job that it holds: a PUBACK with a reason code below 0x80 (3.4.2.1).
    Ack { member: u8, job: Job },
    /// A member refuses a job that it holds: a PUBACK with a reason code of 0x80 or greater. Nobody else
    /// is handed the job (4.8.2).
    Refuse { member: u8, job: Job },
    /// A member is not sent a job that it was handed: it has expired, or is too long for it. Nobody else is
    /// handed the job (3.3.2.3.3, 3.1.2.11.4).
    Discard { member: u8, job: Job },
    /// A job goes back from a member whose session ended (4.8.2).
    Back { member: u8, job: Job },
    /// A member is handed a job that went back. Such hand-outs are in no order.
    Again { member: u8, job: Job },
    /// The group is closed: nothing is accepted or handed out any more. It may be closed again.
    Close,
}

/// Where an accepted job is.
#[derive(Clone, Copy, Debug, PartialEq, Eq)]
pub enum Spot {
    /// Nobody was handed it.
    Queued,
    /// This member holds it.
    Held(u8),
    /// This member acknowledged it. That is for good.
    Acked(u8),
    /// This member refused it. That is for good.
    Refused(u8),
    /// It was discarded, and this member not sent it. That is for good.
    Discarded(u8),
    /// It went back from a member, and nobody holds it.
    Returned,
}

impl Event {
    /// The job that it names. `Accept` names a new job by its port alone, and `Close` names none.
    pub fn job(self) -> Option<Job>
        ensures { result ≡ named_job self }
    {
        match self {
            Event::Accept { .. } | Event::Close => None,
            Event::First { job, .. }
            | Event::Ack { job, .. }
            | Event::Refuse { job, .. }
            | Event::Discard { job, .. }
            | Event::Back { job, .. }
            | Event::Again { job, .. } => Some(job),
        }
    }

    /// The member that it names; `Accept` and `Close` name none.
    pub fn member(self) -> Option<u8>
        ensures { result ≡ named_member self }
    {
        match self {
            Event::Accept { .. } | Event::Close => None,
            Event::First { member, .. }
            | Event::Ack { member, .. }
            | Event::Refuse { member, .. }
            | Event::Discard { member, .. }
            | Event::Back { member, .. }
            | Event::Again { member, .. } => Some(member),
        }
    }

    /// Whether the port and the member that it names are there.
    pub(crate) fn is_in_range(self) -> bool
        ensures { IsTrue result ↔ IsInRange self }
    {
        match self {
            Event::Accept { port } => port < MOST_PORTS,
            Event::First { member, job }
            | Event::Ack { member, job }
            | Event::Refuse { member, job }
            | Event::Discard { member, job }
            | Event::Back { member, job }
            | Event::Again { member, job } => member < MOST_MEMBERS && job.port < MOST_PORTS,
            Event::Close => true,
        }
    }

    /// Whether it happens only while the group is open.
    pub(crate) fn needs_open(self) -> bool
        ensures { IsTrue result ↔ NeedsOpen self }
    {
        matches!(
            self,
            Event::Accept { .. } | Event::First { .. } | Event::Again { .. }
        )
    }
}
