//! The first hand-outs to one member.
ghost use Rattle.std.specs.Prelude.{◌≡◌, [], ◌∷◌, ◌++◌, OnOk, OnErr};

use crate::event::Job;
use std::alloc::{AllocError, Global};
use std::marker::Model;

/// The jobs whose first hand-out was to this member, in that order. Contracts see it as that list.
#[derive(Debug, Drop)]
pub(crate) struct Member {
    firsts: Vec<Job>,
}

impl Model for Member {
    ghost use Rattle.std.specs.Prelude.{List};
    ghost use Rattle.dispatch_core.specs.declared.event.Job.{Job};

    ghost Value = { List Job };

    ghost view = { λ member. member.firsts.items };
}

impl Member {
    /// A member that was handed nothing.
    pub(crate) fn new(alloc: Global) -> Member
        ensures { result ≡ [] }
    {
        Member {
            firsts: Vec::new(alloc),
        }
    }

    /// Its first hand-outs, in their order.
    pub(crate) fn firsts(&self) -> &[Job]
        ensures { result.now ≡ self.now }
    {
        self.firsts.as_slice()
    }

    /// Notes one more. Nothing has changed where memory is refused.
    pub(crate) fn note(&mut self, job: Job) -> Result<(), AllocError>
        ensures ok { OnOk result (self.new ≡ self.old ++ job ∷ []) }
        ensures err { OnErr result (self.new ≡ self.old) }
    {
        self.firsts.push(job)?;
        Ok(())
    }
}
