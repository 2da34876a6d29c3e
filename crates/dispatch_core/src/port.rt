//! The jobs of one port.
ghost use Rattle.std.specs.Prelude.{◌≡◌, ◌≢◌, ◌<◌, [], ◌∷◌, ◌++◌, length, Some, OnOk, OnErr, slice_get, slice_set};
ghost use Rattle.dispatch_core.specs.Rows.{IsOldest, IsOldestUnless};

use crate::error::Why;
use crate::event::Spot;
use std::alloc::{AllocError, Global};
use std::marker::Model;

/// Where each job of a port is, by its number. Contracts see it as that list.
#[derive(Debug, Drop)]
pub(crate) struct Port {
    spots: Vec<Spot>,
    // How many were handed out. Hand-outs go in order, so these stand first, and the queued ones after.
    handed_out: usize,
}

impl Model for Port {
    ghost use Rattle.std.specs.Prelude.{List};
    ghost use Rattle.dispatch_core.specs.declared.event.Spot.{Spot};
    ghost use Rattle.dispatch_core.specs.Rows.{IsQueuedFrom};

    ghost Value = { List Spot };

    ghost view = { λ port. port.spots.items };

    ghost invariant = { λ port. IsQueuedFrom port.spots.items port.handed_out };
}

impl Port {
    /// A port that accepted nothing.
    pub(crate) fn new(alloc: Global) -> Port
        ensures { result ≡ [] }
    {
        Port {
            spots: Vec::new(alloc),
            handed_out: 0,
        }
    }

    /// How many jobs it accepted.
    pub(crate) fn len(&self) -> u64
        ensures { result ≡ length self.now }
    {
        self.spots.len() as u64
    }

    /// Where the job with this number is; `None` where no job has it.
    pub(crate) fn get(&self, number: u64) -> Option<Spot>
        ensures { result ≡ slice_get self.now number }
    {
        self.spots.get(number as usize).copied()
    }

    /// Accepts the next job. Nothing has changed where memory is refused.
    pub(crate) fn accept(&mut self) -> Result<(), AllocError>
        ensures ok { OnOk result (self.new ≡ self.old ++ Spot.Queued ∷ []) }
        ensures err { OnErr result (self.new ≡ self.old) }
    {
        self.spots.push(Spot::Queued)?;
        Ok(())
    }

    /// Whether the job with this number is the oldest that is queued.
    ///
    /// # Errors
    ///
    /// `NotQueued` where it is not queued, `NotOldest` where an older one is.
    pub(crate) fn check_oldest(&self, number: u64) -> Result<(), Why>
        ensures { IsOldestUnless self.now number result }
    {
        match self.get(number) {
            Some(Spot::Queued) if number as usize == self.handed_out => Ok(()),
            Some(Spot::Queued) => Err(Why::NotOldest),
            _ => Err(Why::NotQueued),
        }
    }

    /// Hands the oldest queued job out to this member.
    pub(crate) fn hand_out(&mut self, number: u64, member: u8)
        requires { IsOldest self.old number }
        ensures { self.new ≡ slice_set self.old number (Spot.Held member) }
    {
        self.spots[number as usize] = Spot::Held(member);
        self.handed_out += 1;
    }

    /// Moves a job that was handed out to another such spot.
    pub(crate) fn put(&mut self, number: u64, spot: Spot)
        requires there { number < length self.old }
        requires was { slice_get self.old number ≢ Some Spot.Queued }
        requires is { spot ≢ Spot.Queued }
        ensures { self.new ≡ slice_set self.old number spot }
    {
        self.spots[number as usize] = spot;
    }
}
