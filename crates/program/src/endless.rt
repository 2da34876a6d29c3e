//! A reader that never answers.
ghost use Rattle.std.specs.Prelude.{◌∷◌, [], Some};

use std::io::Read;
use std::rt::Clock;
use std::sync::Wait;
use std::time::Duration;
use std::{io, thread};

/// For how many seconds a read sleeps, again and again.
const PAUSE: u64 = 3_600;

/// An input in which a byte is left that never comes: a read of it waits for ever.
#[derive(Drop)]
pub(crate) struct Endless<'a, H> {
    /// What it waits with.
    pub(crate) rt: &'a H,
}

impl<'a, H: Wait + Clock> Read for Endless<'a, H> {
    ghost remaining = { λ _. Some (0 ∷ []) };

    fn read(&mut self, _buf: &mut [u8]) -> io::Result<usize> {
        for _ in self.rt.forever() {
            thread::sleep(self.rt, Duration::from_secs(PAUSE));
        }
        unreachable!()
    }
}
