//! The crossing of a broker that is not under test.
ghost use Rattle.std.specs.Prelude.{◌≡◌, true, false};

use crate::traits::Crossing;

/// A crossing that lets every worker pass: it refuses nobody.
#[derive(Clone, Copy, Debug, PartialEq, Eq)]
pub struct OpenCrossing;

impl Crossing for OpenCrossing {
    ghost refuses = { λ _ _ _. ⊥ };

    fn cross(&self, _worker: u32, _turn: u32) -> bool
        ensures passes { result ≡ true }
        ensures refused { result ≡ false → ⊥ }
    {
        true
    }
}
