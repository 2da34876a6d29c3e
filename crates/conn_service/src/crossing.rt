//! Passing the crossing before a write.
ghost use Rattle.std.specs.Prelude.{◌≡◌, ◌<◌, ℕ, false};
ghost use Rattle.conn_service.specs.Crossings.{RefusesAlways};

use transport::Crossing;

/// In how many turns the crossing is asked before it is given up: 10,000.
const TURNS: u32 = 10_000;

/// Whether the crossing lets this worker pass, asked in turns.
pub(crate) fn may_pass<X: Crossing>(crossing: &X, worker: u32) -> bool
    ensures { result ≡ false → RefusesAlways X.refuses crossing.now worker }
{
    'turns: for turn in 0..TURNS {
        if crossing.cross(worker, turn) {
            return true;
        }
    }
    false
}
