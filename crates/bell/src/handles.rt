//! What a thread holds of a bell: a worker's listener, or what somebody rings with.
use crate::word::Pass;
use std::marker::Model;

/// One of the workers that listen to a bell. It may go to another thread: it is `Send`, and not `Sync`.
///
/// Contracts see it as an `ListenerState`: the bell that it is of, its number, and the history up to its own last step.
#[derive(Drop)]
pub struct Listener {
    pub(crate) pass: Pass,
    pub(crate) worker: usize,
    // How often the bell rang until its last step, counted from 0 again at 2^32.
    pub(crate) heard: u64,
}

impl Model for Listener {
    ghost use Rattle.std.specs.Prelude.{◌≡◌, ◌<◌, ◌%◌, []};
    ghost use Rattle.bell.specs.Handles.{ListenerState, turn};
    ghost use Rattle.bell.specs.History.{rings};

    ghost Value = { ListenerState };

    ghost view = { λ l. record { bell = l.pass.table_id; worker = l.worker; history = l.pass.me.0.history } };

    ghost invariant = { λ l. (l.pass.me.1 ≡ []) × (l.worker < 32) × (l.heard ≡ rings l.pass.me.0.history % turn) };
}

/// Who rings a bell. It may go to another thread: it is `Send`, and not `Sync`.
///
/// Contracts see it as a `RingerState`: the bell that it is of, and the history up to its own last step.
#[derive(Drop)]
pub struct Ringer {
    pub(crate) pass: Pass,
}

impl Model for Ringer {
    ghost use Rattle.std.specs.Prelude.{◌≡◌, []};
    ghost use Rattle.bell.specs.Handles.{RingerState};

    ghost Value = { RingerState };

    ghost view = { λ r. record { bell = r.pass.table_id; history = r.pass.me.0.history } };

    ghost invariant = { λ r. r.pass.me.1 ≡ [] };
}
