//! A list of events, followed from a group's beginning.
ghost use Rattle.std.specs.Prelude.{IfOk, IfErr};
ghost use Rattle.dispatch_core.specs.History.{IsRun, Fails};

use crate::error::ReplayError;
use crate::event::Event;
use crate::state::State;
use std::alloc::Global;

/// **The replay law.** Follows the events from an empty group on, and gives the state that they lead
/// to. It succeeds exactly on runs: a refusal names the first event that no step allows, and why.
///
/// # Errors
///
/// 301 [`ReplayError::Stuck`] with the place of the first event that may not happen, and the first
/// reason that holds. 302 [`ReplayError::Memory`] with the place of the event to which memory was refused:
/// it may happen, and the events before it are a run. 302 [`ReplayError::NoState`] where there is no
/// memory for the empty group.
pub fn replay(alloc: Global, events: &[Event]) -> Result<State, ReplayError>
    ensures run { IfOk result (IsRun events.now) }
    ensures stuck { IfErr result (Fails events.now) }
{
    let mut state = State::new(alloc)?;
    for (at, event) in events.iter().enumerate() {
        if let Err(refusal) = state.step(*event) {
            return Err(refusal.at(at));
        }
    }
    Ok(state)
}
