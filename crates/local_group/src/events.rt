//! One event after another: the state does it, and the list notes it.
ghost use Rattle.std.specs.Prelude.{◌≡◌, ◌≤◌, ◌<◌, ◌+◌, ◌++◌, [], ◌∷◌, OnOk, OnErr, vec_len, vec_capacity};
ghost use Rattle.dispatch_core.specs.Step.{Step, MayHappen};
ghost use Rattle.dispatch_core.specs.Reasons.{TakesMemory};

use dispatch_core::{Event, State, StepError};
use std::alloc::AllocError;

/// Makes room for an event, one that ends it, one that ends each of the hand-outs that are out, and the close.
pub(crate) fn make_room(events: &mut Vec<Event>, out: usize) -> Result<(), AllocError>
    ensures ok { OnOk result (vec_len events.new + out + 3 ≤ vec_capacity events.new) }
    ensures items { events.new.items ≡ events.old.items }
    ensures len { vec_len events.new ≡ vec_len events.old }
    ensures capacity { vec_capacity events.old ≤ vec_capacity events.new }
{
    match out.checked_add(3) {
        Some(room) => events.reserve(room),
        None => Err(AllocError),
    }
}

/// Does an event that may happen, and notes it. Nothing has changed where memory is refused.
pub(crate) fn advance(
    state: &mut State,
    events: &mut Vec<Event>,
    event: Event,
) -> Result<(), AllocError>
    requires may { MayHappen state.old event }
    requires room { vec_len events.old < vec_capacity events.old }
    ensures ok { OnOk result (Step state.old event state.new) }
    ensures noted { OnOk result (events.new.items ≡ events.old.items ++ event ∷ []) }
    ensures longer { OnOk result (vec_len events.new ≡ vec_len events.old + 1) }
    ensures err { OnErr result (state.new ≡ state.old) }
    ensures unnoted { OnErr result (events.new ≡ events.old) }
    ensures takes { OnErr result (TakesMemory event) }
    ensures capacity { vec_capacity events.new ≡ vec_capacity events.old }
{
    match state.step(event) {
        Ok(()) => {
            events.push_reserved(event);
            Ok(())
        }
        Err(StepError::Memory) => Err(AllocError),
        Err(StepError::Stuck { .. }) => unreachable!(),
    }
}

/// Does an event that may happen, and notes it, with room for what ends it and all that is out, and for the close. Nothing
/// has changed where memory is refused.
pub(crate) fn note(
    state: &mut State,
    events: &mut Vec<Event>,
    out: usize,
    event: Event,
) -> Result<(), AllocError>
    requires { MayHappen state.old event }
    ensures ok { OnOk result (Step state.old event state.new) }
    ensures noted { OnOk result (events.new.items ≡ events.old.items ++ event ∷ []) }
    ensures room { OnOk result (vec_len events.new + out + 2 ≤ vec_capacity events.new) }
    ensures err { OnErr result (state.new ≡ state.old) }
    ensures unnoted { OnErr result (events.new.items ≡ events.old.items) }
    ensures as_long { OnErr result (vec_len events.new ≡ vec_len events.old) }
    ensures capacity { vec_capacity events.old ≤ vec_capacity events.new }
{
    make_room(events, out)?;
    advance(state, events, event)
}

/// Does an event that may happen and takes no memory, and notes it.
pub(crate) fn conclude(state: &mut State, events: &mut Vec<Event>, event: Event)
    requires may { MayHappen state.old event }
    requires room { vec_len events.old < vec_capacity events.old }
    requires none { ¬ TakesMemory event }
    ensures step { Step state.old event state.new }
    ensures noted { events.new.items ≡ events.old.items ++ event ∷ [] }
    ensures longer { vec_len events.new ≡ vec_len events.old + 1 }
    ensures capacity { vec_capacity events.new ≡ vec_capacity events.old }
{
    match advance(state, events, event) {
        Ok(()) => (),
        Err(_) => unreachable!(),
    }
}
