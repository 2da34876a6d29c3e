//! What can be told of a connection without a step.
ghost use Rattle.std.specs.Prelude.{◌≡◌, ◌<◌, ◌≤◌, ◌^◌, ◌↔◌, ℕ, MatchOption};
ghost use Rattle.conn_engine.specs.Looking.{IsSilentTooLong, TakesAt, held_by};

use crate::phase::ConnPhase;
use conn_rules::{CONNECT_TIMEOUT, longest_silence};
use session_desk::{Membership, Place};

impl<P> ConnPhase<P> {
    /// The moment from which a Tick ends the connection for silence; `None` where there is none below 2^64.
    pub(crate) fn deadline(&self) -> Option<u64>
        ensures { MatchOption result
            ((now : ℕ) → now < 2 ^ 64 → ¬ IsSilentTooLong self.now now)
            (λ deadline. (now : ℕ) → IsSilentTooLong self.now now ↔ deadline ≤ now) }
    {
        match self {
            ConnPhase::Unconnected { opened } => opened.at.checked_add(CONNECT_TIMEOUT),
            ConnPhase::Waiting { .. } => None,
            ConnPhase::Connected(connected) => match longest_silence(connected.terms.keep_alive) {
                Some(longest) => connected.heard.checked_add(longest),
                None => None,
            },
            ConnPhase::Ended => None,
        }
    }
}

impl<P> ConnPhase<P> {
    /// The identifier of the client, where it is connected.
    pub(crate) fn client_identifier(&self) -> Option<&[u8]> {
        match self {
            ConnPhase::Connected(connected) => Some(connected.session.identity.client().as_slice()),
            ConnPhase::Unconnected { .. } => None,
            ConnPhase::Waiting { .. } => None,
            ConnPhase::Ended => None,
        }
    }
}

impl<P: Place> ConnPhase<P> {
    /// How many messages the client has not acknowledged.
    pub(crate) fn held(&self) -> usize
        ensures { result ≡ held_by self.now }
    {
        match self {
            ConnPhase::Connected(connected) => connected.session.window.len(),
            ConnPhase::Unconnected { .. } => 0,
            ConnPhase::Waiting { .. } => 0,
            ConnPhase::Ended => 0,
        }
    }

    /// The slot of the group that the client would be handed a message of now.
    pub(crate) fn takes_from(&self) -> Option<u8>
        ensures { MatchOption result
            ((place : P) → ¬ TakesAt self.now place)
            (λ slot. (place : P) × TakesAt self.now place × (P.slot_of place ≡ slot)) }
    {
        let ConnPhase::Connected(connected) = self else {
            return None;
        };
        let Membership::Member(place) = &connected.session.membership else {
            return None;
        };
        if connected.session.window.room() {
            Some(place.slot())
        } else {
            None
        }
    }
}
