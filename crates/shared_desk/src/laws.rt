//! Laws of a history: what holds of all calls that a thread knows of, whoever made them. Each is the contract of a function that does nothing, over the definitions
//! that the contracts of [`SharedDesk`](crate::SharedDesk) cite.
ghost use Rattle.std.specs.Prelude.{◌≡◌, ℕ, ◌+◌, ◌<◌, ◌≤◌, true, List, [], ◌∷◌, ◌++◌, Some, Result, IfOk};
ghost use Rattle.limits.specs.Limits.{most_connections};
ghost use mathlib.Core.List.{IsPrefix};
ghost use Rattle.group_jobs.specs.Stamps.{Held};
ghost use Rattle.session_desk.specs.AskedBack.{IsAskedBack};
ghost use Rattle.session_desk.specs.Attaching.{Request};
ghost use Rattle.session_desk.specs.Calls.{Call, Attach, Kicked, LendPlace};
ghost use Rattle.session_desk.specs.Hands.{handed_in, handed_out, total};
ghost use Rattle.session_desk.specs.Places.{cell_at};
ghost use Rattle.session_desk.specs.Stored.{TakesOut, last_in};
ghost use Rattle.session_desk.specs.declared.attached.Attached.{Attached};
ghost use Rattle.session_desk.specs.declared.newcomers.Newcomers.{Newcomers};
ghost use Rattle.session_desk.specs.declared.error.DeskError.{DeskError};
ghost use Rattle.session_desk.specs.declared.session.Session.{Session};
ghost use Rattle.conn_supply.specs.Ready.{IsReady};
ghost use Rattle.call_history.specs.Callers.{CallerState};
ghost use Rattle.shared_desk.specs.Books.{IsMade};
ghost use Rattle.shared_desk.specs.FreePlaces.{last_change};
ghost use Rattle.shared_desk.specs.Histories.{IsHistory, AddsCall};
ghost use Rattle.shared_desk.specs.Holders.{IsHolder};

use conn_supply::HoldingPlace;

/// **A beginning of a history is one**, and each call in it was made of a lawful desk, which was lawful after it (`made`, `told`). So no session that is handed to a
/// connection is ending, and what it holds is out at its place (`ready`).
pub fn histories<P: HoldingPlace>()
    ensures begins { (calls more : List (Call Held P)) → IsHistory P.has_out P.slot_of P.number_of (calls ++ more) → IsHistory P.has_out P.slot_of P.number_of calls }
    ensures made { (before after : List (Call Held P)) (call : Call Held P) →
        IsHistory P.has_out P.slot_of P.number_of (before ++ call ∷ after) → IsMade P.has_out P.slot_of P.number_of call }
    ensures told { (old new : CallerState (Call Held P)) (call : Call Held P) →
        AddsCall P.has_out P.slot_of P.number_of old call new → IsMade P.has_out P.slot_of P.number_of call × IsPrefix old.calls new.calls }
    ensures ready { (newcomers : Newcomers) (old new : CallerState (Call Held P)) (request : Request) (answer : Result (Attached Held P) DeskError) →
        AddsCall P.has_out P.slot_of P.number_of old (Attach newcomers request answer) new → IfOk answer (IsReady P.has_out) }
{}

/// **A session is in one pair of hands**, whichever threads call. It was handed out as often as it was handed in, or once more (`hands`). Between a call that
/// hands it out, and did not take it in itself, and another that hands it out, it was handed in (`between`).
pub fn one_pair_of_hands<P: HoldingPlace>()
    ensures hands { (calls : List (Call Held P)) (number : ℕ) → IsHistory P.has_out P.slot_of P.number_of calls →
        (total (handed_in number) calls ≤ total (handed_out number) calls) × (total (handed_out number) calls ≤ total (handed_in number) calls + 1) }
    ensures between { (before within after : List (Call Held P)) (one other : Call Held P) (number : ℕ) →
        IsHistory P.has_out P.slot_of P.number_of (before ++ one ∷ (within ++ other ∷ after)) →
        handed_in number one ≡ 0 → 0 < handed_out number one → 0 < handed_out number other →
        0 < total (handed_in number) (within ++ other ∷ []) }
{}

/// **A session is lent to one connection at a time**, whichever threads call: where it was lent to two, and handed in since neither loan, both are one connection.
pub fn one_holder<P: HoldingPlace>()
    ensures { (calls : List (Call Held P)) (number one other : ℕ) → IsHistory P.has_out P.slot_of P.number_of calls →
        IsHolder calls number one → IsHolder calls number other → one ≡ other }
{}

/// **What comes out is the very session that went in last**, whichever threads call: a session that is resumed, ends for a new one, or is handed out to be retired is, in
/// all its parts, the one that was parked or kept last under its number.
pub fn very_session<P: HoldingPlace>()
    ensures { (before after : List (Call Held P)) (next : Call Held P) (session : Session Held P) →
        IsHistory P.has_out P.slot_of P.number_of (before ++ next ∷ after) → TakesOut next session →
        last_in session.identity.number before ≡ Some session }
{}

/// **What is lent is the very place that was put into its cell last**, whichever threads call, and that nobody was lent since: a place that is lent is, in all its parts, the one
/// that was taken in, or whose session was buried, and what was done last with the cell of its slot and number is that it was put there (`very`). So between two loans of a place, it
/// was put back (`between`).
pub fn very_place<P: HoldingPlace>()
    ensures very { (before after : List (Call Held P)) (slot : ℕ) (place : P) →
        IsHistory P.has_out P.slot_of P.number_of (before ++ LendPlace slot (Some place) ∷ after) →
        last_change (λ other. cell_at (P.slot_of other) (P.number_of other)) (cell_at (P.slot_of place) (P.number_of place)) before ≡ Some (Some place) }
    ensures between { (before within after : List (Call Held P)) (slot its_slot : ℕ) (one other : P) →
        IsHistory P.has_out P.slot_of P.number_of (before ++ LendPlace slot (Some one) ∷ (within ++ LendPlace its_slot (Some other) ∷ after)) →
        cell_at (P.slot_of one) (P.number_of one) ≡ cell_at (P.slot_of other) (P.number_of other) →
        last_change (λ place. cell_at (P.slot_of place) (P.number_of place)) (cell_at (P.slot_of other) (P.number_of other)) within ≡ Some (Some other) }
{}

/// **Who is kicked was asked**, whichever threads call: one of the calls before answered Replace with this connection as the holder, and none after that lent a
/// session to it.
pub fn kicked_was_asked<P: HoldingPlace>()
    ensures { (before after : List (Call Held P)) (connection : ℕ) → connection < most_connections →
        IsHistory P.has_out P.slot_of P.number_of (before ++ Kicked connection true ∷ after) → IsAskedBack connection before }
{}
