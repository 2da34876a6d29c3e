//! Laws: what is done to a client is a list of calls of the supply, whatever comes of it. Each is the contract of a function that does
//! nothing, stated over the definitions that the contracts of [`Client`](crate::Client) and [`ClientTable`](crate::ClientTable) cite, and
//! over every [`Supply`]. So what holds of a supply whatever calls are made of it holds after each of their calls.
ghost use Rattle.std.specs.Prelude.{◌≡◌, ◌≤◌, ℕ, List, [], ◌∷◌, Option, Result, Ok};
ghost use Rattle.conn_supply.specs.declared.supply.NoMemory.{NoMemory};
ghost use Rattle.conn_engine.specs.declared.input.Input.{Input};
ghost use Rattle.conn_engine.specs.declared.phase.Opening.{Opening};
ghost use Rattle.conn_laws.specs.Asking.{OneAnswer};
ghost use Rattle.conn_laws.specs.Behind.{IsLast};
ghost use Rattle.conn_laws.specs.Calls.{CallsLead};
ghost use Rattle.conn_laws.specs.Publishers.{CallsFrom};
ghost use Rattle.conn_laws.specs.ReturnedFirst.{CallsReturnedFirst};
ghost use Rattle.client_table.specs.Cells.{Opens, Receives, TicksFor, EndsFor, AbandonsEach};
ghost use Rattle.client_table.specs.Clients.{ClientState, StepOutput, ClientSteps, IsGivenUp};
ghost use Rattle.client_table.specs.Deliveries.{Delivers};
ghost use Rattle.client_table.specs.Numbers.{IsNumbered};
ghost use Rattle.client_table.specs.Quotas.{IsCellWithinLimit, IsCellWithinQuota};
ghost use Rattle.client_table.specs.Streams.{Reads, FailsToRead, Ticks, FailsToTick};

use conn_supply::{HoldingPlace, Supply};

/// **What a client does is a list of calls**: reading its stream, a Tick, a last step, and giving it up, with memory and without. Where
/// memory is not wanted, what these calls hand out is what the client is told for the first time, but for what is discarded.
pub fn calls_law<P: HoldingPlace, S: Supply<P>>()
    ensures reads { (now : ℕ) (outputs : List StepOutput) (client after : ClientState P) (old new : S) →
        Reads S.call P.slot_of old client now outputs after new → Delivers S.call old outputs new }
    ensures fails_to_read { (now : ℕ) (outputs : List StepOutput) (client after : ClientState P) (old new : S) →
        FailsToRead S.call P.slot_of old client now outputs after new → CallsLead S.call old new }
    ensures ticks { (now : ℕ) (outputs : List StepOutput) (client after : ClientState P) (old new : S) →
        Ticks S.call P.slot_of old client now outputs after new → Delivers S.call old outputs new }
    ensures fails_to_tick { (now : ℕ) (outputs : List StepOutput) (client after : ClientState P) (old new : S) →
        FailsToTick S.call P.slot_of old client now outputs after new → CallsLead S.call old new }
    ensures moves { (now : ℕ) (input : Input) (output : StepOutput) (client after : ClientState P) (old new : S) →
        ClientSteps S.call P.slot_of old client now input output after new → Delivers S.call old (output ∷ []) new }
    ensures given_up { (now : ℕ) (input : Input) (client after : ClientState P) (old new : S) →
        IsGivenUp S.call P.slot_of old client now input after new → CallsLead S.call old new }
{}

/// **What a table does is a list of calls**: whatever happens to the client in a cell, and where all are let go.
pub fn table_calls_law<P: HoldingPlace, S: Supply<P>>()
    ensures receives { (now : ℕ) (piece : List ℕ) (more : List StepOutput) (result : Result (Unit {0}) NoMemory) (before after : Option (ClientState P)) (old new : S) →
        Receives S.call P.slot_of old before now piece more result after new → CallsLead S.call old new }
    ensures ticks { (now : ℕ) (more : List StepOutput) (result : Result (Unit {0}) NoMemory) (before after : Option (ClientState P)) (old new : S) →
        TicksFor S.call P.slot_of old before now more result after new → CallsLead S.call old new }
    ensures ends { (now : ℕ) (input : Input) (more : List StepOutput) (result : Result (Unit {0}) NoMemory) (before after : Option (ClientState P)) (old new : S) →
        EndsFor S.call P.slot_of old before now input more result after new → CallsLead S.call old new }
    ensures abandons { (now : ℕ) (cells : List (Option (ClientState P))) (old new : S) →
        AbandonsEach S.call P.slot_of old cells now new → CallsLead S.call old new }
{}

/// **What is handed out for the client in a cell is what it is told**, where no allocation fails: each message that a place is handed goes out at
/// once in a PUBLISH of its own, in their order, unless it is discarded, and no other message goes out for the first time.
pub fn hand_out_law<P: HoldingPlace, S: Supply<P>>()
    ensures receives { (now : ℕ) (piece : List ℕ) (more : List StepOutput) (before after : Option (ClientState P)) (old new : S) →
        Receives S.call P.slot_of old before now piece more (Ok tt) after new → Delivers S.call old more new }
    ensures ticks { (now : ℕ) (more : List StepOutput) (before after : Option (ClientState P)) (old new : S) →
        TicksFor S.call P.slot_of old before now more (Ok tt) after new → Delivers S.call old more new }
    ensures ends { (now : ℕ) (input : Input) (more : List StepOutput) (before after : Option (ClientState P)) (old new : S) →
        EndsFor S.call P.slot_of old before now input more (Ok tt) after new → Delivers S.call old more new }
{}

/// **A client publishes as its connection**, whatever happens to the client in a cell, with memory and without: whatever is offered for it to a group
/// is offered from the number of its connection.
pub fn publisher_law<P: HoldingPlace, S: Supply<P>>()
    ensures receives { (number now : ℕ) (piece : List ℕ) (more : List StepOutput) (result : Result (Unit {0}) NoMemory) (before after : Option (ClientState P)) (old new : S) →
        IsNumbered number before → Receives S.call P.slot_of old before now piece more result after new → CallsFrom S.call number old new }
    ensures ticks { (number now : ℕ) (more : List StepOutput) (result : Result (Unit {0}) NoMemory) (before after : Option (ClientState P)) (old new : S) →
        IsNumbered number before → TicksFor S.call P.slot_of old before now more result after new → CallsFrom S.call number old new }
    ensures ends { (number now : ℕ) (input : Input) (more : List StepOutput) (result : Result (Unit {0}) NoMemory) (before after : Option (ClientState P)) (old new : S) →
        IsNumbered number before → EndsFor S.call P.slot_of old before now input more result after new → CallsFrom S.call number old new }
{}

/// **What was given back is handed out first**, whatever happens to the client in a cell, with memory and without: a place is handed a message of
/// the queue only directly after a call that asked for one that was given back, and found none.
pub fn returned_first_law<P: HoldingPlace, S: Supply<P>>()
    ensures receives { (now : ℕ) (piece : List ℕ) (more : List StepOutput) (result : Result (Unit {0}) NoMemory) (before after : Option (ClientState P)) (old new : S) →
        Receives S.call P.slot_of old before now piece more result after new → CallsReturnedFirst S.call old new }
    ensures ticks { (now : ℕ) (more : List StepOutput) (result : Result (Unit {0}) NoMemory) (before after : Option (ClientState P)) (old new : S) →
        TicksFor S.call P.slot_of old before now more result after new → CallsReturnedFirst S.call old new }
    ensures ends { (now : ℕ) (input : Input) (more : List StepOutput) (result : Result (Unit {0}) NoMemory) (before after : Option (ClientState P)) (old new : S) →
        EndsFor S.call P.slot_of old before now input more result after new → CallsReturnedFirst S.call old new }
{}

/// **The quota is kept** (section 4.9), whatever happens to the client in a cell, with memory and without: of the PUBLISH packets that it was
/// sent on its connection, those that wait for their PUBACK are never more than the Receive Maximum that its terms have, and never more than 256. And
/// this Receive Maximum is never more than the limit that the connection was opened with (`opens_limited` .., profile).
pub fn quota_law<P: HoldingPlace, S: Supply<P>>()
    ensures opens { (number : ℕ) (opening : Opening) (before after : Option (ClientState P)) →
        Opens number opening before after → IsCellWithinQuota before → IsCellWithinQuota after }
    ensures receives { (now : ℕ) (piece : List ℕ) (more : List StepOutput) (result : Result (Unit {0}) NoMemory) (before after : Option (ClientState P)) (old new : S) →
        Receives S.call P.slot_of old before now piece more result after new → IsCellWithinQuota before → IsCellWithinQuota after }
    ensures ticks { (now : ℕ) (more : List StepOutput) (result : Result (Unit {0}) NoMemory) (before after : Option (ClientState P)) (old new : S) →
        TicksFor S.call P.slot_of old before now more result after new → IsCellWithinQuota before → IsCellWithinQuota after }
    ensures ends { (now : ℕ) (input : Input) (more : List StepOutput) (result : Result (Unit {0}) NoMemory) (before after : Option (ClientState P)) (old new : S) →
        EndsFor S.call P.slot_of old before now input more result after new → IsCellWithinQuota before → IsCellWithinQuota after }
    ensures opens_limited { (limit number : ℕ) (opening : Opening) (before after : Option (ClientState P)) →
        Opens number opening before after → opening.limits.max_inflight ≤ limit → IsCellWithinLimit limit before → IsCellWithinLimit limit after }
    ensures receives_limited { (limit now : ℕ) (piece : List ℕ) (more : List StepOutput) (result : Result (Unit {0}) NoMemory) (before after : Option (ClientState P)) (old new : S) →
        Receives S.call P.slot_of old before now piece more result after new → IsCellWithinLimit limit before → IsCellWithinLimit limit after }
    ensures ticks_limited { (limit now : ℕ) (more : List StepOutput) (result : Result (Unit {0}) NoMemory) (before after : Option (ClientState P)) (old new : S) →
        TicksFor S.call P.slot_of old before now more result after new → IsCellWithinLimit limit before → IsCellWithinLimit limit after }
    ensures ends_limited { (limit now : ℕ) (input : Input) (more : List StepOutput) (result : Result (Unit {0}) NoMemory) (before after : Option (ClientState P)) (old new : S) →
        EndsFor S.call P.slot_of old before now input more result after new → IsCellWithinLimit limit before → IsCellWithinLimit limit after }
{}

/// **What happens to a client comes out in one way** where each call of the supply has one answer and memory is not wanted: the same is
/// said, the same becomes of the cell, and of the supply.
pub fn one_outcome_law<P: HoldingPlace, S: Supply<P>>()
    ensures receives { (now : ℕ) (piece : List ℕ) (more more' : List StepOutput) (before one other : Option (ClientState P)) (old new new' : S) →
        OneAnswer S.call (λ these those. these ≡ those) →
        Receives S.call P.slot_of old before now piece more (Ok tt) one new → Receives S.call P.slot_of old before now piece more' (Ok tt) other new' →
        (one ≡ other) × ((more ≡ more') × (new ≡ new')) }
    ensures ticks { (now : ℕ) (more more' : List StepOutput) (before one other : Option (ClientState P)) (old new new' : S) →
        OneAnswer S.call (λ these those. these ≡ those) →
        TicksFor S.call P.slot_of old before now more (Ok tt) one new → TicksFor S.call P.slot_of old before now more' (Ok tt) other new' →
        (one ≡ other) × ((more ≡ more') × (new ≡ new')) }
    ensures ends { (now : ℕ) (input : Input) (more more' : List StepOutput) (before one other : Option (ClientState P)) (old new new' : S) →
        OneAnswer S.call (λ these those. these ≡ those) → IsLast input →
        EndsFor S.call P.slot_of old before now input more (Ok tt) one new → EndsFor S.call P.slot_of old before now input more' (Ok tt) other new' →
        (one ≡ other) × ((more ≡ more') × (new ≡ new')) }
{}
