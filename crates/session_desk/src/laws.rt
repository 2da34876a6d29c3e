//! Laws: what holds of every list of calls of a desk. Each is the contract of a function that does nothing. They are
//! stated over the definitions that the contracts of [`Desk`](crate::Desk) cite, so they are about what its methods do.
ghost use Rattle.std.specs.Prelude.{◌≡◌, ◌↔◌, ℕ, ◌+◌, ◌<◌, ◌≤◌, nat_lt, if◌then◌else◌, ◌⊎◌, ◌≢◌, List, [], Some, Result, Ok, Err};
ghost use Rattle.std.specs.List.{AllByRecursion};
ghost use Rattle.limits.specs.Limits.{most_connections, most_members};
ghost use Rattle.session_desk.specs.AskedBack.{IsAskedBack};
ghost use Rattle.session_desk.specs.Asking.{IsSameQuestion, HadMemory};
ghost use Rattle.session_desk.specs.Attaching.{Attaches, Request};
ghost use Rattle.session_desk.specs.Books.{Books, IsKicked, new_books};
ghost use Rattle.session_desk.specs.Calls.{Call, Makes, MakesAll};
ghost use Rattle.session_desk.specs.Everywhere.{AllGoIn, ComesOut, GoesIn, IfMember, IsEverywhere};
ghost use Rattle.session_desk.specs.Idle.{IsIdle};
ghost use Rattle.session_desk.specs.Rows.{HasRow, LivesAs};
ghost use Rattle.session_desk.specs.Places.{IsFreeAt, LieInOwnCells, cell_at};
ghost use Rattle.session_desk.specs.Stored.{TakesOut, last_in};
ghost use Rattle.session_desk.specs.declared.attached.Attached.{Attached};
ghost use Rattle.session_desk.specs.declared.error.DeskError.{DeskError};
ghost use Rattle.session_desk.specs.declared.attached.Attached.TheVariants.{New};
ghost use Rattle.session_desk.specs.declared.error.DeskError.TheVariants.{Full, NoName};
ghost use Rattle.session_desk.specs.declared.newcomers.Newcomers.{Newcomers};
ghost use Rattle.session_desk.specs.declared.row.Row.{Row};
ghost use Rattle.session_desk.specs.declared.session.Session.{Session};
ghost use Rattle.session_desk.specs.Hands.{handed_out, handed_in, buried, total, outs, rows_of, living_in, KeepsAtMost, DeskLaw};

use crate::places::Place;
use crate::rule::Rule;

/// **The desk law** is kept by every call, whatever calls are made of a new desk: at most [`MOST_SESSIONS`](limits::MOST_SESSIONS) rows are lent or parked, and twice as many in all, each of a
/// session that was new; no two that are lent or parked are of one client; what a row keeps is its own session; and no parked
/// session's window is of an ending one. A desk that keeps it goes on to keep it.
pub fn desk_law<E, P>()
    ensures kept { (cell : P → ℕ) (calls : List (Call E P)) (b : Books E P) →
        MakesAll cell new_books calls b → DeskLaw b.rows b.made }
    ensures onward { (cell : P → ℕ) (calls : List (Call E P)) (old new : Books E P) →
        DeskLaw old.rows old.made → MakesAll cell old calls new → DeskLaw new.rows new.made }
{}

/// **A desk keeps as many sessions as it is told to**, at most: where each call of a new desk that asks for a session tells it to keep no more than so
/// many, no more rows are lent or parked (`kept`); and so it goes on, call by call (`onward`).
pub fn limit_law<E, P>()
    ensures kept { (cell : P → ℕ) (most : ℕ) (calls : List (Call E P)) (b : Books E P) →
        MakesAll cell new_books calls b → AllByRecursion (KeepsAtMost most) calls → living_in b.rows ≤ most }
    ensures onward { (cell : P → ℕ) (most : ℕ) (call : Call E P) (old new : Books E P) →
        DeskLaw old.rows old.made → Makes cell old call new → KeepsAtMost most call → living_in old.rows ≤ most → living_in new.rows ≤ most }
{}

/// **A session is in one pair of hands.** Whatever calls are made of a new desk:
///
/// - each session that was ever new has one row, or was buried once, and no other has a row or was buried (`once`). The
///   row says in whose hands it is: lent to one connection, parked, ending and kept, or ending and in a caller's;
/// - a session was handed out as often as it was handed in, and once more exactly while its row says that it is lent,
///   or ending and in a caller's hands (`hands`).
pub fn one_pair_of_hands<E, P>()
    ensures once { (cell : P → ℕ) (calls : List (Call E P)) (b : Books E P) →
        MakesAll cell new_books calls b → (number : ℕ) →
        rows_of b.rows number + total (buried number) calls ≡ (if nat_lt number b.made then 1 else 0) }
    ensures hands { (cell : P → ℕ) (calls : List (Call E P)) (b : Books E P) →
        MakesAll cell new_books calls b → (number : ℕ) →
        total (handed_out number) calls ≡ total (handed_in number) calls + outs b.rows number }
{}

/// **What comes out of a row is the very session that went in last**: whatever calls were made of a new desk, a session that
/// the next call resumes, ends for a new one, or hands out to be retired is, in all its parts, the one that was parked or
/// kept last under its number, with the moment at which it was parked.
pub fn very_session<E, P>()
    ensures { (cell : P → ℕ) (calls : List (Call E P)) (b after : Books E P) (next : Call E P) (session : Session E P) →
        MakesAll cell new_books calls b → Makes cell b next after → TakesOut next session →
        last_in session.identity.number calls ≡ Some session }
{}

/// **A connection is kicked exactly where it was asked for a session since one was lent to it**: whatever calls were made of a
/// new desk, one of them answered Replace with this connection as the holder, and none after that lent a session to it.
pub fn kicked_exactly<E, P>()
    ensures { (cell : P → ℕ) (calls : List (Call E P)) (b : Books E P) (connection : ℕ) →
        connection < most_connections → MakesAll cell new_books calls b → IsKicked b connection ↔ IsAskedBack connection calls }
{}

/// **Names run out**: where the name `auto-99999999` was given, a client without an identifier is refused with 704, and nothing
/// changes.
pub fn names_run_out<E, P>()
    ensures { (newcomers : Newcomers) (old new : Books E P) (request : Request) (answer : Result (Attached E P) DeskError) →
        request.client ≡ [] → old.assigned ≡ 99999999 → Attaches newcomers old request answer new →
        (answer ≡ Err NoName) × (new ≡ old) }
{}

/// **Nobody is shut out by its own session, and none that is in use goes for a newcomer's**:
///
/// - a client that has a session at the desk, which is lent or parked, is never refused for want of room, however many there are, and whoever else is taken in
///   (`own`);
/// - a session that ends as another begins is the same client's, or an idle one: it holds nothing, and has no place in a group (`idle`).
pub fn nobody_shut_out<E, P>()
    ensures own { (newcomers : Newcomers) (old new : Books E P) (request : Request) (answer : Result (Attached E P) DeskError) (number : ℕ) (row : Row E P) →
        request.client ≢ [] → HasRow old.rows number row → LivesAs request.client row → Attaches newcomers old request answer new → answer ≢ Err Full }
    ensures idle { (newcomers : Newcomers) (old new : Books E P) (request : Request) (session ended : Session E P) → DeskLaw old.rows old.made →
        Attaches newcomers old request (Ok (New session (Some ended))) new → (ended.identity.client ≡ request.client) ⊎ IsIdle ended }
{}

/// **A desk answers each question in one way**, memory aside: two calls of one desk with the same arguments, neither of which wanted
/// memory, are answered alike and leave the same books. So which session a sweep hands out, which name is given, which place is lent,
/// and whether a session is handed back leaves nothing open.
pub fn one_answer_law<E, P>()
    ensures { (cell : P → ℕ) (old new new' : Books E P) (call other : Call E P) →
        DeskLaw old.rows old.made → IsSameQuestion call other → HadMemory call → HadMemory other →
        Makes cell old call new → Makes cell old other new' → (call ≡ other) × (new ≡ new') }
{}

/// **A free place lies in the cell of its own slot and number**: at a new desk, and after each call where it was so before and a place
/// that is handed in has a number below [`MOST_MEMBERS`](limits::MOST_MEMBERS), as [`Place::number`] says. So two free places of a group have distinct
/// numbers.
pub fn own_cells_law<E, P: Place>()
    ensures kept { (calls : List (Call E P)) (b : Books E P) →
        MakesAll (λ place. cell_at (P.slot_of place) (P.number_of place)) new_books calls b →
        AllGoIn (λ session. IfMember (λ place. P.number_of place < most_members) session.membership) (λ place. P.number_of place < most_members) calls → LieInOwnCells P.slot_of P.number_of b.free }
    ensures onward { (call : Call E P) (old new : Books E P) →
        Makes (λ place. cell_at (P.slot_of place) (P.number_of place)) old call new →
        GoesIn (λ session. IfMember (λ place. P.number_of place < most_members) session.membership) (λ place. P.number_of place < most_members) call →
        LieInOwnCells P.slot_of P.number_of old.free → LieInOwnCells P.slot_of P.number_of new.free }
    ensures apart { (b : Books E P) → LieInOwnCells P.slot_of P.number_of b.free → (cell other : ℕ) (place another : P) →
        IsFreeAt b.free cell place → IsFreeAt b.free other another → P.slot_of place ≡ P.slot_of another →
        P.number_of place ≡ P.number_of another → cell ≡ other }
{}

/// **What holds of all that goes into a desk holds of all that it has and of all that comes out of it**, call by call, whatever was
/// called before. It is so at a new desk; and where it was so, and holds of what a call hands in, it is so after the call, and holds of
/// what the call hands out: a session that is new, resumed, ended or swept, a place that is lent, and what is handed back. So who shares a desk behind a lock knows what comes out of it by what holds there whenever the lock is taken.
pub fn everywhere_law<E, P, R: Rule<E, P>>()
    ensures first { IsEverywhere R.holds R.fits new_books }
    ensures onward { (cell : P → ℕ) (call : Call E P) (old new : Books E P) → Makes cell old call new →
        IsEverywhere R.holds R.fits old → GoesIn R.holds R.fits call → IsEverywhere R.holds R.fits new }
    ensures out { (cell : P → ℕ) (call : Call E P) (old new : Books E P) → Makes cell old call new →
        IsEverywhere R.holds R.fits old → GoesIn R.holds R.fits call → ComesOut R.holds R.fits call }
{}
