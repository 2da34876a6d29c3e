//! Laws: what holds of every transcript, and of every list of calls of a window. Each is the contract
//! of a function that does nothing. They are stated over the definitions that the contracts of
//! [`Window`](crate::Window) cite, so they are about what its methods do.
ghost use Rattle.std.specs.Prelude.{◌≡◌, ◌↔◌, ℕ, false, List, [], ◌++◌};
ghost use Rattle.std.specs.List.{list_any};
ghost use Rattle.member_window.specs.Marks.{Mark, WindowState, held, window_down, window_after_all};
ghost use Rattle.member_window.specs.Transcript.{IsWithinQuota, IsLegal, IsLegalFrom, IsLegalAtEachPrefix};
ghost use Rattle.member_window.specs.Contents.{Contents, new_contents, held_of, IsDown, IsSound};
ghost use Rattle.member_window.specs.Calls.{Call};
ghost use Rattle.member_window.specs.Runs.{MakesAll, transcript_of, window_state, is_take_first};

/// **The window law.** Whatever calls are made of a new window, each where its condition on the
/// caller holds and with the answer that its contract gives, the transcript that they make is legal:
/// at each moment no more is owed than min(Receive Maximum, 256), a fresh PUBLISH packet gets the
/// least free identifier and comes after every resend, a resend has its own identifier and its
/// place in the order of first sending, and only what is held is acknowledged.
///
/// So at each moment, which is the end of some list of calls, no connection has more unacknowledged
/// PUBLISH packets than its Receive Maximum (`within_quota`).
///
/// The conditions leave no `up` and no `ack` after a `take_first`: the window says that its session
/// is ending exactly where a `take_first` is among the calls.
pub fn window_law<T>()
    ensures legal { (calls : List (Call T)) (w : Contents T) →
        MakesAll new_contents calls w → IsLegal [] (transcript_of calls) }
    ensures within_quota { (calls : List (Call T)) (w : Contents T) →
        MakesAll new_contents calls w →
        IsWithinQuota (window_after_all (window_down []) (transcript_of calls)) }
    ensures ending { (calls : List (Call T)) (w : Contents T) →
        MakesAll new_contents calls w → w.retired ≡ list_any is_take_first calls }
{}

/// The window law from any window on, as a session is kept from one connection to the next: what
/// holds of every window goes on to hold, and the transcript that the calls add is legal from where
/// the window stands, and from its entries where no connection is up. Until a `take_first` comes,
/// each call adds its mark and no other: where the transcript leads, the window is.
pub fn window_law_onward<T>()
    ensures first { IsSound (new_contents {T = T}) }
    ensures sound { (old new : Contents T) (calls : List (Call T)) →
        IsSound old → MakesAll old calls new → IsSound new }
    ensures legal { (old new : Contents T) (calls : List (Call T)) →
        IsSound old → old.retired ≡ false → MakesAll old calls new →
        IsLegalFrom (window_state old) (transcript_of calls) }
    ensures legal_from_down { (old new : Contents T) (calls : List (Call T)) →
        IsSound old → old.retired ≡ false → IsDown old → MakesAll old calls new →
        IsLegal (held_of old) (transcript_of calls) }
    ensures window { (old new : Contents T) (calls : List (Call T)) →
        new.retired ≡ false → MakesAll old calls new →
        window_after_all (window_state old) (transcript_of calls) ≡ window_state new }
{}

/// `IsLegal` goes along the marks. It says the same as: at every prefix of the transcript, the whole
/// of it among them, no more is owed than the quota, and the mark after the prefix, where there is
/// one, may come there.
pub fn legality_law<T>()
    ensures { (entries : List (ℕ × T)) (marks : List (Mark T)) →
        IsLegal entries marks ↔ IsLegalAtEachPrefix entries marks }
{}

/// Transcripts one after the other. One that is legal from where another leaves the session goes on
/// from there (`onward`). So does one that is legal from what the other holds in the end, whether or
/// not the connection was ended by a `Down` (`from_held`): it begins with an `Up` of its own before it
/// sends anything.
pub fn continuation_law<T>()
    ensures onward { (s : WindowState T) (before behind : List (Mark T)) →
        IsLegalFrom s before → IsLegalFrom (window_after_all s before) behind →
        IsLegalFrom s (before ++ behind) }
    ensures from_held { (entries : List (ℕ × T)) (before behind : List (Mark T)) →
        IsLegal entries before → IsLegal (held entries before) behind →
        IsLegal entries (before ++ behind) }
{}

/// Calls one after the other: what two lists of calls make, the joined list makes, and its
/// transcript is theirs, one after the other.
pub fn joining_law<T>()
    ensures made { (old mid new : Contents T) (before behind : List (Call T)) →
        MakesAll old before mid → MakesAll mid behind new → MakesAll old (before ++ behind) new }
    ensures transcript { (before behind : List (Call T)) →
        transcript_of (before ++ behind) ≡ transcript_of before ++ transcript_of behind }
{}
