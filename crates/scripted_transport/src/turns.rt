//! The turns of a script.
ghost use Rattle.std.specs.Prelude.{◌≡◌, ◌≢◌, ◌≤◌, ◌<◌, None, length, slice_get, nat_eq, if◌then◌else◌};
ghost use Rattle.scripted_transport.specs.Scripts.{IsWithinBoth, TakesWithinBoth, got_at, next_place, put_at};

use transport::{Got, Put};

/// What a read of a scripted transport does at its turn.
#[derive(Clone, Copy, Debug, PartialEq, Eq)]
pub enum ReadTurn {
    /// It gives so many bytes of what is left, or less where fewer are left or its buffer has less room. It is idle where that
    /// comes to none.
    AtMost(usize),
    /// It is idle.
    Idle,
    /// It says that the stream has ended.
    End,
    /// It fails.
    Failed,
}

/// What a write to a scripted transport does at its turn.
#[derive(Clone, Copy, Debug, PartialEq, Eq)]
pub enum WriteTurn {
    /// It takes so many bytes, or less where it is given fewer or there is less memory. It is idle where that comes to none.
    AtMost(usize),
    /// It is idle.
    Idle,
    /// It fails.
    Failed,
}

/// The turn that comes next, where the script is not over.
pub(crate) fn next_turn<T: Copy>(turns: &[T], made: &mut usize) -> Option<T>
    ensures turn { result ≡ slice_get turns.now made.old }
    ensures made { made.new ≡ next_place turns.now made.old }
    ensures grows { made.old ≤ made.new }
    ensures counted { result ≢ None → made.old < made.new }
{
    let turn = turns.get(*made).copied()?;
    *made += 1;
    Some(turn)
}

/// So many bytes; none is idle.
fn some_bytes(count: usize) -> Got
    ensures { result ≡ (if nat_eq count 0 then Got.Idle else Got.Bytes count) }
{
    if count == 0 {
        Got::Idle
    } else {
        Got::Bytes(count)
    }
}

/// So many bytes; none is idle.
fn some_written(count: usize) -> Put
    ensures { result ≡ (if nat_eq count 0 then Put.Idle else Put.Wrote count) }
{
    if count == 0 {
        Put::Idle
    } else {
        Put::Wrote(count)
    }
}

/// What a read gives at this turn, with so much room in its buffer, and so many bytes left.
pub(crate) fn read_at(turn: Option<ReadTurn>, room: usize, left: usize) -> Got
    requires { 0 < room }
    ensures answer { result ≡ got_at turn room left }
    ensures within { IsWithinBoth result room left }
{
    match turn {
        Some(ReadTurn::AtMost(count)) => some_bytes(count.min(room.min(left))),
        Some(ReadTurn::Idle) => Got::Idle,
        Some(ReadTurn::End) => Got::End,
        Some(ReadTurn::Failed) => Got::Failed,
        None if left == 0 => Got::End,
        None => Got::Bytes(room.min(left)),
    }
}

/// What a write takes at this turn, of so many bytes, with memory for so many.
pub(crate) fn write_at(turn: Option<WriteTurn>, size: usize, room: usize) -> Put
    requires { 0 < size }
    ensures answer { result ≡ put_at turn size room }
    ensures within { TakesWithinBoth result size room }
    ensures idle { result ≡ Put.Idle → turn ≢ None }
{
    match turn {
        Some(WriteTurn::AtMost(count)) => some_written(count.min(size.min(room))),
        Some(WriteTurn::Idle) => Put::Idle,
        Some(WriteTurn::Failed) => Put::Failed,
        None if room == 0 => Put::Failed,
        None => Put::Wrote(size.min(room)),
    }
}
