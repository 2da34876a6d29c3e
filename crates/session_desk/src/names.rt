//! Names for clients without an identifier.
ghost use Rattle.std.specs.Prelude.{◌≡◌, ◌<◌, ◌↔◌, IsTrue, MatchOption};
ghost use Rattle.session_desk.specs.Names.{assigned_name, HasName, IsNextName, NoNameLeft};
ghost use Rattle.session_desk.specs.Layout.{seen};

use crate::row::Row;
use indexmap::IndexMap;

/// One more than the greatest number of a name.
pub(crate) const END: u32 = 100_000_000;

/// `auto-` and a number in eight digits.
pub(crate) fn assigned(number: u32) -> [u8; 13]
    ensures { result ≡ assigned_name number }
{
    let digit = |place: u32| b'0' + (number / place % 10) as u8;
    [
        b'a',
        b'u',
        b't',
        b'o',
        b'-',
        digit(10_000_000),
        digit(1_000_000),
        digit(100_000),
        digit(10_000),
        digit(1_000),
        digit(100),
        digit(10),
        digit(1),
    ]
}

/// Whether some row is of this client.
fn has_name<E, P>(rows: &IndexMap<u64, Row<E, P>>, client: &[u8]) -> bool
    ensures { IsTrue result ↔ HasName (seen rows.now.entries) client.now }
{
    'places: for place in 0..rows.len() {
        match rows.get_index(place) {
            Some((_, row)) => {
                if row.client.as_slice() == client {
                    return true;
                }
            }
            None => unreachable!(),
        }
    }
    false
}

/// The number of the next name that is given.
pub(crate) fn next_name<E, P>(rows: &IndexMap<u64, Row<E, P>>, given: u32) -> Option<u32>
    requires { given < 100000000 }
    ensures { MatchOption result (NoNameLeft (seen rows.now.entries) given)
        (IsNextName (seen rows.now.entries) given) }
{
    'numbers: for number in given + 1..END {
        if !has_name(rows, &assigned(number)) {
            return Some(number);
        }
    }
    None
}
