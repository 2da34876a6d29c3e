//! Names of users.
ghost use Rattle.std.specs.Prelude.{◌≡◌};
ghost use Rattle.std.specs.List.{list_all};
ghost use Rattle.users.specs.Cuts.{begins_blank};
ghost use Rattle.users.specs.Lines.{begins_comment, is_name_byte, is_user_name};

use crate::cutting::begins_blank;

/// The longest name of a user, in bytes.
const LONGEST_NAME: usize = 128;

/// Whether the bytes are a name of a user: 1 to 128 of them, none of them `:` or a control character (below 20 or 7F, in hex), and the first one no
/// `#` and no space, so that a line of a users file can spell it.
#[tactic(auto, unfolding(crate::specs::Lines::is_user_name))]
pub fn is_user_name(name: &[u8]) -> bool
    ensures { result ≡ is_user_name name.now }
{
    !name.is_empty()
        && name.len() <= LONGEST_NAME
        && !begins_comment(name)
        && !begins_blank(name)
        && are_name_bytes(name)
}

/// Whether a name begins with `#`, as comments do.
fn begins_comment(name: &[u8]) -> bool
    ensures { result ≡ begins_comment name.now }
{
    matches!(name, [b'#', ..])
}

/// Whether a name may have all of these bytes: no `:`, and no control character.
fn are_name_bytes(bytes: &[u8]) -> bool
    ensures { result ≡ list_all is_name_byte bytes.now }
{
    bytes
        .iter()
        .all(|byte| *byte >= b' ' && *byte != 0x7F && *byte != b':')
}
