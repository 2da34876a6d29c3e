//! Levels of a text, and matching level by level (section 4.7).

ghost use Rattle.std.specs.Prelude.{◌≡◌, ◌∷◌, ◌<◌, List, ℕ, position, length, Some, None, IfSome};
ghost use Rattle.std.specs.List.{list_any};
ghost use Rattle.mqtt_topic.specs.Levels.{is_separator, is_wildcard, is_hidden, levels_of, levels_left, text_left, is_multi_level, admits, matches_levels, matches};

/// The first level of a text, and what is left behind it where there is another level.
pub(crate) fn split_level(text: &[u8]) -> (&[u8], Option<&[u8]>)
    ensures levels { levels_of text.now ≡ result.0.now ∷ levels_left (text_left result.1) }
    ensures shorter { IfSome result.1 (λ rest. length rest.now < length text.now) }
{
    match separator_at(text) {
        None => (text, None),
        Some(at) => (&text[..at], Some(&text[at + 1..])),
    }
}

/// Where the first `/` stands.
pub(crate) fn separator_at(text: &[u8]) -> Option<usize>
    ensures place { result ≡ position is_separator text.now }
    ensures within { IfSome result (λ at. at < length text.now) }
{
    text.iter().position(|byte| *byte == b'/')
}

/// Whether a wildcard stands in the text.
pub(crate) fn has_wildcard(text: &[u8]) -> bool
    ensures { result ≡ list_any is_wildcard text.now }
{
    text.iter().any(|byte| *byte == b'#' || *byte == b'+')
}

/// Whether the filter matches the name.
#[tactic(auto, unfolding(crate::specs::Levels::matches))]
pub(crate) fn matches(filter: &[u8], name: &[u8]) -> bool
    ensures { result ≡ matches filter.now name.now }
{
    !is_hidden(filter, name) && match_texts(filter, name)
}

/// Whether the levels of the filter match those of the name. Most filters are the very name, which is seen without a look at the levels.
fn match_texts(filter: &[u8], name: &[u8]) -> bool
    ensures { result ≡ matches_levels (levels_of filter.now) (levels_of name.now) }
{
    filter == name || match_levels(filter, name)
}

/// Whether the filter begins with a wildcard and the name with `$`.
fn is_hidden(filter: &[u8], name: &[u8]) -> bool
    ensures { result ≡ is_hidden filter.now name.now }
{
    matches!(filter, [b'#' | b'+', ..]) && matches!(name, [b'$', ..])
}

/// Whether the levels of the filter match those of the name.
fn match_levels(filter: &[u8], name: &[u8]) -> bool
    ensures { result ≡ matches_levels (levels_of filter.now) (levels_of name.now) }
{
    let mut filters = Some(filter);
    let mut names = Some(name);
    while let Some(filter) = filters {
        let (level, next) = split_level(filter);
        if is_multi_level(level, next) {
            return true;
        }
        let Some(name) = names else {
            return false;
        };
        let (own, rest) = split_level(name);
        if !admits(level, own) {
            return false;
        }
        filters = next;
        names = rest;
    }
    names.is_none()
}

/// Whether a level with that after it is the Multi-Level Wildcard (section 4.7.1.2).
pub(crate) fn is_multi_level(level: &[u8], next: Option<&[u8]>) -> bool
    ensures { result ≡ is_multi_level level.now (levels_left (text_left next.entry)) }
{
    match next {
        None => level == b"#".as_slice(),
        Some(_) => false,
    }
}

/// Whether a level of a filter matches a level of a name (section 4.7.1.3).
fn admits(level: &[u8], name: &[u8]) -> bool
    ensures { result ≡ admits level.now name.now }
{
    level == b"+".as_slice() || level == name
}
