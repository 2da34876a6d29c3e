//! Filters (section 4.7.1).

ghost use Rattle.std.specs.Prelude.{◌≡◌, Ok};
ghost use Rattle.mqtt_topic.specs.Levels.{levels_of, levels_left, text_left, matches};
ghost use Rattle.mqtt_topic.specs.Names.{is_placed, are_placed, filter_of, checked};
ghost use Rattle.mqtt_topic.specs.Refusals.{ParseAnswers};

use crate::error::{RefusedText, TopicError};
use crate::levels::{has_wildcard, is_multi_level, matches, split_level};
use crate::topic_name::TopicName;
use mqtt_packet::Text;
use std::marker::Model;

/// A filter: a text of at least one character whose wildcards are whole levels, `#` only the last (section 4.7.1).
#[derive(Debug, Drop)]
pub struct Filter {
    text: Text,
}

impl Model for Filter {
    ghost use Rattle.std.specs.Prelude.{List, ℕ, ◌≡◌, Ok};
    ghost use Rattle.mqtt_topic.specs.Names.{filter_of};

    ghost Value = { List ℕ };

    ghost view = { λ filter. filter.text };

    ghost invariant = { λ filter. filter_of filter.text ≡ Ok filter.text };
}

impl Filter {
    /// The filter that the text is. Refusals: 201 where it is empty, 202 where a wildcard stands out of place; the text comes
    /// back.
    pub fn parse(text: Text) -> Result<Filter, RefusedText>
        ensures { ParseAnswers text result (filter_of text) }
    {
        match check_filter(text.as_bytes()) {
            Ok(()) => Ok(Filter { text }),
            Err(error) => Err(RefusedText { text, error }),
        }
    }

    /// The bytes of the filter, as UTF-8.
    pub fn as_bytes(&self) -> &[u8]
        ensures bytes { result.now ≡ self.now }
        ensures filter { filter_of self.now ≡ Ok self.now }
    {
        self.text.as_bytes()
    }

    /// Whether the filter matches the name (section 4.7). Both texts are walked once.
    pub fn matches(&self, name: &TopicName) -> bool
        ensures { result ≡ matches self.now name.now }
    {
        matches(self.as_bytes(), name.as_bytes())
    }
}

/// Refuses what is no filter.
#[tactic(auto, unfolding(crate::specs::Names::filter_of))]
pub(crate) fn check_filter(text: &[u8]) -> Result<(), TopicError>
    ensures { checked text.now result ≡ filter_of text.now }
{
    if text.is_empty() {
        return Err(TopicError::Empty);
    }
    if !are_placed(text) {
        return Err(TopicError::BadWildcard);
    }
    Ok(())
}

/// Whether each wildcard is a whole level, and `#` the last.
fn are_placed(text: &[u8]) -> bool
    ensures { result ≡ are_placed (levels_of text.now) }
{
    let mut levels = Some(text);
    while let Some(text) = levels {
        let (level, next) = split_level(text);
        if !is_placed(level, next) {
            return false;
        }
        levels = next;
    }
    true
}

/// Whether a level with that after it is a wildcard in its place, or has none.
fn is_placed(level: &[u8], next: Option<&[u8]>) -> bool
    ensures { result ≡ is_placed level.now (levels_left (text_left next.entry)) }
{
    is_multi_level(level, next) || level == b"+".as_slice() || !has_wildcard(level)
}
