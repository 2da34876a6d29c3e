//! Shares: the texts by which a client joins a group (section 4.8.2).

ghost use Rattle.std.specs.Prelude.{◌≡◌, ◌+◌, ◌≤◌, ◌<◌, List, ℕ, Ok, length, drop, position, IfOk};
ghost use Rattle.mqtt_topic.specs.Levels.{is_separator, matches};
ghost use Rattle.mqtt_topic.specs.Names.{share_of, share_cut, share_from, moved};
ghost use Rattle.mqtt_topic.specs.Refusals.{ParseAnswers};

use crate::error::{RefusedText, TopicError};
use crate::filter::check_filter;
use crate::levels::{has_wildcard, matches, separator_at};
use crate::topic_name::TopicName;
use mqtt_packet::Text;
use std::marker::Model;

/// How the text of a share begins.
const PREFIX: &[u8] = b"$share/";

/// A shared subscription `$share/NAME/FILTER`. Name and filter are parts of its text.
#[derive(Debug, Drop)]
pub struct Share {
    text: Text,
    filter_at: usize,
}

impl Model for Share {
    ghost use Rattle.std.specs.Prelude.{◌≡◌, ◌≤◌, length, Ok};
    ghost use Rattle.mqtt_topic.specs.Names.{Share as named, share_at, share_of};

    ghost Value = { named };

    ghost view = { λ share. share_at share.text share.filter_at };

    ghost invariant = { λ share. (share_of share.text ≡ Ok (share_at share.text share.filter_at))
        × (8 ≤ share.filter_at) × (share.filter_at ≤ length share.text) };
}

impl Share {
    /// The share that the text is. Refusals, in this order: 204 where it does not begin with `$share/`; 203 where the name is
    /// empty, has a wildcard, or no `/` follows it; 201 or 202 for the filter. The text comes back.
    pub fn parse(text: Text) -> Result<Share, RefusedText>
        ensures { ParseAnswers text result (share_of text) }
    {
        match filter_at(text.as_bytes()) {
            Ok(filter_at) => Ok(Share { text, filter_at }),
            Err(error) => Err(RefusedText { text, error }),
        }
    }

    /// The whole text, as UTF-8.
    pub fn text(&self) -> &[u8]
        ensures text { result.now ≡ self.now.text }
        ensures share { share_of self.now.text ≡ Ok self.now }
    {
        self.text.as_bytes()
    }

    /// The Share Name, as UTF-8.
    pub fn name(&self) -> &[u8]
        ensures { result.now ≡ self.now.name }
    {
        &self.text.as_bytes()[PREFIX.len()..self.filter_at - 1]
    }

    /// The filter, as UTF-8.
    pub fn filter(&self) -> &[u8]
        ensures { result.now ≡ self.now.filter }
    {
        &self.text.as_bytes()[self.filter_at..]
    }

    /// Whether the filter matches the name.
    pub fn matches(&self, name: &TopicName) -> bool
        ensures { result ≡ matches self.now.filter name.now }
    {
        matches(self.filter(), name.as_bytes())
    }
}

/// Where the filter of a share begins in its text.
#[tactic(auto, unfolding(crate::specs::Names::share_of))]
fn filter_at(text: &[u8]) -> Result<usize, TopicError>
    ensures share { share_from text.now result ≡ share_of text.now }
    ensures within { IfOk result (λ at. (8 ≤ at) × (at ≤ length text.now)) }
{
    if !text.starts_with(PREFIX) {
        return Err(TopicError::NotShared);
    }
    let filter_at = filter_behind(&text[PREFIX.len()..])?;
    Ok(PREFIX.len() + filter_at)
}

/// Where the filter begins after the prefix.
fn filter_behind(rest: &[u8]) -> Result<usize, TopicError>
    ensures share { (text : List ℕ) → drop 7 text ≡ rest.now →
        share_from text (moved result) ≡ share_cut text rest.now (position is_separator rest.now) }
    ensures within { IfOk result (λ at. (1 ≤ at) × (at ≤ length rest.now)) }
{
    let Some(at) = separator_at(rest) else {
        return Err(TopicError::BadShare);
    };
    let name = &rest[..at];
    if name.is_empty() || has_wildcard(name) {
        return Err(TopicError::BadShare);
    }
    check_filter(&rest[at + 1..])?;
    Ok(at + 1)
}
