//! Topic names (section 4.7).

ghost use Rattle.std.specs.Prelude.{◌≡◌, Ok};
ghost use Rattle.mqtt_topic.specs.Names.{name_of, checked};
ghost use Rattle.mqtt_topic.specs.Refusals.{ParseAnswers};

use crate::error::{RefusedText, TopicError};
use crate::levels::has_wildcard;
use mqtt_packet::Text;
use std::marker::Model;

/// A topic name: a text of at least one character without wildcards (sections 4.7.3 and 3.3.2.1).
#[derive(Debug, Drop)]
pub struct TopicName {
    text: Text,
}

impl Model for TopicName {
    ghost use Rattle.std.specs.Prelude.{List, ℕ, ◌≡◌, Ok};
    ghost use Rattle.mqtt_topic.specs.Names.{name_of};

    ghost Value = { List ℕ };

    ghost view = { λ name. name.text };

    ghost invariant = { λ name. name_of name.text ≡ Ok name.text };
}

impl TopicName {
    /// The topic name that the text is. Refusals: 201 where it is empty, 202 where a wildcard is in it; the text comes back.
    pub fn parse(text: Text) -> Result<TopicName, RefusedText>
        ensures { ParseAnswers text result (name_of text) }
    {
        match check_name(text.as_bytes()) {
            Ok(()) => Ok(TopicName { text }),
            Err(error) => Err(RefusedText { text, error }),
        }
    }

    /// The topic name that a text is known to be. It is not looked at again.
    pub fn known(text: Text) -> TopicName
        requires { name_of text ≡ Ok text }
        ensures { result ≡ text }
    {
        TopicName { text }
    }

    /// The bytes of the name, as UTF-8.
    pub fn as_bytes(&self) -> &[u8]
        ensures bytes { result.now ≡ self.now }
        ensures name { name_of self.now ≡ Ok self.now }
    {
        self.text.as_bytes()
    }

    /// The text that was parsed.
    pub fn into_text(self) -> Text
        ensures { result ≡ self }
    {
        self.text
    }
}

/// Refuses what is no topic name.
#[tactic(auto, unfolding(crate::specs::Names::name_of))]
fn check_name(text: &[u8]) -> Result<(), TopicError>
    ensures { checked text.now result ≡ name_of text.now }
{
    if text.is_empty() {
        return Err(TopicError::Empty);
    }
    if has_wildcard(text) {
        return Err(TopicError::BadWildcard);
    }
    Ok(())
}
