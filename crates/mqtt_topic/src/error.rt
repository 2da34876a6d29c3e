//! Why a text is no topic name, filter or share, and why a share is not bound.

ghost use Rattle.mqtt_topic.specs.declared.error.TopicError.TheVariants as error;
ghost use Rattle.std.specs.Prelude.{◌≡◌};
ghost use Rattle.mqtt_topic.specs.Refusals.{number_of};

use mqtt_packet::Text;
use std::alloc::AllocFailed;
use thiserror::Error;

/// Why a call of this crate is refused. A refused call changes nothing.
#[derive(Clone, Copy, Debug, PartialEq, Eq, Error)]
pub enum TopicError {
    /// 201: a topic name or a filter has at least one character (section 4.7.3).
    #[error("the text is empty")]
    Empty,
    /// 202: a wildcard in a topic name, or one in a filter that is no whole level, or a `#` that is not the last
    /// (sections 4.7.1.2 and 4.7.1.3).
    #[error("a wildcard stands out of place")]
    BadWildcard,
    /// 203: no Share Name, one with a wildcard, or no `/` after it (section 4.8.2).
    #[error("the share name is not valid")]
    BadShare,
    /// 204: the text does not begin with `$share/` (section 4.8.2).
    #[error("the text is no share")]
    NotShared,
    /// 205: all eight slots are bound to other shares.
    #[error("no slot is free")]
    NoSlot,
    /// 206: an allocation failed.
    #[error("out of memory")]
    Memory,
}

impl TopicError {
    /// The number of the refusal, from 201 to 206.
    pub fn number(&self) -> u16
        ensures { result ≡ number_of self.now }
    {
        match self {
            TopicError::Empty => 201,
            TopicError::BadWildcard => 202,
            TopicError::BadShare => 203,
            TopicError::NotShared => 204,
            TopicError::NoSlot => 205,
            TopicError::Memory => 206,
        }
    }
}

impl<T: Drop> From<AllocFailed<T>> for TopicError {
    ghost from_gives = { λ _ result. result ≡ error.Memory };

    fn from(_error: AllocFailed<T>) -> TopicError {
        TopicError::Memory
    }
}

/// A text that was refused, and why.
#[derive(Debug, Drop)]
pub struct RefusedText {
    /// The text as it was given.
    pub text: Text,
    /// Why it was refused.
    pub error: TopicError,
}

impl From<RefusedText> for TopicError {
    ghost from_gives = { λ refused result. result ≡ refused.error };

    fn from(refused: RefusedText) -> TopicError {
        refused.error
    }
}
