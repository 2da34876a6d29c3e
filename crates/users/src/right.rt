//! The right that a line of a users file gives.
ghost use Rattle.std.specs.Prelude.{◌≡◌, IfOk};
ghost use Rattle.std.specs.Option.{option_map};
ghost use Rattle.std.specs.Result.{result_ok};
ghost use Rattle.mqtt_topic.specs.Names.{filter_of, share_of};
ghost use Rattle.users.specs.Granting.{client_of, right_named, right_of, text_of};
ghost use Rattle.users.specs.declared.right.Right.TheVariants.{Publish, Work};

use crate::cutting::{cut, without_blanks};
use bytes::Bytes;
use mqtt_packet::Text;
use mqtt_topic::{Filter, Share};
use std::alloc::{AllocError, Global};

/// The longest client identifier, in bytes.
const LONGEST_CLIENT: usize = 128;

/// One thing that a user may do.
#[derive(Drop)]
pub(crate) enum Right {
    /// To publish to the topics that the filter matches.
    Publish(Filter),
    /// To work for the share.
    Work(Share),
    /// To connect under a client identifier of its own.
    Client(Text),
}

/// The right that a line gives: after the spaces and tabs in front `publish`, `work` or `client`, one space, and the text; `None` where it is no such
/// line.
#[tactic(auto, unfolding(crate::specs::Granting::right_of))]
pub(crate) fn given_right(alloc: Global, line: &[u8]) -> Result<Option<Right>, AllocError>
    ensures { IfOk result (λ found. found ≡ right_of line.now) }
{
    let Some((word, bytes)) = cut(without_blanks(line), b' ') else {
        return Ok(None);
    };
    match text(alloc, bytes)? {
        Some(text) => Ok(right_named(word, text)),
        None => Ok(None),
    }
}

/// The text that the bytes are.
fn text(alloc: Global, bytes: &[u8]) -> Result<Option<Text>, AllocError>
    ensures { IfOk result (λ found. found ≡ text_of bytes.now) }
{
    Ok(Text::parse(Bytes::copy_from_slice(alloc, bytes)?))
}

/// The right that a word and a text name.
fn right_named(word: &[u8], text: Text) -> Option<Right>
    ensures { result ≡ right_named word.now text }
{
    if word == b"publish".as_slice() {
        return topics(text);
    }
    if word == b"work".as_slice() {
        return share(text);
    }
    if word == b"client".as_slice() {
        return client(text);
    }
    None
}

/// To publish to the topics that a filter matches.
fn topics(text: Text) -> Option<Right>
    ensures { result ≡ option_map Publish (result_ok (filter_of text)) }
{
    match Filter::parse(text) {
        Ok(filter) => Some(Right::Publish(filter)),
        Err(_) => None,
    }
}

/// To work for a share.
fn share(text: Text) -> Option<Right>
    ensures { result ≡ option_map Work (result_ok (share_of text)) }
{
    match Share::parse(text) {
        Ok(share) => Some(Right::Work(share)),
        Err(_) => None,
    }
}

/// To connect under a client identifier of 1 to 128 bytes.
fn client(text: Text) -> Option<Right>
    ensures { result ≡ client_of text }
{
    let size = text.as_bytes().len();
    if size >= 1 && size <= LONGEST_CLIENT {
        Some(Right::Client(text))
    } else {
        None
    }
}
