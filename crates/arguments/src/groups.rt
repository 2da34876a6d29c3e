//! The groups that are there from the start.
ghost use Rattle.std.specs.Prelude.{◌≡◌, [], map, IfOk, MatchResult};
ghost use Rattle.arguments.specs.Groups.{share_named, Adds, AddsEach, RefusesOne};

use bytes::Bytes;
use mqtt_packet::Text;
use mqtt_topic::{Routes, Share, TopicError};
use std::alloc::{AllocError, Global};

/// Why a group is refused.
#[derive(Clone, Copy, Debug, PartialEq, Eq)]
pub(crate) enum Refusal {
    /// There is no colon, or what stands around it names no share.
    NoShare,
    /// It was given before.
    Twice,
    /// There are eight.
    Ninth,
}

impl Refusal {
    /// Why, in words.
    fn reason(self) -> &'static str {
        match self {
            Refusal::NoShare => "a group is NAME:FILTER, where $share/NAME/FILTER is a share",
            Refusal::Twice => "the group is given twice",
            Refusal::Ninth => "there are at most eight groups",
        }
    }

    /// What is said of a pair that is refused: which it is, and why.
    fn text(self, alloc: Global, pair: &str) -> Result<String, AllocError> {
        let reason = self.reason();
        format!(in alloc; "invalid value '{pair}' for '--group <NAME:FILTER>': {reason}")
    }
}

/// A pair that is refused.
#[derive(Drop)]
pub(crate) struct RefusedPair {
    /// Why.
    pub(crate) refusal: Refusal,
    /// What is said of it.
    pub(crate) text: String,
}

/// The groups that are named by the pairs `NAME:FILTER`, in order; or why the first that is refused is.
pub(crate) fn groups_of(
    alloc: Global,
    pairs: &[&str],
) -> Result<Result<Routes, RefusedPair>, AllocError>
    ensures { IfOk result (λ answer. MatchResult answer
        (λ groups. AddsEach [] (map (λ pair. pair.now) pairs.now) groups)
        (λ refused. RefusesOne [] (map (λ pair. pair.now) pairs.now) refused.refusal)) }
{
    let mut groups = Routes::new(alloc);
    for pair in pairs {
        if let Err(refusal) = add_group(alloc, &mut groups, pair)? {
            let text = refusal.text(alloc, pair)?;
            return Ok(Err(RefusedPair { refusal, text }));
        }
    }
    Ok(Ok(groups))
}

/// Adds the group `NAME:FILTER`.
fn add_group(
    alloc: Global,
    groups: &mut Routes,
    pair: &str,
) -> Result<Result<(), Refusal>, AllocError>
    ensures { IfOk result (λ answer. Adds groups.old (share_named pair.now) answer groups.new) }
{
    let Some(share) = share_of(alloc, pair)? else {
        return Ok(Err(Refusal::NoShare));
    };
    if groups.find(&share).is_some() {
        return Ok(Err(Refusal::Twice));
    }
    match groups.bind(share) {
        Ok(_slot) => Ok(Ok(())),
        Err(TopicError::Memory) => Err(AllocError),
        Err(_) => Ok(Err(Refusal::Ninth)),
    }
}

/// The share that a pair names: it is cut at the first colon.
fn share_of(alloc: Global, pair: &str) -> Result<Option<Share>, AllocError>
    ensures { IfOk result (λ found. found ≡ share_named pair.now) }
{
    let Some((name, filter)) = pair.split_once(':') else {
        return Ok(None);
    };
    let text = format!(in alloc; "$share/{name}/{filter}")?;
    match Text::parse(Bytes::from_vec(text.into_bytes())?) {
        Some(text) => Ok(Share::parse(text).ok()),
        None => Ok(None),
    }
}
