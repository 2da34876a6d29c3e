//! Names, filters, shares and routes, by the standard's examples and the profile's.

use crate::asserting::{assert_items, assert_same, assert_same_at, assert_text};
use bytes::Bytes;
use mqtt_packet::Text;
use mqtt_topic::{Filter, RefusedText, Routes, Share, TopicError, TopicName};
use std::alloc::Global;
use std::test::Fail;

// A filter, a name, and whether they match: the standard's examples of sections 4.7.1 to 4.7.3, and some of the profile.
const MATCHES: &str = "\
sport/tennis/player1/# sport/tennis/player1 yes
sport/tennis/player1/# sport/tennis/player1/ranking yes
sport/tennis/player1/# sport/tennis/player1/score/wimbledon yes
sport/# sport yes
# sport yes
sport/tennis/+ sport/tennis/player1 yes
sport/tennis/+ sport/tennis/player1/ranking no
sport/+ sport no
sport/+ sport/ yes
+/+ /finance yes
/+ /finance yes
+ /finance no
+/tennis/# sport/tennis/player1 yes
# $SYS/monitor no
# $x/a no
+/monitor/Clients $SYS/monitor/Clients no
$SYS/# $SYS/monitor yes
$SYS/monitor/+ $SYS/monitor/Clients yes
ACCOUNTS Accounts no
finance /finance no
";

// A share, and the number of its refusal.
const SHARES: &str = "\
a/b 204
$share//a 203
$share/g+/a 203
$share/g 203
$share/g/ 201
$share/g/a# 202
$share/g/a/#/b 202
$share/g/a+ 202
$share/g/+/a/# 0
";

// A share, and the slot that it is bound to, or the number of the refusal.
const ROUTES: &str = "\
$share/a/job 0
$share/b/job 1
$share/a/+ 2
$share/a/job 0
$share/c/c 3
$share/d/d 4
$share/e/e 5
$share/f/# 6
$share/g/# 7
$share/h/h 205
";

fn text(word: &'static str) -> Option<Text> {
    Text::parse(Bytes::from_static(word.as_bytes()))
}

fn name(word: &'static str) -> Option<TopicName> {
    TopicName::parse(text(word)?).ok()
}

// Whether the filter matches the topic.
fn answer(filter: &'static str, topic: &'static str) -> Option<&'static str> {
    let filter = Filter::parse(text(filter)?).ok()?;
    let topic = name(topic)?;
    Some(if filter.matches(&topic) { "yes" } else { "no" })
}

#[test]
fn filters(rt: HostRuntime) -> Result<(), Fail> {
    for line in MATCHES.lines() {
        let (filter, rest) = line.split_once(' ').ok_or("a name")?;
        let (topic, wanted) = rest.split_once(' ').ok_or("an answer")?;
        assert_same_at(&rt, &answer(filter, topic), &Some(wanted), line);
    }
    Ok(())
}

// The number of a share's refusal, 0 where it is one, and 1 where its text does not come back.
fn share_number(word: &'static str) -> Option<u16> {
    match Share::parse(text(word)?) {
        Ok(_) => Some(0),
        Err(RefusedText { text, error }) => {
            let same = text.as_bytes() == word.as_bytes();
            Some(if same { error.number() } else { 1 })
        }
    }
}

#[test]
fn shares(rt: HostRuntime) -> Result<(), Fail> {
    for line in SHARES.lines() {
        let (share, wanted) = line.split_once(' ').ok_or("a number")?;
        assert_same_at(&rt, &share_number(share), &wanted.parse().ok(), line);
    }
    Ok(())
}

// The slot that a share is bound to, or the number of the refusal.
fn bound(routes: &mut Routes, word: &'static str) -> Option<u16> {
    let share = Share::parse(text(word)?).ok()?;
    Some(match routes.bind(share) {
        Ok(slot) => u16::from(slot),
        Err(refusal) => refusal.number(),
    })
}

// The slots whose filter matches the name, how many they are, and whether slot 3 is among them.
fn matching(alloc: Global, routes: &Routes, word: &'static str) -> Option<(Vec<u8>, usize, bool)> {
    let slots = routes.matching(&name(word)?);
    let list = slots.iter().collect(alloc).ok()?;
    Some((list, slots.len(), slots.contains(3)))
}

#[test]
fn routes(rt: HostRuntime) -> Result<(), Fail> {
    let mut routes = Routes::new(rt.alloc());
    for line in ROUTES.lines() {
        let (share, wanted) = line.split_once(' ').ok_or("a slot")?;
        assert_same_at(&rt, &bound(&mut routes, share), &wanted.parse().ok(), line);
    }
    let (slots, count, third) = matching(rt.alloc(), &routes, "job").ok_or("a name")?;
    assert_items(&rt, slots.as_slice(), [0u8, 1, 2, 6, 7].as_slice());
    assert_same(&rt, &(count, third), &(5, false));
    assert_same(&rt, &routes.shares().len(), &8);
    Ok(())
}

// Whether the parts of `$share/b/job` are what they are, and it matches `job`.
fn has_its_parts() -> Option<bool> {
    let share = Share::parse(text("$share/b/job")?).ok()?;
    let parts = share.text() == b"$share/b/job".as_slice()
        && share.name() == b"b".as_slice()
        && share.filter() == b"job".as_slice();
    Some(parts && share.matches(&name("job")?))
}

// Whether an empty table has a slot for a share, or one that matches a name.
fn finds_in_none(alloc: Global) -> Option<bool> {
    let routes = Routes::new(alloc);
    let share = Share::parse(text("$share/b/job")?).ok()?;
    Some(routes.find(&share).is_some() || !routes.matching(&name("job")?).is_empty())
}

// Whether a filter and a name show their texts, and a name gives its text back.
fn show_their_texts() -> Option<bool> {
    let filter = Filter::parse(text("a/#")?).ok()?;
    let job = name("job")?;
    let shown = filter.as_bytes() == b"a/#".as_slice() && job.as_bytes() == b"job".as_slice();
    Some(shown && job.into_text().as_bytes() == b"job".as_slice())
}

#[test]
fn parts_and_texts(rt: HostRuntime) {
    assert_same(&rt, &has_its_parts(), &Some(true));
    assert_same(&rt, &finds_in_none(rt.alloc()), &Some(false));
    assert_same(&rt, &show_their_texts(), &Some(true));
}

// A refusal, and its text.
const REFUSALS: [(TopicError, &str); 6] = [
    (TopicError::Empty, "the text is empty"),
    (TopicError::BadWildcard, "a wildcard stands out of place"),
    (TopicError::BadShare, "the share name is not valid"),
    (TopicError::NotShared, "the text is no share"),
    (TopicError::NoSlot, "no slot is free"),
    (TopicError::Memory, "out of memory"),
];

#[test]
fn texts_of_refusals(rt: HostRuntime) -> Result<(), Fail> {
    for (refusal, text) in REFUSALS {
        let told = format!(in rt.alloc(); "{refusal}")?;
        assert_text(&rt, told.as_str(), text);
    }
    Ok(())
}
