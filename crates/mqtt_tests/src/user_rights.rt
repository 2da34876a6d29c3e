//! What the users of a file may do: lines that say so, and what is answered by them.

use crate::asserting::{assert_same, assert_same_at};
use bytes::Bytes;
use mqtt_packet::Text;
use mqtt_topic::{Share, TopicName};
use std::alloc::Global;
use std::test::Fail;
use users::{ClientRights, SharedUsers, Users, UsersError};

// What is kept of the password `password`.
const STORED: &str =
    "$7$1$c2FsdA==$hn9wzxreAs/zdSWZo6U9xK80x6ZpgVrl1RNVThyM8lLALUcKKFoFAbrZmb/pQ8CPBQI119aLHaVeY/c7YKV/zg==";

// A line after that of a user.
const GRANTED: [&str; 11] = [
    " publish jobs/#",
    "\tpublish jobs/#",
    " \t  publish +/done",
    " publish jobs/#\r",
    " publish $share/g/jobs",
    " publish a  b ",
    " publish  ",
    " work $share/g/jobs",
    " work $share/g/+/a b",
    " client press 7",
    "  client \u{20AC}",
];

const AT_FAULT: [&str; 14] = [
    " ",
    "\t\r",
    " #",
    " publish",
    " publish ",
    " publish jobs/#/a",
    " publish\tjobs",
    " Publish jobs",
    " read jobs",
    " work jobs",
    " work $share/g",
    " work  $share/g/jobs",
    " client ",
    "\u{A0}client a",
];

// Users, each named after what is said of it.
const USERS: &str = "\
# who may do what
topics:P
  publish jobs/#
\tpublish +/news
share:P
 work $share/painters/jobs/paint\r
both:P
 publish a
 client press-7

# more of the same
 work $share/g/a
clients:P
 client press-8
 client press 9
nothing:P
";

// A user, a topic name, and whether the one may publish to the other.
const TOPICS: [(&str, &str, bool); 11] = [
    ("topics", "jobs/paint/red", true),
    ("topics", "jobs", true),
    ("topics", "city/news", true),
    ("topics", "news", false),
    ("topics", "job", false),
    ("share", "jobs/paint", false),
    ("both", "a", true),
    ("both", "b", false),
    ("clients", "b", true),
    ("nothing", "b", true),
    ("nobody", "b", true),
];

// A user, a share, and whether the one may work for the other.
const SHARES: [(&str, &str, bool); 9] = [
    ("share", "$share/painters/jobs/paint", true),
    ("share", "$share/painters/jobs", false),
    ("share", "$share/printers/jobs/paint", false),
    ("topics", "$share/g/jobs/a", false),
    ("both", "$share/g/a", true),
    ("both", "$share/g/b", false),
    ("clients", "$share/g/a", true),
    ("nothing", "$share/g/a", true),
    ("nobody", "$share/g/a", true),
];

// A user, a client identifier, and whether the one may connect under the other.
const CLIENTS: [(&str, &str, bool); 12] = [
    ("both", "press-7", true),
    ("both", "press-8", false),
    ("both", "press", false),
    ("clients", "press-8", true),
    ("clients", "press 9", true),
    ("clients", "press-7", false),
    ("nothing", "press-7", false),
    ("nothing", "press 9", false),
    ("nothing", "press", true),
    ("nobody", "press-7", false),
    ("nobody", "press", true),
    ("", "", true),
];

// The users of a file in which P stands for a password.
fn users_of(alloc: Global, text: &str) -> Result<SharedUsers, Fail> {
    let mut file = String::new(alloc);
    for letter in text.chars() {
        match letter {
            'P' => file.push_str(STORED)?,
            _ => file.push(letter)?,
        }
    }
    Ok(Users::parse(alloc, file.as_bytes())?.into_shared(alloc)?)
}

// The error of a file whose second line is that one, after a user's, and whose third is at fault.
fn error_of(alloc: Global, line: &str) -> Result<Option<UsersError>, Fail> {
    let text = format!(in alloc; "ann:{STORED}\n{line}\nbad\n")?;
    Ok(Users::parse(alloc, text.as_bytes()).err())
}

// The rights of the user of that name.
fn rights_of(users: &SharedUsers, name: &str) -> Result<ClientRights, Fail> {
    Ok(users.share()?.into_rights(name.as_bytes()))
}

fn topic(word: &'static str) -> Option<TopicName> {
    TopicName::parse(Text::parse(Bytes::from_static(word.as_bytes()))?).ok()
}

fn share(word: &'static str) -> Option<Share> {
    Share::parse(Text::parse(Bytes::from_static(word.as_bytes()))?).ok()
}

// The error of a file of two users, each with a client identifier.
fn error_of_two(alloc: Global, one: &str, other: &str) -> Result<Option<UsersError>, Fail> {
    let text = format!(in alloc; "ann:{STORED}\n client {one}\nbob:{STORED}\n client {other}\n")?;
    Ok(Users::parse(alloc, text.as_bytes()).err())
}

#[test]
fn client_identifier_of_two_users(rt: HostRuntime) -> Result<(), Fail> {
    let alloc = rt.alloc();
    let taken = Some(UsersError::Line(4));
    assert_same(&rt, &error_of_two(alloc, "press-7", "press-7")?, &taken);
    assert_same(&rt, &error_of_two(alloc, "press-7", "press-8")?, &None);
    assert_same(&rt, &error_of_two(alloc, "press-7", "Press-7")?, &None);
    let twice = error_of(alloc, " client press-7\n client press-7")?;
    assert_same(&rt, &twice, &Some(UsersError::Line(3)));
    Ok(())
}

#[test]
fn lines_of_rights(rt: HostRuntime) -> Result<(), Fail> {
    for line in GRANTED {
        let found = error_of(rt.alloc(), line)?;
        assert_same_at(&rt, &found, &Some(UsersError::Line(3)), line);
    }
    Ok(())
}

#[test]
fn lines_of_no_right(rt: HostRuntime) -> Result<(), Fail> {
    for line in AT_FAULT {
        let found = error_of(rt.alloc(), line)?;
        assert_same_at(&rt, &found, &Some(UsersError::Line(2)), line);
    }
    Ok(())
}

#[test]
fn longest_client_identifier(rt: HostRuntime) -> Result<(), Fail> {
    let mut line = String::from_str(rt.alloc(), " client ")?;
    for _ in 0..128 {
        line.push('c')?;
    }
    let found = error_of(rt.alloc(), line.as_str())?;
    assert_same(&rt, &found, &Some(UsersError::Line(3)));
    line.push('c')?;
    let found = error_of(rt.alloc(), line.as_str())?;
    assert_same(&rt, &found, &Some(UsersError::Line(2)));
    Ok(())
}

#[test]
fn rights_without_a_user_and_bytes_that_are_no_text(rt: HostRuntime) -> Result<(), Fail> {
    let first = Users::parse(rt.alloc(), b"#\n\n publish jobs\n").err();
    assert_same(&rt, &first, &Some(UsersError::Line(3)));
    let user = format!(in rt.alloc(); "ann:{STORED}\n")?;
    for line in [b" publish \xFF", b" client \0\0"] {
        let mut text = Vec::from_slice(rt.alloc(), user.as_bytes())?;
        text.extend_from_slice(line)?;
        let found = Users::parse(rt.alloc(), text.as_slice()).err();
        assert_same(&rt, &found, &Some(UsersError::Line(2)));
    }
    Ok(())
}

#[test]
fn topics_to_publish_to(rt: HostRuntime) -> Result<(), Fail> {
    let users = users_of(rt.alloc(), USERS)?;
    for (name, word, wanted) in TOPICS {
        let rights = rights_of(&users, name)?;
        let found = topic(word).map(|topic| rights.may_publish(&topic));
        assert_same_at(&rt, &found, &Some(wanted), word);
    }
    let found = topic("a").map(|topic| ClientRights::all().may_publish(&topic));
    assert_same(&rt, &found, &Some(true));
    Ok(())
}

#[test]
fn shares_to_work_for(rt: HostRuntime) -> Result<(), Fail> {
    let users = users_of(rt.alloc(), USERS)?;
    for (name, word, wanted) in SHARES {
        let rights = rights_of(&users, name)?;
        let found = share(word).map(|share| rights.may_work(&share));
        assert_same_at(&rt, &found, &Some(wanted), word);
    }
    let found = share("$share/g/a").map(|share| ClientRights::all().may_work(&share));
    assert_same(&rt, &found, &Some(true));
    Ok(())
}

#[test]
fn client_identifiers_of_users(rt: HostRuntime) -> Result<(), Fail> {
    let users = users_of(rt.alloc(), USERS)?;
    for (name, client, wanted) in CLIENTS {
        let found = users.may_connect_as(name.as_bytes(), client.as_bytes());
        assert_same_at(&rt, &found, &wanted, client);
    }
    assert_same(&rt, &users.admits(b"both", b"password"), &true);
    Ok(())
}
