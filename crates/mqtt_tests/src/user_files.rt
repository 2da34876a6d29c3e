//! Files of users, and whom they admit: known answers of PBKDF2 with HMAC and SHA-512, and lines that `mosquitto_passwd` made.

use crate::asserting::{assert_same, assert_same_at, assert_text};
use std::alloc::Global;
use std::test::Fail;
use users::{SharedUsers, Users, UsersError, is_user_name, user_line};

// A file as mosquitto_passwd 2.0 made it, with a comment, an empty line and the line ends of another system.
const MADE: &str = "\
# who may connect
ann:$7$101$U9wDt4v2aZaqkpYK$DlYdZUNiSVvUwJ8aBavHmIbo6SMWmGnjNNWhN6nVbT269t4WEN/QP37T/HJn3KV0qxqIUxvk8jqWQ6QpbnCSFQ==\r

bob:$7$101$1iVkNCUy0N/Sxgmx$MR9V7npW5bS+IEa5zPxBSfuB2nUYDpYKXZYS1JFTB6thbwGg9FP0IPAN3YHH3hH/AbA1LpHcrv4Q1fHDu3GFeg==
zo\u{EB}:$7$101$o5nOCxQo1D3ZVTH5$bPtrSkyJEqtZJQj4NC0ykZBXzH2FiZS3s+XPUKjygMb2VJWRkzwg8rZjOJs/SSqHfiZdNw940ssXb1VN9/J0jA==
";

// A name, a password, and whether the file above admits them.
const ADMITTED: [(&str, &str, bool); 10] = [
    ("ann", "her password", true),
    ("ann", "her passwore", false),
    ("ann", "her password ", false),
    ("ann", "", false),
    ("ann", "b:o#b", false),
    ("bob", "b:o#b", true),
    (
        "zo\u{EB}",
        "\u{43F}\u{430}\u{440}\u{43E}\u{43B}\u{44C}",
        true,
    ),
    ("Ann", "her password", false),
    ("", "", false),
    ("# who may connect", "", false),
];

// What is kept of a password, and the password: computed by Python's hashlib, the first three rows being well-known ones.
const KNOWN: [(&str, &str); 5] = [
    (
        "$7$1$c2FsdA==$hn9wzxreAs/zdSWZo6U9xK80x6ZpgVrl1RNVThyM8lLALUcKKFoFAbrZmb/pQ8CPBQI119aLHaVeY/c7YKV/zg==",
        "password",
    ),
    (
        "$7$2$c2FsdA==$4dnBaqaBcIpF9cfE4hXOtm4BGi6fAEBxPxiu/bhm1Tz3bKsoaKObn3hA7c5P71qCvmczXHemBo4EESdU8nzPTg==",
        "password",
    ),
    (
        "$7$0004096$c2FsdA==$0Zexsz2wFD4BixLz0dFHnmzevcyXxcD4f2kC4HL0V7UUPzBgJkGz1VzTNZiMs2uEN2Bg7NUy4Dm3QqI5Q0ry1Q==",
        "password",
    ),
    (
        "$7$3$AQEBAQEBAQEBAQEBAQEBAQEBAQEBAQEBAQEBAQEBAQEBAQEBAQEBAQEBAQEBAQEBAQEBAQEBAQEBAQEBAQEBAQ==$YaMj2kSKcRd/el1krY4ERlZa/xxCCN1uT17Upr+77e0bJP64pIjUZcGsxjRh4TQhKtT+1i/WDSD0gSzEY8V5jA==",
        "kkkkkkkkkkkkkkkkkkkkkkkkkkkkkkkkkkkkkkkkkkkkkkkkkkkkkkkkkkkkkkkkkkkkkkkkkkkkkkkkkkkkkkkkkkkkkkkkkkkkkkkkkkkkkkkkkkkkkkkkkkkkkkkkkkkkkkkkkkkkkkkkkkkkkkkkkkkkkkkkkkkkkkkkkkkkkkkkkkkkkkkkkkkkkkkkkkkkkkkk",
    ),
    (
        "$7$1$AA==$rxiw2+6qCSbYf4MK2+4XZ+nXnTCwC1ZoO9Oc47tXGOj50PT399h784geleXE+AGBjo46b+WGRVg6H0ZKGhAr/Q==",
        "",
    ),
];

// What is kept of some password, for rows that turn one part of it.
const SALT: &str = "c2FsdA==";

const HASH: &str =
    "hn9wzxreAs/zdSWZo6U9xK80x6ZpgVrl1RNVThyM8lLALUcKKFoFAbrZmb/pQ8CPBQI119aLHaVeY/c7YKV/zg==";

// The second line of a file, in which S stands for a salt and H for a hash, and whether it is one.
const LINES: [(&str, bool); 26] = [
    ("bob:$7$1$S$H", true),
    ("b b:$7$1000000$S$H", true),
    ("bob:$7$001$S$H", true),
    ("", true),
    ("#bob", true),
    ("ann:$7$1$S$H", false),
    ("bob", false),
    (":$7$1$S$H", false),
    ("b\tb:$7$1$S$H", false),
    ("bob:x:$7$1$S$H", false),
    ("bob:", false),
    ("bob:$6$1$S$H", false),
    ("bob:$7$0$S$H", false),
    ("bob:$7$1000001$S$H", false),
    ("bob:$7$99999999999999999999$S$H", false),
    ("bob:$7$-1$S$H", false),
    ("bob:$7$+1$S$H", false),
    ("bob:$7$$S$H", false),
    ("bob:$7$1$$H", false),
    ("bob:$7$1$c2FsdA$H", false),
    ("bob:$7$1$S", false),
    ("bob:$7$1$S$", false),
    ("bob:$7$1$S$S", false),
    ("bob:$7$1$H==$H", false),
    ("bob:$7$1$S$H$", false),
    ("bob:$7$1$S$H ", false),
];

// The line of ann with the password `password` and the salt `salt of 12 b`, computed by Python's hashlib.
const MADE_LINE: &str =
    "ann:$7$101$c2FsdCBvZiAxMiBi$ivOFS9VCliiRQrzFr/YE/py3QCO0My3GrfdLzcOxIZCxTIV7xPmVW/wjas4J1YTGTg6WgPLp3WQRbQe0VZEyYg==";

// The users of a file, for several owners.
fn shared(alloc: Global, text: &[u8]) -> Result<SharedUsers, UsersError> {
    Ok(Users::parse(alloc, text)?.into_shared(alloc)?)
}

#[test]
fn mosquitto_files(rt: HostRuntime) -> Result<(), Fail> {
    let users = shared(rt.alloc(), MADE.as_bytes())?;
    let other = users.share()?;
    drop(users);
    for (name, password, wanted) in ADMITTED {
        let found = other.admits(name.as_bytes(), password.as_bytes());
        assert_same_at(&rt, &found, &wanted, name);
    }
    Ok(())
}

#[test]
fn known_hashes(rt: HostRuntime) -> Result<(), Fail> {
    for (stored, password) in KNOWN {
        let line = format!(in rt.alloc(); "ann:{stored}")?;
        let users = shared(rt.alloc(), line.as_bytes())?;
        assert_same_at(
            &rt,
            &users.admits(b"ann", password.as_bytes()),
            &true,
            stored,
        );
        assert_same_at(&rt, &users.admits(b"ann", b"another"), &false, stored);
    }
    Ok(())
}

// A row of the table above as a line.
fn spelled(alloc: Global, row: &str) -> Result<String, Fail> {
    let mut line = String::new(alloc);
    for letter in row.chars() {
        match letter {
            'S' => line.push_str(SALT)?,
            'H' => line.push_str(HASH)?,
            _ => line.push(letter)?,
        }
    }
    Ok(line)
}

#[test]
fn lines_at_fault(rt: HostRuntime) -> Result<(), Fail> {
    let first = spelled(rt.alloc(), "ann:$7$1$S$H")?;
    for (row, is_one) in LINES {
        let second = spelled(rt.alloc(), row)?;
        let text = format!(in rt.alloc(); "{first}\n{second}\nbad\n")?;
        let wanted = UsersError::Line(if is_one { 3 } else { 2 });
        let found = Users::parse(rt.alloc(), text.as_bytes()).err();
        assert_same_at(&rt, &found, &Some(wanted), row);
    }
    Ok(())
}

#[test]
fn made_lines(rt: HostRuntime) -> Result<(), Fail> {
    let name = "ann";
    assert!(&rt; is_user_name(name.as_bytes()));
    let line = user_line(rt.alloc(), name, b"password", b"salt of 12 b", 101)?;
    assert_text(&rt, line.as_str(), MADE_LINE);
    let users = shared(rt.alloc(), line.as_bytes())?;
    assert_same(&rt, &users.admits(b"ann", b"password"), &true);
    assert_same(&rt, &users.admits(b"ann", b"passwore"), &false);
    Ok(())
}

#[test]
fn names(rt: HostRuntime) -> Result<(), Fail> {
    let longest = [b'n'; 129];
    assert_same(&rt, &is_user_name(&longest[..128]), &true);
    assert_same(&rt, &is_user_name(&longest), &false);
    for (name, wanted) in [
        ("a", true),
        (" ", false),
        (" a", false),
        ("a ", true),
        ("a#", true),
        ("\u{20AC}", true),
        ("", false),
        ("#a", false),
        ("a:b", false),
        ("a\n", false),
        ("\u{7F}", false),
    ] {
        assert_same_at(&rt, &is_user_name(name.as_bytes()), &wanted, name);
    }
    Ok(())
}

#[test]
fn errors_are_told(rt: HostRuntime) -> Result<(), Fail> {
    let text = format!(in rt.alloc(); "{}, {}", UsersError::Memory, UsersError::Line(7))?;
    assert_text(&rt, text.as_str(), "out of memory, line 7 is not valid");
    Ok(())
}
