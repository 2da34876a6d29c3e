//! `hash-password`, and `serve --users`.
use crate::asserting::{assert_items, assert_same, assert_same_at};
use crate::devices::Broken;
use crate::running::ran;
use std::alloc::Global;
use std::test::Fail;
use users::{SharedUsers, Users};

/// The users that a text lists.
fn users_in(alloc: Global, text: &[u8]) -> Option<SharedUsers> {
    Users::parse(alloc, text).ok()?.into_shared(alloc).ok()
}

/// The line that is written is a user's, whose password is the first line of the input, with the iterations that were asked for; two have two salts.
#[test]
fn line_of_a_user(rt: HostRuntime) -> Result<(), Fail> {
    let rows = [
        (
            "share_broker hash-password worker --iterations 2",
            "job 7\nno password\n",
            "worker:$7$2$",
        ),
        (
            "share_broker hash-password worker",
            "job 7",
            "worker:$7$1000$",
        ),
    ];
    for (line, input, begun) in rows.iter() {
        let made = ran(&rt, rt.alloc(), line, &mut input.as_bytes())?;
        assert_same_at(&rt, &made.status, &0, line);
        assert_same_at(&rt, &made.output.starts_with(begun.as_bytes()), &true, line);
        assert_same_at(&rt, &made.errors.len(), &0, line);
        let users = users_in(rt.alloc(), &made.output).expect(&rt, "a user");
        assert_same_at(&rt, &users.admits(b"worker", b"job 7"), &true, line);
        assert_same_at(&rt, &users.admits(b"worker", b"job 8"), &false, line);
        assert_same_at(&rt, &users.admits(b"Worker", b"job 7"), &false, line);
        let again = ran(&rt, rt.alloc(), line, &mut input.as_bytes())?;
        assert_same_at(&rt, &(again.output == made.output), &false, line);
    }
    Ok(())
}

/// Where the input has no password in its first line, or cannot be read, nothing is written.
#[test]
fn no_password(rt: HostRuntime) -> Result<(), Fail> {
    let line = "share_broker hash-password worker";
    for input in ["", "\njob 7\n"].iter() {
        let ended = ran(&rt, rt.alloc(), line, &mut input.as_bytes())?;
        assert_same_at(&rt, &ended.status, &5, input);
        assert_same_at(&rt, &ended.output.len(), &0, input);
        assert_items(&rt, ended.errors.as_slice(), "input line 1\n".as_bytes());
    }
    let ended = ran(&rt, rt.alloc(), line, &mut Broken)?;
    assert_same(&rt, &ended.status, &3);
    assert_same(&rt, &ended.output.len(), &0);
    assert_items(&rt, ended.errors.as_slice(), "device\n".as_bytes());
    Ok(())
}

/// A broker whose file cannot be read, or has a line that is no user's, does not listen, and reads nothing.
#[test]
fn no_users(rt: HostRuntime) -> Result<(), Fail> {
    let rows = [
        (
            "share_broker serve --port 0 --users /proc/nowhere",
            3,
            "device: the users file cannot be read\n",
        ),
        (
            "share_broker serve --port 0 --log debug --users /proc",
            3,
            "device: the users file cannot be read\n",
        ),
        (
            "share_broker serve --port 0 --until killed --users /proc/version",
            5,
            "users line 1\n",
        ),
    ];
    for (line, status, said) in rows.iter() {
        let mut reader = &b"0"[..];
        let ended = ran(&rt, rt.alloc(), line, &mut reader)?;
        assert_same_at(&rt, &ended.status, status, line);
        assert_same_at(&rt, &reader.len(), &1, line);
        assert_same_at(&rt, &ended.output.len(), &0, line);
        assert_items(&rt, ended.errors.as_slice(), said.as_bytes());
    }
    Ok(())
}

/// A broker serves where its file has no user at all.
#[test]
fn an_empty_file(rt: HostRuntime) -> Result<(), Fail> {
    let line = "share_broker serve --port 0 --workers 1 --users /dev/null";
    let ended = ran(&rt, rt.alloc(), line, &mut &b""[..])?;
    assert_same(&rt, &ended.status, &0);
    assert_same(&rt, &ended.output.starts_with(b"listening "), &true);
    Ok(())
}
