//! Stories of clients and connections.
use crate::asserting::{assert_items, assert_same};
use crate::desks::handed::{
    Answer, TestDesk, ask, ask_as, both, bury, connect, end, join, leave, nothing, only, open,
    park, rests,
};
use crate::spot::Spot;
use bytes::Bytes;
use limits::DEFAULT_SESSIONS;
use session_desk::{Membership, Newcomers};
use std::alloc::Global;
use std::process::Abort;
use std::test::Fail;

#[test]
fn takeover(rt: HostRuntime) -> Result<(), Fail> {
    let mut desk = open(&rt, rt.alloc());
    let client = Bytes::from_static(b"device");
    let first = only(&rt, ask(&rt, &mut desk, 1, &client, false, 0), Answer::New);
    let second = nothing(&rt, ask(&rt, &mut desk, 2, &client, false, 1));
    let third = nothing(&rt, ask(&rt, &mut desk, 3, &client, false, 2));
    let again = nothing(&rt, ask(&rt, &mut desk, 2, &client, false, 3));
    assert_same(
        &rt,
        &[second, third, again],
        &[Answer::Replace(1), Answer::Busy, Answer::Replace(1)],
    );
    assert!(rt; desk.kicked(1) && !desk.kicked(2) && !desk.kicked(3));
    park(&rt, &mut desk, first, 3_600, 4);
    let resumed = only(
        &rt,
        ask(&rt, &mut desk, 2, &client, false, 5),
        Answer::Resumed,
    );
    let third = nothing(&rt, ask(&rt, &mut desk, 3, &client, false, 6));
    desk.withdraw(3);
    let first = nothing(&rt, ask(&rt, &mut desk, 1, &client, false, 7));
    assert_same(
        &rt,
        &[third, first],
        &[Answer::Replace(2), Answer::Replace(2)],
    );
    assert!(rt; desk.kicked(2));
    park(&rt, &mut desk, resumed, 1, 8);
    assert_same(&rt, &end(&rt, desk), &(0, 0));
    Ok(())
}

#[test]
fn expiry(rt: HostRuntime) -> Result<(), Fail> {
    let mut desk = open(&rt, rt.alloc());
    let client = Bytes::from_static(b"device");
    let session = only(&rt, ask(&rt, &mut desk, 1, &client, false, 0), Answer::New);
    park(&rt, &mut desk, session, 3_600, 50);
    rests(&rt, &mut desk, 50 + 3_599_999);
    let due = desk.sweep(50 + 3_600_000);
    bury(&rt, &mut desk, due);
    let session = only(&rt, ask(&rt, &mut desk, 1, &client, false, 0), Answer::New);
    park(&rt, &mut desk, session, u32::MAX, 0);
    rests(&rt, &mut desk, u64::MAX);
    assert_same(&rt, &end(&rt, desk), &(0, 0));
    Ok(())
}

#[test]
fn clean_start(rt: HostRuntime) -> Result<(), Fail> {
    let mut desk = open(&rt, rt.alloc());
    let client = Bytes::from_static(b"device");
    let mut session = only(&rt, ask(&rt, &mut desk, 1, &client, false, 0), Answer::New);
    connect(&mut session, 1);
    assert_same(&rt, &session.window.put(7), &Ok(1));
    session.window.down();
    park(&rt, &mut desk, session, 60, 0);
    let (new, ended) = both(&rt, ask(&rt, &mut desk, 2, &client, true, 1));
    assert!(rt; new.window.is_empty());
    assert_same(&rt, &ended.window.len(), &1);
    assert_same(
        &rt,
        &[ended.identity.number(), new.identity.number()],
        &[0, 1],
    );
    // Its retirement finds no memory, and goes on at a later sweep.
    match desk.keep(ended) {
        None => {}
        Some(_back) => panic!(rt; "handed back"),
    }
    leave(&rt, &mut desk, new, 2);
    match desk.sweep(3) {
        Some(mut ended) => {
            if !ended.window.is_up() {
                assert_same(&rt, &ended.window.take_first(), &Some((1, 7)));
            }
            bury(&rt, &mut desk, Some(ended));
        }
        None => panic!(rt; "no session"),
    }
    assert_same(&rt, &end(&rt, desk), &(0, 0));
    Ok(())
}

#[test]
fn names(rt: HostRuntime) -> Result<(), Fail> {
    let mut desk = open(&rt, rt.alloc());
    let none = Bytes::from_static(b"");
    let second = Bytes::from_static(b"auto-00000002");
    let taken = only(&rt, ask(&rt, &mut desk, 1, &second, false, 0), Answer::New);
    let one = only(&rt, ask(&rt, &mut desk, 2, &none, false, 0), Answer::New);
    let three = only(&rt, ask(&rt, &mut desk, 3, &none, false, 0), Answer::New);
    assert_items(
        &rt,
        one.identity.client().as_slice(),
        b"auto-00000001".as_slice(),
    );
    assert_items(
        &rt,
        three.identity.client().as_slice(),
        b"auto-00000003".as_slice(),
    );
    leave(&rt, &mut desk, one, 1);
    leave(&rt, &mut desk, three, 1);
    let four = only(&rt, ask(&rt, &mut desk, 3, &none, false, 2), Answer::New);
    assert_items(
        &rt,
        four.identity.client().as_slice(),
        b"auto-00000004".as_slice(),
    );
    leave(&rt, &mut desk, four, 3);
    leave(&rt, &mut desk, taken, 3);
    assert_same(&rt, &end(&rt, desk), &(0, 0));
    Ok(())
}

#[test]
fn places(rt: HostRuntime) -> Result<(), Fail> {
    let mut desk = open(&rt, rt.alloc());
    for place in [Spot::Second, Spot::First] {
        assert_same(&rt, &desk.take_place(place), &None);
    }
    assert_same(&rt, &desk.take_place(Spot::First), &Some(Spot::First));
    assert_same(&rt, &desk.lend_place(4), &None);
    assert_same(&rt, &desk.lend_place(3), &Some(Spot::First));
    assert_same(&rt, &desk.lend_place(3), &Some(Spot::Second));
    assert_same(&rt, &desk.lend_place(3), &None);
    let client = Bytes::from_static(b"member");
    let mut session = only(&rt, ask(&rt, &mut desk, 1, &client, false, 0), Answer::New);
    join(&rt, &mut session, Membership::Member(Spot::Second));
    leave(&rt, &mut desk, session, 1);
    assert_same(&rt, &desk.lend_place(3), &Some(Spot::Second));
    assert_same(&rt, &desk.take_place(Spot::First), &None);
    let mut session = only(&rt, ask(&rt, &mut desk, 1, &client, false, 2), Answer::New);
    join(&rt, &mut session, Membership::Leaving(Spot::Second));
    connect(&mut session, 9);
    assert_same(&rt, &session.window.put(5), &Ok(1));
    park(&rt, &mut desk, session, 60, 3);
    assert_same(&rt, &end(&rt, desk), &(2, 1));
    Ok(())
}

#[test]
fn abandoned(rt: HostRuntime) -> Result<(), Fail> {
    let mut desk = open(&rt, rt.alloc());
    assert_same(&rt, &desk.take_place(Spot::First), &None);
    let client = Bytes::from_static(b"member");
    let mut session = only(&rt, ask(&rt, &mut desk, 1, &client, false, 0), Answer::New);
    join(&rt, &mut session, Membership::Member(Spot::Second));
    connect(&mut session, 2);
    assert_same(&rt, &session.window.put(5), &Ok(1));
    assert_same(&rt, &session.window.put(6), &Ok(2));
    park(&rt, &mut desk, session, 60, 1);
    desk.abandon();
    Ok(())
}

/// The identifier of the client with this number.
fn client_of(rt: &impl Abort, alloc: Global, number: u16) -> Bytes {
    let bytes = number.to_be_bytes();
    match Bytes::copy_from_slice(alloc, &bytes).or_else(|_| Bytes::copy_from_slice(alloc, &bytes)) {
        Ok(client) => client,
        Err(_) => panic!(rt; "out of memory"),
    }
}

/// Asks for a session of each of 256 clients, and parks each.
fn fill(rt: &impl Abort, alloc: Global, desk: &mut TestDesk) {
    for number in 0..256u16 {
        let client = client_of(rt, alloc, number);
        let session = only(rt, ask(rt, desk, number, &client, false, 0), Answer::New);
        park(rt, desk, session, 60, 0);
    }
}

#[test]
fn full(rt: HostRuntime) -> Result<(), Fail> {
    let known = client_of(&rt, rt.alloc(), 7);
    let further = client_of(&rt, rt.alloc(), 256);
    let mut desk = open(&rt, rt.alloc());
    fill(&rt, rt.alloc(), &mut desk);
    let refused = nothing(&rt, ask(&rt, &mut desk, 1, &further, false, 1));
    assert_same(&rt, &refused, &Answer::Refused(701));
    let resumed = only(
        &rt,
        ask(&rt, &mut desk, 1, &known, false, 1),
        Answer::Resumed,
    );
    park(&rt, &mut desk, resumed, 60, 2);
    // A client begins anew in the place of its own session, however many there are.
    let (new, ended) = both(&rt, ask(&rt, &mut desk, 1, &known, true, 3));
    bury(&rt, &mut desk, Some(ended));
    park(&rt, &mut desk, new, 60, 4);
    let refused = nothing(&rt, ask(&rt, &mut desk, 1, &further, false, 5));
    assert_same(&rt, &refused, &Answer::Refused(701));
    assert_same(&rt, &end(&rt, desk), &(0, 0));
    Ok(())
}

/// Asks for a session of a client, and parks it at this moment with a member's place and one that holds something, or without.
fn busy(rt: &impl Abort, desk: &mut TestDesk, client: &Bytes, place: Option<Spot>, now: u64) {
    let mut session = only(rt, ask(rt, desk, 1, client, false, now), Answer::Resumed);
    match place {
        Some(place) => join(rt, &mut session, Membership::Member(place)),
        None => {
            connect(&mut session, 1);
            assert_same(rt, &session.window.put(7), &Ok(1));
            session.window.down();
        }
    }
    park(rt, desk, session, 600, now);
}

#[test]
fn displaced(rt: HostRuntime) -> Result<(), Fail> {
    let none = Bytes::from_static(b"");
    let first = client_of(&rt, rt.alloc(), 0);
    let second = client_of(&rt, rt.alloc(), 1);
    let third = client_of(&rt, rt.alloc(), 2);
    let fourth = client_of(&rt, rt.alloc(), 3);
    let further = client_of(&rt, rt.alloc(), 256);
    let mut desk = open(&rt, rt.alloc());
    fill(&rt, rt.alloc(), &mut desk);
    // One has a place, one holds something, and one was parked later than the others: the next one has been parked longest.
    busy(&rt, &mut desk, &first, Some(Spot::First), 0);
    busy(&rt, &mut desk, &second, None, 0);
    let resumed = only(
        &rt,
        ask(&rt, &mut desk, 1, &third, false, 1),
        Answer::Resumed,
    );
    park(&rt, &mut desk, resumed, 600, 9);
    let refused = nothing(
        &rt,
        ask_as(&rt, &mut desk, Newcomers::Refused, 1, &further, false, 10),
    );
    assert_same(&rt, &refused, &Answer::Refused(701));
    let (new, ended) = both(
        &rt,
        ask_as(
            &rt,
            &mut desk,
            Newcomers::Displace(DEFAULT_SESSIONS),
            1,
            &further,
            false,
            10,
        ),
    );
    assert_items(&rt, ended.identity.client().as_slice(), fourth.as_slice());
    bury(&rt, &mut desk, Some(ended));
    leave(&rt, &mut desk, new, 11);
    // There is room again: none goes.
    let new = only(
        &rt,
        ask_as(
            &rt,
            &mut desk,
            Newcomers::Displace(DEFAULT_SESSIONS),
            1,
            &none,
            false,
            12,
        ),
        Answer::New,
    );
    let (named, ended) = both(
        &rt,
        ask_as(
            &rt,
            &mut desk,
            Newcomers::Displace(DEFAULT_SESSIONS),
            2,
            &none,
            false,
            13,
        ),
    );
    assert_items(
        &rt,
        named.identity.client().as_slice(),
        b"auto-00000002".as_slice(),
    );
    assert_same(&rt, &ended.identity.number(), &4);
    bury(&rt, &mut desk, Some(ended));
    leave(&rt, &mut desk, named, 14);
    leave(&rt, &mut desk, new, 14);
    assert_same(&rt, &end(&rt, desk), &(1, 1));
    Ok(())
}

#[test]
fn as_many_as_it_is_told_to_keep(rt: HostRuntime) -> Result<(), Fail> {
    let first = client_of(&rt, rt.alloc(), 0);
    let second = client_of(&rt, rt.alloc(), 1);
    let third = client_of(&rt, rt.alloc(), 2);
    let mut desk = open(&rt, rt.alloc());
    let one = Newcomers::IfRoom(1);
    let session = only(
        &rt,
        ask_as(&rt, &mut desk, one, 1, &first, false, 0),
        Answer::New,
    );
    park(&rt, &mut desk, session, 600, 0);
    let refused = nothing(&rt, ask_as(&rt, &mut desk, one, 2, &second, false, 1));
    assert_same(&rt, &refused, &Answer::Refused(701));
    let many = Newcomers::IfRoom(u32::MAX);
    let more = only(
        &rt,
        ask_as(&rt, &mut desk, many, 2, &second, false, 1),
        Answer::New,
    );
    leave(&rt, &mut desk, more, 2);
    // There are as many as one again, and the one that is parked goes.
    let displacing = Newcomers::Displace(1);
    let (new, ended) = both(&rt, ask_as(&rt, &mut desk, displacing, 3, &third, false, 3));
    assert_items(&rt, ended.identity.client().as_slice(), first.as_slice());
    bury(&rt, &mut desk, Some(ended));
    leave(&rt, &mut desk, new, 4);
    assert_same(&rt, &end(&rt, desk), &(0, 0));
    Ok(())
}

#[test]
fn none_goes_that_is_in_use(rt: HostRuntime) -> Result<(), Fail> {
    let further = client_of(&rt, rt.alloc(), 256);
    let known = client_of(&rt, rt.alloc(), 7);
    let mut desk = open(&rt, rt.alloc());
    fill(&rt, rt.alloc(), &mut desk);
    'clients: for number in 0..256u16 {
        let client = client_of(&rt, rt.alloc(), number);
        busy(&rt, &mut desk, &client, None, 1);
    }
    let refused = nothing(
        &rt,
        ask_as(
            &rt,
            &mut desk,
            Newcomers::Displace(DEFAULT_SESSIONS),
            1,
            &further,
            false,
            2,
        ),
    );
    assert_same(&rt, &refused, &Answer::Refused(701));
    let resumed = only(
        &rt,
        ask_as(&rt, &mut desk, Newcomers::Refused, 1, &known, false, 2),
        Answer::Resumed,
    );
    park(&rt, &mut desk, resumed, 600, 3);
    assert_same(&rt, &end(&rt, desk), &(0, 256));
    Ok(())
}
