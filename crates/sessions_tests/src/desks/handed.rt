//! A desk with the sessions that were handed out, for tests. A call that is refused for lack of memory is made again, so
//! that each test passes with any one allocation refused: a refusal leaves the desk as it was.
use crate::spot::Spot;
use bytes::Bytes;
use limits::DEFAULT_SESSIONS;
use session_desk::{All, Attached, Desk, DeskError, Membership, Newcomers, Session};
use std::alloc::Global;
use std::mem;
use std::process::Abort;

/// A session of the tests holds numbers.
pub type TestSession = Session<u32, Spot>;

pub type TestDesk = Desk<u32, Spot>;

/// What came of asking for a session.
#[derive(Clone, Copy, Debug, PartialEq, Eq)]
pub enum Answer {
    New,
    NewOver,
    Resumed,
    Replace(u16),
    Busy,
    Refused(u16),
}

/// What came of asking, and the sessions that were handed out: one for the connection, and one to be retired.
pub struct Handed {
    pub told: Answer,
    pub session: Option<TestSession>,
    pub ended: Option<TestSession>,
}

/// Asks for a session, of which one begins for a newcomer where there is room.
pub fn ask(
    rt: &impl Abort,
    desk: &mut TestDesk,
    connection: u16,
    client: &Bytes,
    clean: bool,
    now: u64,
) -> Handed {
    ask_as(
        rt,
        desk,
        Newcomers::IfRoom(DEFAULT_SESSIONS),
        connection,
        client,
        clean,
        now,
    )
}

/// Asks for a session.
pub fn ask_as(
    rt: &impl Abort,
    desk: &mut TestDesk,
    newcomers: Newcomers,
    connection: u16,
    client: &Bytes,
    clean: bool,
    now: u64,
) -> Handed {
    if connection >= 1_024 || client.len() > 128 {
        panic!(rt; "out of range");
    }
    match desk.attach(newcomers, connection, client, clean, now) {
        Err(DeskError::Memory) => told_by(desk.attach(newcomers, connection, client, clean, now)),
        answer => told_by(answer),
    }
}

/// What an answer hands out.
fn told_by(answer: Result<Attached<u32, Spot>, DeskError>) -> Handed {
    match answer {
        Ok(Attached::New { session, ended }) => Handed {
            told: if ended.is_some() {
                Answer::NewOver
            } else {
                Answer::New
            },
            session: Some(session),
            ended,
        },
        Ok(Attached::Resumed(session)) => Handed {
            told: Answer::Resumed,
            session: Some(session),
            ended: None,
        },
        Ok(Attached::Replace(holder)) => empty(Answer::Replace(holder)),
        Ok(Attached::Busy) => empty(Answer::Busy),
        Err(error) => empty(Answer::Refused(error.number())),
    }
}

fn empty(told: Answer) -> Handed {
    Handed {
        told,
        session: None,
        ended: None,
    }
}

/// The session, where only one was handed out.
pub fn only(rt: &impl Abort, handed: Handed, told: Answer) -> TestSession {
    if handed.told != told {
        panic!(rt; "told otherwise");
    }
    let Handed {
        told: _,
        session,
        ended,
    } = handed;
    match (session, ended) {
        (Some(session), None) => session,
        (_session, _ended) => panic!(rt; "not one session"),
    }
}

/// What was told, where no session was handed out.
pub fn nothing(rt: &impl Abort, handed: Handed) -> Answer {
    let Handed {
        told,
        session,
        ended,
    } = handed;
    match (session, ended) {
        (None, None) => told,
        (_session, _ended) => panic!(rt; "a session"),
    }
}

/// Parks a session with this expiry, which goes on.
pub fn park(
    rt: &impl Abort,
    desk: &mut TestDesk,
    mut session: TestSession,
    seconds: u32,
    now: u64,
) {
    session.expiry.seconds = seconds;
    if session.window.retired() {
        panic!(rt; "an ending session");
    }
    match desk.park(session, now) {
        None => {}
        Some(_session) => panic!(rt; "handed back"),
    }
}

/// Gives a session that is no member this membership.
pub fn join(rt: &impl Abort, session: &mut TestSession, membership: Membership<Spot>) {
    match mem::replace(&mut session.membership, membership) {
        Membership::NotMember => {}
        _before => panic!(rt; "a member already"),
    }
}

/// Begins a connection of a session that isn't ending.
pub fn connect(session: &mut TestSession, receive_maximum: u16) {
    if !session.window.retired() {
        session.window.up(receive_maximum);
    }
}

/// Both sessions that were handed out, with a new one in the place of an old one.
pub fn both(rt: &impl Abort, handed: Handed) -> (TestSession, TestSession) {
    let Handed {
        told: _,
        session,
        ended,
    } = handed;
    match (session, ended) {
        (Some(session), Some(ended)) => (session, ended),
        (_session, _ended) => panic!(rt; "not both"),
    }
}

/// Nothing is to be retired at this moment.
pub fn rests(rt: &impl Abort, desk: &mut TestDesk, now: u64) {
    match desk.sweep(now) {
        None => {}
        Some(_session) => panic!(rt; "a session is to be retired"),
    }
}

/// Ends a session with its connection, and buries it.
pub fn leave(rt: &impl Abort, desk: &mut TestDesk, session: TestSession, now: u64) {
    if session.expiry.seconds != 0 || session.window.retired() {
        panic!(rt; "a session that goes on");
    }
    let ended = desk.park(session, now);
    bury(rt, desk, ended);
}

/// Buries an ending session that holds nothing.
pub fn bury(rt: &impl Abort, desk: &mut TestDesk, session: Option<TestSession>) {
    match session {
        Some(session) => match desk.bury(session) {
            None => {}
            Some(_session) => panic!(rt; "handed back"),
        },
        None => panic!(rt; "no session"),
    }
}

/// Ends a desk, and says how many places and envelopes it had.
pub fn end(rt: &impl Abort, desk: TestDesk) -> (usize, usize) {
    match desk.into_all() {
        Ok(all) => counted(all),
        Err(back) => match back.into_all() {
            Ok(all) => counted(all),
            Err(_desk) => panic!(rt; "out of memory"),
        },
    }
}

fn counted(all: All<u32, Spot>) -> (usize, usize) {
    let All { places, envelopes } = all;
    (places.len(), envelopes.len())
}

/// A desk.
pub fn open(rt: &impl Abort, alloc: Global) -> TestDesk {
    match Desk::new(alloc) {
        Err(DeskError::Memory) => made(rt, Desk::new(alloc)),
        answer => made(rt, answer),
    }
}

fn made(rt: &impl Abort, answer: Result<TestDesk, DeskError>) -> TestDesk {
    match answer {
        Ok(desk) => desk,
        Err(_) => panic!(rt; "out of memory"),
    }
}
