//! What no clause says: the window's part of two worked examples, a window that is full, the end of
//! a session whose items can be neither copied nor dropped, and that each call succeeds with ample
//! memory.
ghost use Rattle.member_window.specs.Calls.{Resends};

use crate::asserting::assert_same;
use limits::MOST_UNACKNOWLEDGED;
use member_window::Window;
use std::test::Fail;

/// An item that can be neither copied nor dropped.
struct Job {
    number: u16,
}

/// Begins a connection of a session that isn't ending.
pub fn connect<T>(window: &mut Window<T>, receive_maximum: u16) {
    if !window.retired() {
        window.up(receive_maximum);
    }
}

/// Acknowledges an item of a session that isn't ending.
pub fn acknowledge<T>(window: &mut Window<T>, identifier: u16) -> Option<T> {
    if window.retired() {
        return None;
    }
    window.ack(identifier)
}

/// Sends the next waiting item again. A caller knows the window once the loan is over.
fn resend(window: &mut Window<u8>) -> Option<(u16, u8)>
    ensures { Resends window.old result window.new }
{
    let (identifier, item) = window.next_resend()?;
    Some((identifier, *item))
}

#[test]
fn receive_maximum_of_one(rt: HostRuntime) -> Result<(), Fail> {
    let mut window = Window::new(rt.alloc())?;
    assert!(rt; !window.room());
    connect(&mut window, 1);
    assert_same(&rt, &window.put(0x41), &Ok(1));
    assert!(rt; !window.room());
    assert_same(&rt, &window.put(0x42), &Err(0x42));
    assert_same(&rt, &acknowledge(&mut window, 1), &Some(0x41));
    assert_same(&rt, &window.put(0x42), &Ok(1));
    assert_same(&rt, &window.put(0x43), &Err(0x43));
    assert_same(&rt, &acknowledge(&mut window, 2), &None);
    assert_same(&rt, &window.len(), &1);
    Ok(())
}

#[test]
fn resume(rt: HostRuntime) -> Result<(), Fail> {
    let mut window = Window::new(rt.alloc())?;
    connect(&mut window, 10);
    for (item, identifier) in [(0x41, 1), (0x42, 2), (0x43, 3), (0x44, 4), (0x45, 5)] {
        assert_same(&rt, &window.put(item), &Ok(identifier));
    }
    window.down();
    assert!(rt; !window.is_up());
    connect(&mut window, 2);
    assert_same(&rt, &resend(&mut window), &Some((1, 0x41)));
    assert_same(&rt, &resend(&mut window), &Some((2, 0x42)));
    // What is settled, and what is sent again then: identifier 5 waited.
    for (settled, item, next) in [
        (5, 0x45, None),
        (1, 0x41, Some((3, 0x43))),
        (2, 0x42, Some((4, 0x44))),
        (3, 0x43, None),
    ] {
        assert_same(&rt, &resend(&mut window), &None);
        assert_same(&rt, &acknowledge(&mut window, settled), &Some(item));
        assert_same(&rt, &resend(&mut window), &next);
    }
    assert_same(&rt, &window.put(0x46), &Ok(1));
    assert_same(
        &rt,
        &window.get(0).map(|(identifier, item)| (identifier, *item)),
        &Some((4, 0x44)),
    );
    assert_same(
        &rt,
        &window.get(1).map(|(identifier, item)| (identifier, *item)),
        &Some((1, 0x46)),
    );
    Ok(())
}

#[test]
fn full_window(rt: HostRuntime) -> Result<(), Fail> {
    let mut window = Window::new(rt.alloc())?;
    connect(&mut window, 65_535);
    for identifier in 1..257u16 {
        assert_same(&rt, &window.put(identifier), &Ok(identifier));
    }
    assert_same(&rt, &window.put(257), &Err(257));
    assert_same(&rt, &acknowledge(&mut window, 7), &Some(7));
    assert_same(&rt, &window.put(258), &Ok(7));
    assert_same(&rt, &window.len(), &MOST_UNACKNOWLEDGED);
    Ok(())
}

/// Takes the first item of a session without a connection: its identifier and its number.
fn take(window: &mut Window<Job>) -> Option<(u16, u16)> {
    if window.is_up() {
        return None;
    }
    let (identifier, Job { number }) = window.take_first()?;
    Some((identifier, number))
}

/// Takes the first item of a session without a connection, and puts it back.
fn take_and_restore(window: &mut Window<Job>) {
    if window.is_up() {
        return;
    }
    if let Some((identifier, job)) = window.take_first() {
        window.restore(identifier, job);
    }
}

#[test]
fn ending_session(rt: HostRuntime) {
    let mut window = match Window::new(rt.alloc()) {
        Ok(window) => window,
        Err(refusal) => {
            assert_same(&rt, &refusal.number(), &602);
            return;
        }
    };
    connect(&mut window, 2);
    for number in [8, 9, 10] {
        match window.put(Job { number }) {
            Ok(identifier) => assert_same(&rt, &identifier, &(number - 7)),
            Err(Job { number }) => assert_same(&rt, &number, &10),
        }
    }
    window.down();
    assert!(rt; !window.retired());
    take_and_restore(&mut window);
    assert!(rt; window.retired());
    assert_same(&rt, &take(&mut window), &Some((1, 8)));
    take_and_restore(&mut window);
    assert_same(&rt, &take(&mut window), &Some((2, 9)));
    assert_same(&rt, &take(&mut window), &None);
    assert!(rt; window.is_empty());
    window.end();
}
