//! The window and the plain list answer alike, whatever is called.
ghost use Rattle.member_window.specs.Calls.{Resends};

use crate::asserting::assert_same;
use crate::windows::plain_window::PlainWindow;
use crate::windows::sessions::{acknowledge, connect};
use member_window::Window;
use std::test::Fail;

/// How many calls are made while the session goes on, and how many in all.
const LIVE: u32 = 9_000;

const CALLS: u32 = 10_000;

/// How many calls are made of one kind, mostly, before the other: of `put` to fill the window, and of `ack` to empty
/// it.
const TIDE: u32 = 1_500;

/// A number that looks like any other, made of the number of the call.
fn mixed(call: u32) -> u32 {
    let once = (call ^ (call >> 16)).wrapping_mul(0x45d9_f3b);
    let twice = (once ^ (once >> 16)).wrapping_mul(0x45d9_f3b);
    twice ^ (twice >> 16)
}

/// Sends the next waiting item again. A caller knows the window once the loan is over.
fn resend(window: &mut Window<u32>) -> Option<(u16, u32)>
    ensures { Resends window.old result window.new }
{
    let (identifier, item) = window.next_resend()?;
    Some((identifier, *item))
}

/// Makes a call of both while the session goes on, and says whether they answer alike.
fn live_call(window: &mut Window<u32>, plain: &mut PlainWindow, call: u32) -> bool {
    let number = mixed(call);
    let fills = call / TIDE % 2 == 0;
    match number % 1_024 {
        kind if kind < 6 => {
            let receive_maximum = [1u16, 20, 300, 65_535, 65_535, 65_535][kind as usize];
            connect(window, receive_maximum);
            plain.up(receive_maximum);
            true
        }
        6 => {
            window.down();
            plain.down();
            true
        }
        kind if kind < 320 => resend(window) == plain.next_resend(),
        kind if (kind < 900) == fills => window.put(call) == plain.put(call),
        _ => {
            let identifier = ((number >> 8) % 258) as u16;
            acknowledge(window, identifier) == plain.ack(identifier)
        }
    }
}

/// Takes the first item of both, puts every third back, and says whether they answer alike.
fn ending_call(window: &mut Window<u32>, plain: &mut PlainWindow, call: u32) -> bool {
    if window.is_up() {
        return false;
    }
    let first = window.take_first();
    if first != plain.take_first() {
        return false;
    }
    let Some((identifier, item)) = first else {
        return true;
    };
    if call % 3 != 0 {
        return true;
    }
    window.restore(identifier, item);
    plain.restore(identifier, item).is_ok()
}

/// Whether both hold the same entries in the same order.
fn hold_alike(window: &Window<u32>, plain: &PlainWindow) -> bool {
    let len = window.len();
    if len != plain.len() {
        return false;
    }
    for place in 0..len {
        let entry = window
            .get(place)
            .map(|(identifier, item)| (identifier, *item));
        if entry != plain.get(place) {
            return false;
        }
    }
    true
}

#[test]
fn window_and_list_answer_alike(rt: HostRuntime) -> Result<(), Fail> {
    let mut window = Window::new(rt.alloc())?;
    let mut plain = PlainWindow::new(rt.alloc())?;
    connect(&mut window, 65_535);
    plain.up(65_535);
    let mut most = 0;
    for call in 0..LIVE {
        assert!(rt; live_call(&mut window, &mut plain, call), "call {call}");
        assert!(rt; hold_alike(&window, &plain), "after call {call}");
        most = window.len().max(most);
    }
    assert_same(&rt, &most, &256);
    window.down();
    plain.down();
    for call in LIVE..CALLS {
        assert!(rt; ending_call(&mut window, &mut plain, call), "call {call}");
        assert!(rt; hold_alike(&window, &plain), "after call {call}");
    }
    assert!(rt; window.is_empty());
    Ok(())
}
