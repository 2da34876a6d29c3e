//! A dispatcher for MQTT 5.0 shared subscriptions: the program `share_broker`.
#![tactic(auto)]

use program::run;
use std::process::ExitCode;
use std::{env, io};

fn main(rt: HostRuntime) -> ExitCode {
    let words = words(&rt);
    let mut output = io::writer(&rt);
    let errors = rt.stderr();
    let exit = run(
        &rt,
        rt.alloc(),
        words,
        &mut rt.reader(),
        &mut output,
        &mut io::writer(&errors),
    );
    ExitCode::from(exit.status)
}

/// The words of the command line; an error where one is no UTF-8 text, or memory was refused.
fn words(rt: &HostRuntime) -> io::Result<Vec<String>> {
    Ok(env::args(rt)?.collect(rt.alloc())?)
}
