//! Runs of the program.
use crate::words::words_of;
use program::run;
use std::alloc::{AllocError, Global};
use std::io::Read;
use std::net::Net;
use std::random::RandomSource;
use std::rt::{Clock, Files};
use std::sync::Wait;
use std::thread::Threads;

/// How the program ended.
#[derive(Drop)]
pub(crate) struct Ended {
    pub(crate) status: u8,
    pub(crate) output: Vec<u8>,
    pub(crate) errors: Vec<u8>,
}

/// The program, run with these words on this input.
pub(crate) fn ran<H: Threads + Wait + Net + Clock + Files + RandomSource + Sync, R: Read + Send>(
    rt: &H,
    alloc: Global,
    line: &str,
    reader: &mut R,
) -> Result<Ended, AllocError> {
    let words = words_of(alloc, line)?;
    let mut output = Vec::new(alloc);
    let mut errors = Vec::new(alloc);
    let exit = run(rt, alloc, Ok(words), reader, &mut output, &mut errors);
    Ok(Ended {
        status: exit.status,
        output,
        errors,
    })
}

/// Whether a text has this part.
pub(crate) fn has(text: &[u8], part: &str) -> bool {
    match std::str::from_utf8(text) {
        Ok(text) => text.contains(part),
        Err(_) => false,
    }
}
