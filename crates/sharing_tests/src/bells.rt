//! Tests of `bell`.

mod one_thread;
mod threads;
