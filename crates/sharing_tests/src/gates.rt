//! Tests of `gate_word`.

mod one_thread;
mod threads;
