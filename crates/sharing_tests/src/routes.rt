//! Tests of `shared_routes`.

mod one_thread;
mod threads;
