//! Tests of `shared_desk` and `call_history`.

mod calls;
mod threads;
