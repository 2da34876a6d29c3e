//! Tests of `member_window`.

mod alike;
mod plain_window;
mod sessions;
