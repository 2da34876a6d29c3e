//! Tests of `local_group`.

mod groups;
mod refusals;
