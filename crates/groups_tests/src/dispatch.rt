//! Tests of `dispatch_core`.

mod groups;
mod jobs;
