//! Tests of `session_desk`: each call once with ample memory, and the answers in some stories.

mod handed;
mod stories;
