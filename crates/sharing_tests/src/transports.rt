//! Tests of `transport`: each call once with ample memory, and some stories over scripts.

mod stories;
