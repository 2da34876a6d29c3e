//! One row of calls, and what its groups report, where each growth is refused in turn.

mod calls;
mod ending;
