//! Workers in threads of their own, each with a publisher and a member, and what their groups report then.

mod pair;
mod workers;
