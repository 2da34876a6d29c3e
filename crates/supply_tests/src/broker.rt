//! A broker over `shared_supply` for the tests beside it: it is opened (`opening`), its workers work, on one thread (`worker`) or on threads of their own
//! (`crew`), and it ends and its reports are counted (`ending`). `calls` are those of a supply without connections, each of which is made again where memory is
//! refused; `visits` are pieces and moments of a worker's clients, which send `packets`, and `seen` is what they saw; `shares` are shares by their texts.

pub(crate) mod calls;
pub(crate) mod crew;
pub(crate) mod ending;
pub(crate) mod opening;
pub(crate) mod packets;
pub(crate) mod seen;
pub(crate) mod shares;
pub(crate) mod visits;
pub(crate) mod worker;
