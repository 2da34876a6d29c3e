//! Clients over the loopback, byte by byte: a job, a takeover, a session that is resumed, a crowd, a drain, groups that are declared, a bound for each address, sessions that are over, limits of a session and of a keep alive, users, and a port that is taken.

mod admitted;
mod bounded;
mod clients;
mod declared;
mod draining;
mod frames;
mod limited;
mod over;
