//! Tests of `drive` and of `solo`, and over them of the connections and the groups of a server: all scenarios through `drive`, and through `solo` rows of
//! what one client sends and of what it is sent, worked out by hand from the standard. They stand apart, so that no library is proved twice.
#![tactic(auto)]

#[cfg(test)]
mod acting;
#[cfg(test)]
mod clients;
#[cfg(test)]
mod failures;
#[cfg(test)]
mod played;
#[cfg(test)]
mod replies;
#[cfg(test)]
mod scripts;
#[cfg(test)]
mod streams;
#[cfg(test)]
mod subscriptions;
