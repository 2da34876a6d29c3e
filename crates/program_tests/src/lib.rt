//! Tests of `program`, each status once and what then stands in the output and on the error output, and of `arguments`, what words ask for. They stand apart,
//! so that neither is proved twice.
#![tactic(auto)]

#[cfg(test)]
mod asserting;
#[cfg(test)]
mod devices;
#[cfg(test)]
mod running;
#[cfg(test)]
mod serving;
#[cfg(test)]
mod serving_ends;
#[cfg(test)]
mod statuses;
#[cfg(test)]
mod user_files;
#[cfg(test)]
mod words;
