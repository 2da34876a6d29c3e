//! Tests of `group_queue`, `group_jobs` and `shared_ledger`.

mod busy_places;
mod finishing;
mod group_ledger;
mod life;
mod long_run;
mod reports;
mod row;
mod threads;
mod values;
