//! Two threads bind the same shares at once, in opposite orders, and are given the same slots.
use crate::asserting::assert_same;
use crate::routes::one_thread::{SHARES, bound};
use shared_routes::{KnownRoutes, NewShares, SharedRoutes};
use std::alloc::Global;
use std::thread::{Threads, join};

/// A worker that bound eight shares, the first one first or the last one first.
fn worker(alloc: Global, routes: &SharedRoutes, is_backwards: bool) -> Option<KnownRoutes<'_>> {
    let mut known = KnownRoutes::new(alloc, routes).ok()?;
    for place in 0..8usize {
        let at = if is_backwards { 7 - place } else { place };
        bound(alloc, &mut known, SHARES[at])?.ok()?;
    }
    Some(known)
}

/// How many shares the two workers know alike.
fn alike<R: Threads + Sync>(rt: &R, alloc: Global) -> Option<usize> {
    let routes = SharedRoutes::new(alloc, NewShares::Bound);
    let (one, other) = join(
        rt,
        || worker(alloc, &routes, false),
        || worker(alloc, &routes, true),
    );
    let (one, other) = (one?, other?);
    let mut count = 0usize;
    for text in SHARES.iter().take(8) {
        let share = crate::routes::one_thread::share(*text)?;
        let slot = one.find(&share);
        if slot.is_some() && slot == other.find(&share) {
            count = count.saturating_add(1);
        }
    }
    Some(count)
}

fn crosses_threads<T: Send>() {}

fn is_shared_by_threads<T: Sync>() {}

#[test]
fn who_bind_at_once_agree(rt: HostRuntime) {
    for _ in 0..20u32 {
        assert_same(&rt, &alike(&rt, rt.alloc()), &Some(8));
    }
}

#[test]
fn what_threads_may_do_with_it() {
    is_shared_by_threads::<SharedRoutes>();
    crosses_threads::<SharedRoutes>();
    crosses_threads::<KnownRoutes<'static>>();
}
