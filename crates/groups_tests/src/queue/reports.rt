//! What a report is to say.

use crate::asserting::{assert_items, assert_same};
use dispatch_core::Job;
use group_jobs::Report;
use std::process::Abort;

/// What a report is to say: what each port accepted, how many messages were acknowledged, none refused or discarded, and which were held, queued and returned.
#[derive(Drop)]
pub struct Wanted {
    pub accepted: &'static [u64],
    pub acknowledged: u128,
    pub held: &'static [Job],
    pub queued: &'static [Job],
    pub returned: &'static [Job],
}

impl Wanted {
    /// That of four messages of one port the first was acknowledged, the second returned, the third held, and the fourth queued.
    pub const ONE_OF_EACH: Wanted = Wanted {
        accepted: &[4],
        acknowledged: 1,
        held: &[Job { port: 0, number: 2 }],
        queued: &[Job { port: 0, number: 3 }],
        returned: &[Job { port: 0, number: 1 }],
    };

    /// A report says this.
    pub fn compare(&self, rt: &impl Abort, report: Report) {
        assert!(rt; report.accepted.as_slice() == self.accepted);
        assert_same(rt, &report.settled.acknowledged.len(), &self.acknowledged);
        assert!(rt; report.settled.refused.is_empty());
        assert!(rt; report.settled.discarded.is_empty());
        assert_items(rt, &report.held, self.held);
        assert_items(rt, &report.queued, self.queued);
        assert_items(rt, &report.returned, self.returned);
        drop(report);
    }
}
