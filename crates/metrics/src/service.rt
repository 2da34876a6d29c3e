//! What is told of a broker while it runs.
use crate::clients::{add_connections, add_sessions, add_turned_away};
use crate::counts::{SharedCounts, TurnedAway, WorkerCounts};
use crate::exposition::{Kind, add_number};
use crate::jobs::{Group, add_jobs, add_waiting};
use crate::reason_codes::add_all_answers;
use crate::workers::add_workers;
use mqtt_topic::Share;
use shared_supply::GroupCounts;
use std::alloc::{AllocError, Global};
use std::sync::Wait;

/// Who answers requests for metrics: by what the workers of a broker count, and what is known of its groups.
#[derive(Drop)]
pub struct MetricsService<'a, R> {
    pub rt: &'a R,
    pub alloc: Global,
    /// Where each worker puts what it counts.
    pub workers: &'a [SharedCounts],
    /// The shares that are bound from the start, in the order of their slots.
    pub shares: &'a [Share],
    /// How many messages wait in the queue of a group at most.
    pub capacity: u64,
    /// Whom no worker took up.
    pub turned_away: TurnedAway,
}

impl<'a, R: Wait> MetricsService<'a, R> {
    /// All numbers, in Prometheus' text format. They are read while the workers go on, one worker after another: so what stands for all of them together may be late by
    /// a turn of some, and a difference that would be below 0 is told as 0.
    ///
    /// # Errors
    ///
    /// An allocation failed.
    pub fn exposition(&self) -> Result<Vec<u8>, AllocError> {
        let counts = self.counts()?;
        let mut total = WorkerCounts::NONE;
        for worker in &counts {
            total.add(worker);
        }
        let groups = self.groups(&total)?;
        let mut text = Vec::new(self.alloc);
        add_jobs(&mut text, &groups)?;
        add_waiting(&mut text, &groups, self.capacity)?;
        add_connections(&mut text, &total)?;
        add_turned_away(&mut text, &self.turned_away)?;
        add_sessions(&mut text, &total)?;
        add_all_answers(self.alloc, &mut text, &total.answers)?;
        add_workers(self.alloc, &mut text, &counts)?;
        add_number(
            &mut text,
            "share_broker_draining_workers",
            "Workers that accept no job any more, as the broker drains.",
            Kind::Gauge,
            total.draining,
        )?;
        Ok(text)
    }

    /// What each worker has counted.
    fn counts(&self) -> Result<Vec<WorkerCounts>, AllocError> {
        let mut counts = Vec::with_capacity(self.alloc, self.workers.len())?;
        for worker in self.workers {
            counts.push(worker.load(self.rt))?;
        }
        Ok(counts)
    }

    /// The groups to whose slot a share is bound, as far as that is known, and those of which anything was counted.
    fn groups(&self, total: &WorkerCounts) -> Result<Vec<Group>, AllocError> {
        let mut groups = Vec::with_capacity(self.alloc, total.supply.groups.len())?;
        for (slot, jobs) in total.supply.groups.iter().enumerate() {
            if self.share(slot).is_some() || *jobs != GroupCounts::NONE {
                groups.push(Group {
                    name: self.name(slot)?,
                    jobs: *jobs,
                })?;
            }
        }
        Ok(groups)
    }

    /// What the group of a slot is called: by its share, or by its slot where no worker has told that yet.
    fn name(&self, slot: usize) -> Result<Vec<u8>, AllocError> {
        match self.share(slot) {
            Some(text) => Vec::from_slice(self.alloc, text),
            None => Ok(format!(in self.alloc; "slot {slot}")?.into_bytes()),
        }
    }

    /// The text of the share that is bound to a slot: from the start, or by a client, as far as a worker has told it.
    fn share(&self, slot: usize) -> Option<&[u8]> {
        match self.shares.get(slot) {
            Some(share) => Some(share.text()),
            None => self.workers.iter().find_map(|worker| worker.share(slot)),
        }
    }
}
