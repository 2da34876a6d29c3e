//! The report of a group: what became of its messages.
ghost use Rattle.std.specs.Prelude.{◌≡◌, ◌++◌, ◌*◌, ◌≤◌, IfOk, OnOk, length, sum};
ghost use Rattle.group_jobs.specs.Reports.{labelled};

use crate::ledger::Ledger;
use dispatch_core::Job;
use mqtt_topic::Share;
use std::alloc::{AllocError, Global};

/// What became of the messages of a group: how many each port accepted, and the jobs by what became of them.
#[derive(Debug, Drop, PartialEq)]
pub struct Report {
    /// For each port, how many messages it accepted.
    pub accepted: Vec<u64>,
    /// Those that were acknowledged, those that were refused, and those that were discarded.
    pub settled: Ledger,
    /// Those that were handed out and neither settled nor given back.
    pub held: Vec<Job>,
    /// Those that were never handed out.
    pub queued: Vec<Job>,
    /// Those that were given back and not handed out again.
    pub returned: Vec<Job>,
}

impl Report {
    ghost use Rattle.group_jobs.specs.Reports.{report_line};

    /// The line of a group: its share's text, the counts, and 0A.
    pub fn line(&self, alloc: Global, share: &Share) -> Result<Vec<u8>, AllocError>
        ensures { IfOk result (λ line. line.items ≡ report_line share.now self.now) }
    {
        let mut line = Vec::from_slice(alloc, share.text())?;
        push_count(alloc, &mut line, " accepted ", total(&self.accepted))?;
        push_count(
            alloc,
            &mut line,
            " acknowledged ",
            self.settled.acknowledged.len(),
        )?;
        push_count(alloc, &mut line, " refused ", self.settled.refused.len())?;
        push_count(
            alloc,
            &mut line,
            " held ",
            self.held.as_slice().len() as u128,
        )?;
        push_count(
            alloc,
            &mut line,
            " queued ",
            self.queued.as_slice().len() as u128,
        )?;
        push_count(
            alloc,
            &mut line,
            " returned ",
            self.returned.as_slice().len() as u128,
        )?;
        push_count(
            alloc,
            &mut line,
            " discarded ",
            self.settled.discarded.len(),
        )?;
        line.push(b'\n')?;
        Ok(line)
    }
}

/// The sum of the counts.
fn total(counts: &[u64]) -> u128
    ensures sum { result ≡ sum counts.now }
    ensures bound { result ≤ 18446744073709551615 * length counts.now }
{
    let mut total: u128 = 0;
    for count in counts {
        total += u128::from(*count);
    }
    total
}

/// Adds a label and a count in decimal.
fn push_count(alloc: Global, line: &mut Vec<u8>, label: &str, count: u128) -> Result<(), AllocError>
    ensures { OnOk result (line.new.items ≡ line.old.items ++ labelled label.now count) }
{
    let digits = count.to_string(alloc)?;
    line.extend_from_slice(label.as_bytes())?;
    line.extend_from_slice(digits.as_bytes())?;
    Ok(())
}
