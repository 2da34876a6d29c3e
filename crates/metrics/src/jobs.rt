//! The jobs of each group.
use crate::exposition::{Kind, Label, add_family, add_sample};
use shared_supply::GroupCounts;
use std::alloc::AllocError;

/// A group, as it is told of.
#[derive(Drop)]
pub(crate) struct Group {
    pub(crate) name: Vec<u8>,
    pub(crate) jobs: GroupCounts,
}

impl Group {
    fn label(&self) -> Label<'_> {
        Label {
            name: "group",
            value: &self.name,
        }
    }
}

/// Adds a family with a number for each group.
fn add_per_group<F: Fn(&GroupCounts) -> u64>(
    text: &mut Vec<u8>,
    name: &str,
    help: &str,
    kind: Kind,
    groups: &[Group],
    number: F,
) -> Result<(), AllocError>
    requires { F.IsAlwaysCallable number }
{
    add_family(text, name, help, kind)?;
    for group in groups {
        add_sample(text, name, &[group.label()], number(&group.jobs))?;
    }
    Ok(())
}

/// Adds what became of the jobs of each group.
pub(crate) fn add_jobs(text: &mut Vec<u8>, groups: &[Group]) -> Result<(), AllocError> {
    add_per_group(
        text,
        "share_broker_jobs_accepted_total",
        "Jobs that were accepted into the queue of their group.",
        Kind::Counter,
        groups,
        |jobs| jobs.accepted,
    )?;
    add_not_accepted(text, groups)?;
    add_handed_out(text, groups)?;
    add_per_group(
        text,
        "share_broker_jobs_given_back_total",
        "Jobs that went back to their group, as the session that held them ended.",
        Kind::Counter,
        groups,
        |jobs| jobs.given_back,
    )?;
    add_settled(text, groups)
}

/// Adds a number of a group that has a second label.
fn add_part(
    text: &mut Vec<u8>,
    name: &str,
    group: &Group,
    label: &'static str,
    value: &str,
    number: u64,
) -> Result<(), AllocError> {
    let part = Label {
        name: label,
        value: value.as_bytes(),
    };
    add_sample(text, name, &[group.label(), part], number)
}

fn add_not_accepted(text: &mut Vec<u8>, groups: &[Group]) -> Result<(), AllocError> {
    let name = "share_broker_jobs_not_accepted_total";
    let help = "Jobs that matched the group and were not accepted into its queue.";
    add_family(text, name, help, Kind::Counter)?;
    for group in groups {
        add_part(text, name, group, "reason", "queue_full", group.jobs.full)?;
        add_part(text, name, group, "reason", "draining", group.jobs.shut)?;
    }
    Ok(())
}

fn add_handed_out(text: &mut Vec<u8>, groups: &[Group]) -> Result<(), AllocError> {
    let name = "share_broker_jobs_handed_out_total";
    let help =
        "Jobs that were taken from the queue for a member, for the first time or again after they were given back; those that are discarded in their turn are among them.";
    add_family(text, name, help, Kind::Counter)?;
    for group in groups {
        add_part(text, name, group, "kind", "first", group.jobs.handed)?;
        add_part(text, name, group, "kind", "again", group.jobs.handed_again)?;
    }
    Ok(())
}

fn add_settled(text: &mut Vec<u8>, groups: &[Group]) -> Result<(), AllocError> {
    let name = "share_broker_jobs_settled_total";
    let help = "Jobs that were acknowledged or refused by a member, or discarded in their turn.";
    add_family(text, name, help, Kind::Counter)?;
    for group in groups {
        let jobs = &group.jobs;
        add_part(text, name, group, "fate", "acknowledged", jobs.acknowledged)?;
        add_part(text, name, group, "fate", "refused", jobs.refused)?;
        add_part(text, name, group, "fate", "discarded", jobs.discarded)?;
    }
    Ok(())
}

/// Adds where the jobs of each group are now.
pub(crate) fn add_waiting(
    text: &mut Vec<u8>,
    groups: &[Group],
    capacity: u64,
) -> Result<(), AllocError> {
    add_per_group(
        text,
        "share_broker_jobs_queued",
        "Jobs that were never handed out.",
        Kind::Gauge,
        groups,
        |jobs| jobs.queued(),
    )?;
    add_per_group(
        text,
        "share_broker_jobs_returned",
        "Jobs that were given back and not handed out again.",
        Kind::Gauge,
        groups,
        |jobs| jobs.returned(),
    )?;
    add_per_group(
        text,
        "share_broker_jobs_held",
        "Jobs that a member has and has not settled.",
        Kind::Gauge,
        groups,
        |jobs| jobs.held(),
    )?;
    add_per_group(
        text,
        "share_broker_members",
        "Sessions that are members of the group, with their client connected or away, and those that have left it and still hold jobs of it.",
        Kind::Gauge,
        groups,
        |jobs| jobs.members(),
    )?;
    add_per_group(
        text,
        "share_broker_queue_room",
        "Jobs that the queue of the group still takes.",
        Kind::Gauge,
        groups,
        |jobs| capacity.saturating_sub(jobs.queued()),
    )
}
