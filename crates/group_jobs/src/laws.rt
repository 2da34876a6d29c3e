//! Laws of what became of the messages of a group. Each is the contract of a function that does nothing, stated over the
//! definitions that the contracts of the groups cite.
ghost use Rattle.std.specs.Prelude.{◌≡◌, List};
ghost use Rattle.dispatch_core.specs.GroupState.{GroupState};
ghost use Rattle.dispatch_core.specs.Lawful.{IsLawful};
ghost use Rattle.dispatch_core.specs.declared.event.Job.{Job};
ghost use Rattle.group_jobs.specs.declared.report.Report.{Report};
ghost use Rattle.group_jobs.specs.Reports.{fates_of, times_accepted};
ghost use Rattle.group_jobs.specs.Balance.{Account, AddsUp};
ghost use Rattle.group_jobs.specs.Endings.{AreOrderly, EndsIn};

/// **One fate each.** Where a report has what the places did, and each place is in balance, the report names each accepted
/// job in exactly one of its lists, once, and no other job in any.
pub fn one_fate_law()
    ensures { (accounts : List Account) (report : Report) → AddsUp accounts report → (job : Job) →
        fates_of report job ≡ times_accepted report.accepted.items job }
{}

/// **The end is lawful.** Where, besides, first hand-outs and what was never handed out keep the order of each port, there is
/// a state of the group's state machine which is lawful, as every state that a run leads to is, in which each job is at the
/// spot of the one list that names it, with the place that has it out or settled it, and each place's first hand-outs are its
/// own.
pub fn lawful_end_law()
    ensures { (accounts : List Account) (report : Report) → AddsUp accounts report → AreOrderly accounts report →
        (state : GroupState) × EndsIn accounts report state × IsLawful state }
{}
