//! Sorted lists of runs made one.
ghost use Rattle.std.specs.Prelude.{◌≡◌, ◌<◌, ◌≤◌, ◌+◌, ◌++◌, [], length, All, MatchBool, take, vec_len, vec_capacity};
ghost use Rattle.dispatch_core.specs.JobRuns.{jobs_of, IsFilled, NoneTwice, EachBefore, BeginsBefore};
ghost use Rattle.dispatch_core.specs.Joining.{LiesClear, AreJoined, AreTidied};
ghost use Rattle.dispatch_core.specs.Merging.{merged};
ghost use Rattle.dispatch_core.specs.Tiered.{both};

use crate::joining::ends_before;
use crate::runs::Run;
use crate::tiers::Tiers;

/// How many runs are recent at most. They are moved by each job that comes between them.
const RECENT: usize = 128;

/// How many runs the short one of two lists has at most. They are gone over when there are many recent ones, and
/// when they are so many, all runs are gone over once.
const SHORT: usize = 4096;

/// From how many runs in all on a short list is worth its room.
const MANY: usize = 1024;

/// How many recent runs there should be room for, where there is to be room for so many more runs.
pub(crate) fn recent_room(count: usize) -> usize
    ensures some { 1 ≤ count → 1 ≤ result }
    ensures most { result ≤ count }
{
    count.min(RECENT)
}

/// How many runs the short list should have room for, where there is to be room for so many runs in all.
pub(crate) fn short_room(all: usize) -> usize {
    if all < MANY {
        return 0;
    }
    all.min(SHORT)
}

/// Makes room for one more recent run: where there is none, or there are many, they are put to the older ones.
pub(crate) fn make_way(older: &mut Tiers, recent: &mut Vec<Run>)
    requires sorted { EachBefore BeginsBefore (both older.old) }
    requires recent_sorted { EachBefore BeginsBefore recent.old.items }
    requires room { vec_len older.old.long + vec_len older.old.short + vec_len recent.old ≤ vec_capacity older.old.long }
    requires some { 1 ≤ vec_capacity recent.old }
    ensures same { merged (both older.new) recent.new.items ≡ merged (both older.old) recent.old.items }
    ensures way { vec_len recent.new < vec_capacity recent.new }
    ensures older { vec_capacity older.new.long ≡ vec_capacity older.old.long }
    ensures recent { vec_capacity recent.new ≡ vec_capacity recent.old }
{
    if recent.len() >= recent.capacity().min(RECENT) {
        older.take_in(recent);
    }
}

/// Puts sorted runs among sorted runs, and takes them from where they were.
pub(crate) fn settle(settled: &mut Vec<Run>, recent: &mut Vec<Run>)
    requires sorted { EachBefore BeginsBefore settled.old.items }
    requires recent_sorted { EachBefore BeginsBefore recent.old.items }
    requires room { vec_len settled.old + vec_len recent.old ≤ vec_capacity settled.old }
    ensures items { settled.new.items ≡ merged settled.old.items recent.old.items }
    ensures none { recent.new.items ≡ [] }
    ensures settled { vec_capacity settled.new ≡ vec_capacity settled.old }
    ensures recent { vec_capacity recent.new ≡ vec_capacity recent.old }
{
    merge_into(settled, recent);
    recent.clear();
}

/// Puts sorted runs among sorted runs, in one pass from the end. It takes no memory: there is room for them.
pub(crate) fn merge_into(runs: &mut Vec<Run>, more: &[Run])
    requires sorted { EachBefore BeginsBefore runs.old.items }
    requires more_sorted { EachBefore BeginsBefore more.now }
    requires room { vec_len runs.old + length more.now ≤ vec_capacity runs.old }
    ensures items { runs.new.items ≡ merged runs.old.items more.now }
    ensures capacity { vec_capacity runs.new ≡ vec_capacity runs.old }
{
    let mut front = runs.len();
    let mut back = more.len();
    append(runs, more);
    while back > 0 {
        let run = more[back - 1];
        if front > 0 && !runs[front - 1].begins_by(run.first()) {
            runs[front + back - 1] = runs[front - 1];
            front -= 1;
        } else {
            runs[front + back - 1] = run;
            back -= 1;
        }
    }
}

/// Puts more runs after these. It takes no memory: there is room for them.
fn append(runs: &mut Vec<Run>, more: &[Run])
    requires { vec_len runs.old + length more.now ≤ vec_capacity runs.old }
    ensures items { runs.new.items ≡ runs.old.items ++ more.now }
    ensures capacity { vec_capacity runs.new ≡ vec_capacity runs.old }
{
    for run in more {
        runs.push_reserved(*run);
    }
}

/// Joins sorted runs that touch, where no job is in two of them. Where some is, they stay, and it tells so.
pub(crate) fn tidy(runs: &mut Vec<Run>) -> bool
    requires filled { All IsFilled runs.old.items }
    requires sorted { EachBefore BeginsBefore runs.old.items }
    ensures tidied { AreTidied runs.old.items runs.new.items result }
    ensures capacity { vec_capacity runs.new ≡ vec_capacity runs.old }
{
    if have_common(runs) {
        return true;
    }
    join_touching(runs);
    false
}

/// Whether some job is in two of these sorted runs.
fn have_common(runs: &[Run]) -> bool
    requires filled { All IsFilled runs.now }
    requires sorted { EachBefore BeginsBefore runs.now }
    ensures { MatchBool result (¬ NoneTwice (jobs_of runs.now)) (EachBefore LiesClear runs.now) }
{
    for place in 1..runs.len() {
        if !runs[place - 1].lies_clear(runs[place]) {
            return true;
        }
    }
    false
}

/// Joins runs that touch, of sorted ones that have no job in common.
fn join_touching(runs: &mut Vec<Run>)
    requires filled { All IsFilled runs.old.items }
    requires clear { EachBefore LiesClear runs.old.items }
    ensures joined { AreJoined runs.old.items runs.new.items }
    ensures capacity { vec_capacity runs.new ≡ vec_capacity runs.old }
{
    let mut kept = 0;
    for place in 0..runs.len() {
        let run = runs[place];
        let (joined, _rest) = runs.split_at(kept);
        if ends_before(joined, run.first()) {
            runs[kept - 1].last = run.last;
        } else {
            runs[kept] = run;
            kept += 1;
        }
    }
    runs.truncate(kept);
}
