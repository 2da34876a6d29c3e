//! What is written of the outcome of a broker.
ghost use Rattle.std.specs.Prelude.{◌≡◌, true, map, Ok, IfOk, IfErr};
ghost use Rattle.text_io.specs.declared.error.RunError.TheVariants.{Memory};
ghost use Rattle.tcp_server.specs.Lines.{lines_of, report_of, EndsBy, EndsFor};

use crate::reporting::{end_by, let_go_of_all, lines, reports_in};
use crate::serving::ServingEnd;
use broker_groups::{Broker, Ended};
use call_history::HistoryName;
use group_queue::Nobody;
use std::alloc::Global;
use text_io::RunError;
use threaded_broker::Outcome;
use worker_pool::{Network, SourceEnd};

/// What is written of a broker that has ended, and how it ends.
#[derive(Drop)]
pub struct Reported {
    /// The lines of the reports.
    pub text: Vec<u8>,
    /// How it came to its end, where its groups gave all reports; or why they did not.
    pub end: Result<ServingEnd, RunError>,
}

/// What is written of a broker that was served to its end: the lines of the reports that its groups answered, each with the share that is told at the place of its slot, in the order
/// of slots, and none of a group without a report. And how it ends: by how its source ended, and whether its input was read to its end; or why a report is not there.
///
/// # Errors
///
/// [`RunError::Memory`].
pub fn report_outcome<B: Broker<Seen = Nobody>, N: HistoryName, W: Network>(
    alloc: Global,
    outcome: Outcome<'_, B, N, W>,
    is_read: bool,
) -> Result<Reported, RunError>
    ensures lines { IfOk result (λ reported. reported.text.items ≡ lines_of outcome.entry.shares.items (map report_of outcome.entry.ended.answers.items)) }
    ensures ends { IfOk result (λ reported. EndsBy reported.end (map report_of outcome.entry.ended.answers.items)) }
    ensures how { IfOk result (λ reported. EndsFor outcome.entry.taken.end is_read reported.end) }
    ensures read { IfOk result (λ reported. reported.end ≡ Ok ServingEnd.Ended → is_read ≡ true) }
    ensures cause { IfErr result (λ error. error ≡ Memory) }
{
    let Outcome {
        ended: Ended { answers, strangers },
        shares,
        served: _,
        taken,
        pollers: _,
        caller: _,
        drained: _,
    } = outcome;
    let_go_of_all(strangers);
    let reports = reports_in(alloc, answers)?;
    let text = lines(alloc, &shares, &reports)?;
    match end_by(&reports) {
        Ok(()) => {
            let end = end_of(taken.end, is_read)?;
            Ok(Reported { text, end: Ok(end) })
        }
        Err(error) => Ok(Reported {
            text,
            end: Err(error),
        }),
    }
}

/// How a broker came to its end; no thread for one of its workers is lack of memory.
fn end_of(source: SourceEnd, is_read: bool) -> Result<ServingEnd, RunError>
    ensures how { IfOk result (λ end. EndsFor source is_read (Ok end)) }
    ensures ended { IfOk result (λ end. end ≡ ServingEnd.Ended → is_read ≡ true) }
    ensures cause { IfErr result (λ error. error ≡ Memory) }
{
    match source {
        SourceEnd::Untouched => Err(RunError::Memory),
        SourceEnd::Failed => Ok(ServingEnd::NotAccepted),
        SourceEnd::Ended => Ok(if is_read {
            ServingEnd::Ended
        } else {
            ServingEnd::InputFailed
        }),
    }
}
