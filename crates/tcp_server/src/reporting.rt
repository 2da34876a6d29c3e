//! What is written of a broker that has ended.
ghost use Rattle.std.specs.Prelude.{◌≡◌, ◌≤◌, ◌++◌, ◌∷◌, ◌⊎◌, List, [], map, length, vec_capacity, Result, Err, IfOk, IfErr, OnOk};
ghost use Rattle.group_jobs.specs.declared.report.Report.{Report as GroupReport};
ghost use Rattle.group_queue.specs.declared.error.FinishError.{FinishError as Refusal};
ghost use Rattle.text_io.specs.declared.error.RunError.TheVariants.{Memory, Unfinished as NotKnown};
ghost use Rattle.tcp_server.specs.Lines.{line_of, lines_of, report_of, EndsBy};

use group_jobs::{Envelope, Report};
use group_queue::{FinishError, Unfinished};
use mqtt_topic::Share;
use std::alloc::Global;
use text_io::RunError;

/// Lets go of a message.
fn let_go_of(envelope: Envelope) {
    let _parts = envelope.open();
}

/// Lets go of messages.
pub(crate) fn let_go_of_all(envelopes: Vec<Envelope>) {
    let mut envelopes = envelopes;
    'envelopes: while let Some(envelope) = envelopes.pop() {
        let_go_of(envelope);
    }
    envelopes.destroy_empty();
}

/// The report of each group, in the order of slots; or why it has none, and then what was given to end it is let go of.
///
/// # Errors
///
/// [`RunError::Memory`]: there is no report of any.
pub(crate) fn reports_in(
    alloc: Global,
    answers: Vec<Result<Report, Unfinished<'_>>>,
) -> Result<Vec<Result<Report, FinishError>>, RunError>
    ensures reports { IfOk result (λ reports. reports.items ≡ map report_of answers.entry.items) }
    ensures cause { IfErr result (λ error. error ≡ Memory) }
{
    match Vec::with_capacity(alloc, answers.len()) {
        Ok(room) => Ok(gather(answers, room)),
        Err(_) => {
            abandon_all(answers);
            Err(RunError::Memory)
        }
    }
}

/// Puts the report of each group, or why it has none, where there is room for all.
fn gather(
    answers: Vec<Result<Report, Unfinished<'_>>>,
    room: Vec<Result<Report, FinishError>>,
) -> Vec<Result<Report, FinishError>>
    requires { (room.items ≡ []) × (length answers.items ≤ vec_capacity room) }
    ensures { result.items ≡ map report_of answers.entry.items }
{
    let mut reports = room;
    let mut answers = answers.into_iter();
    'answers: while let Some(answer) = answers.next() {
        reports.push_reserved(report_in(answer));
    }
    answers.destroy_empty();
    reports
}

/// Lets go of what groups answered.
fn abandon_all(answers: Vec<Result<Report, Unfinished<'_>>>) {
    let mut answers = answers;
    'answers: while let Some(answer) = answers.pop() {
        let _report = report_in(answer);
    }
    answers.destroy_empty();
}

/// The report of a group; or why it has none, and then what was given to end it is let go of.
fn report_in(answer: Result<Report, Unfinished<'_>>) -> Result<Report, FinishError>
    ensures { result ≡ report_of answer.entry }
{
    match answer {
        Ok(report) => Ok(report),
        Err(unfinished) => Err(unfinished.abandon()),
    }
}

/// How a broker ends whose groups have these reports.
///
/// # Errors
///
/// [`RunError::Unfinished`] where the end of one was refused, else [`RunError::Memory`] where there was no memory for one.
pub(crate) fn end_by(reports: &[Result<Report, FinishError>]) -> Result<(), RunError>
    ensures ends { EndsBy result reports.now }
    ensures cause { IfErr result (λ error. (error ≡ Memory) ⊎ (error ≡ NotKnown)) }
{
    let Some((report, others)) = reports.split_first() else {
        return Ok(());
    };
    end_with(report, end_by(others))
}

/// How it ends with one report more, or one less.
fn end_with(
    report: &Result<Report, FinishError>,
    others: Result<(), RunError>,
) -> Result<(), RunError>
    requires { IfErr others (λ error. (error ≡ Memory) ⊎ (error ≡ NotKnown)) }
    ensures ends { (reports : List (Result GroupReport Refusal)) → EndsBy others reports → EndsBy result (report.now ∷ reports) }
    ensures cause { IfErr result (λ error. (error ≡ Memory) ⊎ (error ≡ NotKnown)) }
{
    match report {
        Ok(_) => others,
        Err(refusal) => end_without(*refusal, others),
    }
}

/// How it ends where this is why one report is not there.
fn end_without(refusal: FinishError, others: Result<(), RunError>) -> Result<(), RunError>
    requires { IfErr others (λ error. (error ≡ Memory) ⊎ (error ≡ NotKnown)) }
    ensures ends { (reports : List (Result GroupReport Refusal)) → EndsBy others reports → EndsBy result (Err refusal ∷ reports) }
    ensures cause { IfErr result (λ error. (error ≡ Memory) ⊎ (error ≡ NotKnown)) }
{
    match refusal {
        FinishError::Memory => match others {
            Ok(()) => Err(RunError::Memory),
            Err(error) => Err(error),
        },
        _ => Err(RunError::Unfinished),
    }
}

/// The lines of the reports of the groups whose shares are bound, in the order of their slots; none of a group without one.
///
/// # Errors
///
/// [`RunError::Memory`].
pub(crate) fn lines(
    alloc: Global,
    shares: &[Share],
    reports: &[Result<Report, FinishError>],
) -> Result<Vec<u8>, RunError>
    ensures lines { IfOk result (λ text. text.items ≡ lines_of shares.now reports.now) }
    ensures cause { IfErr result (λ error. error ≡ Memory) }
{
    let mut text = Vec::new(alloc);
    add_lines(alloc, &mut text, shares, reports)?;
    Ok(text)
}

/// Adds the lines of reports, each with the share of its slot.
#[tactic(auto, using(crate::proofs::Lines::no_shares, crate::proofs::Lines::no_reports, crate::proofs::Lines::one_line))]
fn add_lines(
    alloc: Global,
    text: &mut Vec<u8>,
    shares: &[Share],
    reports: &[Result<Report, FinishError>],
) -> Result<(), RunError>
    ensures lines { OnOk result (text.new.items ≡ text.old.items ++ lines_of shares.now reports.now) }
    ensures cause { IfErr result (λ error. error ≡ Memory) }
{
    let Some((share, shares)) = shares.split_first() else {
        return Ok(());
    };
    let Some((report, reports)) = reports.split_first() else {
        return Ok(());
    };
    add_line(alloc, text, share, report)?;
    add_lines(alloc, text, shares, reports)
}

/// Adds the line of a report, if there is one.
fn add_line(
    alloc: Global,
    text: &mut Vec<u8>,
    share: &Share,
    report: &Result<Report, FinishError>,
) -> Result<(), RunError>
    ensures line { OnOk result (text.new.items ≡ text.old.items ++ line_of share.now report.now) }
    ensures cause { IfErr result (λ error. error ≡ Memory) }
{
    let Ok(report) = report else {
        return Ok(());
    };
    let line = report.line(alloc, share)?;
    text.extend_from_slice(&line)?;
    Ok(())
}
