ghost use Rattle.std.specs.Prelude.{◌≡◌, ◌<◌, ◌∷◌, [], IfOk, Ok};
ghost use Rattle.std.specs.Option.{ForSome};
ghost use Rattle.period.specs.Traces.{IsBalanced};
ghost use Rattle.report_format.specs.Limits.{HasValuesWithinLimits};
ghost use Rattle.object_set.specs.ObjectSets.{IsSetOf, objects_of};
ghost use Rattle.trace_format.specs.Events.{request_count};
ghost use Rattle.audit_meaning.specs.declared.verdict.Verdict.TheVariants.{Accepted};
ghost use Rattle.auditor.specs.Audited.{audited};
ghost use Rattle.command_inputs.specs.Faults.{UsesToRead};
ghost use Rattle.command_words.specs.NamesView.{audit_words_of};
ghost use Rattle.command_inputs.specs.declared.role.Role.TheVariants as role;
ghost use Rattle.command_words.specs.Commands.{an_audit};
ghost use Rattle.commands.specs.Asked.{MayComeOf, inputs_of};
ghost use Rattle.commands.specs.Audits.{AuditWithProgram, AuditWithState, AuditWithTrace, IsAudited, IsJudged, IsVerdict};
ghost use Rattle.commands.specs.Outcome.{IfFound};
ghost use Rattle.commands.specs.Reads.{AreReadFor};

use crate::answer::Answer;
use crate::leaving::leave;
use crate::outcome::{Outcome, Output};
use audit_meaning::reason::Reason;
use audit_meaning::verdict::Verdict;
use auditor::{Evaluations, audit};
use command_inputs::{InputError, read_program, read_report, read_state, read_trace};
use command_words::AuditWords;
use object_set::ObjectSet;
use outside::{Gate, Shelf};
use period::report::Report;
use period::schedule::Schedule;
use schedule_format::encoding::encode;
use script_check::program::Program;
use std::alloc::{AllocError, Global};
use std::marker::Brand;
use std::sync::ledger::{Blank, Ledger};
use trace_format::trace_file::{EventHead, TraceFile};
use wire::limits::MOST_FILE_BYTES;

/// What comes of the audit of these files: the schedule of an accepted report, or the reason for
/// which it is rejected. They are read in the order of the words, up to the first one at fault.
pub fn audit_files<'w, F: Shelf, G: Gate + Sync>(
    alloc: Global,
    shelf: &mut F,
    words: &AuditWords<'w>,
    gate: &G,
) -> Result<Outcome<'w>, InputError>
    ensures outcome { let words = audit_words_of words.now in
        ForSome (F.told shelf.old).files (λ files. IfFound (IsAudited files words) result) }
    ensures found { IfOk result (MayComeOf (an_audit (audit_words_of words.now))) }
    ensures reads { let words = audit_words_of words.now in
        let inputs = inputs_of (an_audit words) in
        AreReadFor inputs (F.calls shelf.old) (F.calls shelf.new) result }
    ensures used { UsesToRead (F.told shelf.old) (F.told shelf.new) result }
{
    let program = read_program(alloc, shelf, words.program, MOST_FILE_BYTES)?;
    let outcome = audit_with_program(alloc, shelf, words, &program, gate);
    leave(program);
    outcome
}

/// What comes of the audit where this program was read.
fn audit_with_program<'w, F: Shelf, G: Gate + Sync>(
    alloc: Global,
    shelf: &mut F,
    words: &AuditWords<'w>,
    program: &Program,
    gate: &G,
) -> Result<Outcome<'w>, InputError>
    ensures outcome { let words = audit_words_of words.now in
        ForSome (F.told shelf.old).files (λ files.
        IfFound (AuditWithProgram files words program.now) result) }
    ensures found { IfOk result (MayComeOf (an_audit (audit_words_of words.now))) }
    ensures reads { let words = audit_words_of words.now in
        let inputs = (role.State, words.state) ∷ (role.Trace, words.trace)
        ∷ (role.Report, words.report) ∷ [] in
        AreReadFor inputs (F.calls shelf.old) (F.calls shelf.new) result }
    ensures used { UsesToRead (F.told shelf.old) (F.told shelf.new) result }
{
    let start = read_state(alloc, shelf, words.state, MOST_FILE_BYTES, program)?;
    let outcome = audit_with_state(alloc, shelf, words, program, &start, gate);
    leave(start);
    outcome
}

/// What comes of the audit where the program and this state were read.
fn audit_with_state<'w, F: Shelf, G: Gate + Sync>(
    alloc: Global,
    shelf: &mut F,
    words: &AuditWords<'w>,
    program: &Program,
    start: &ObjectSet,
    gate: &G,
) -> Result<Outcome<'w>, InputError>
    requires { IsSetOf program.now start.now }
    ensures outcome { let words = audit_words_of words.now in
        ForSome (F.told shelf.old).files (λ files.
        IfFound (AuditWithState files words program.now (objects_of start.now)) result) }
    ensures found { IfOk result (MayComeOf (an_audit (audit_words_of words.now))) }
    ensures reads { let words = audit_words_of words.now in
        let inputs = (role.Trace, words.trace) ∷ (role.Report, words.report) ∷ [] in
        AreReadFor inputs (F.calls shelf.old) (F.calls shelf.new) result }
    ensures used { UsesToRead (F.told shelf.old) (F.told shelf.new) result }
{
    let trace = read_trace(alloc, shelf, words.trace, MOST_FILE_BYTES)?;
    let outcome = audit_with_trace(alloc, shelf, words, program, start, &trace, gate);
    leave(trace);
    outcome
}

/// What comes of the audit where the program, the state and this trace were read.
fn audit_with_trace<'w, F: Shelf, G: Gate + Sync>(
    alloc: Global,
    shelf: &mut F,
    words: &AuditWords<'w>,
    program: &Program,
    start: &ObjectSet,
    trace: &TraceFile,
    gate: &G,
) -> Result<Outcome<'w>, InputError>
    requires set { IsSetOf program.now start.now }
    requires balanced { IsBalanced trace.now }
    ensures outcome { let words = audit_words_of words.now in
        let objects = objects_of start.now in
        ForSome (F.told shelf.old).files (λ files.
        IfFound (AuditWithTrace files words program.now objects trace.now) result) }
    ensures found { IfOk result (MayComeOf (an_audit (audit_words_of words.now))) }
    ensures reads { let words = audit_words_of words.now in
        let inputs = (role.Report, words.report) ∷ [] in
        AreReadFor inputs (F.calls shelf.old) (F.calls shelf.new) result }
    ensures used { UsesToRead (F.told shelf.old) (F.told shelf.new) result }
{
    let report = read_report(alloc, shelf, words.report, MOST_FILE_BYTES)?;
    let outcome = outcome_on(alloc, words, program, start, trace, &report, gate);
    leave(report);
    Ok(outcome?)
}

/// The outcome of the verdict on a report that was read. One that isn't in its grammar is rejected.
fn outcome_on<'w, G: Gate + Sync>(
    alloc: Global,
    words: &AuditWords<'w>,
    program: &Program,
    start: &ObjectSet,
    trace: &TraceFile,
    report: &Result<Report, u64>,
    gate: &G,
) -> Result<Outcome<'w>, AllocError>
    requires set { IsSetOf program.now start.now }
    requires balanced { IsBalanced trace.now }
    requires limits { IfOk report.now HasValuesWithinLimits }
    ensures verdict { let words = audit_words_of words.now in
        let objects = objects_of start.now in
        IfOk result (IsVerdict words program.now objects trace.now report.now) }
    ensures found { IfOk result (MayComeOf (an_audit (audit_words_of words.now))) }
{
    match report {
        Ok(report) => {
            let workers = words.workers.count();
            let blank = Blank::new(1);
            let verdict = verdict_on::<Brand, G>(
                alloc, program, start, trace, report, workers, gate, blank,
            )?;
            judged(alloc, words, trace, report, verdict)
        }
        Err(at) => {
            let reason = Reason::Unreadable { at: *at };
            Ok(Outcome::says(alloc, Answer::Rejected(reason)))
        }
    }
}

/// The verdict on a report in its grammar, with a count of its own of the nodes that are evaluated.
fn verdict_on<L: Ledger, G: Gate + Sync>(
    alloc: Global,
    program: &Program,
    start: &ObjectSet,
    trace: &TraceFile,
    report: &Report,
    workers: u32,
    gate: &G,
    blank: Blank,
) -> Result<Verdict, AllocError>
    requires name { blank.name ≡ L.name }
    requires parts { blank.parts ≡ L.parts }
    requires some { 0 < blank.parts }
    requires balanced { IsBalanced trace.now }
    requires set { IsSetOf program.now start.now }
    requires limits { HasValuesWithinLimits report.now }
    ensures { let objects = objects_of start.now in IfOk result (λ verdict. verdict
        ≡ audited program.now objects trace.now (Ok report.now)) }
{
    let mut evaluations = Evaluations::<L>::new(blank);
    audit(
        alloc,
        program,
        start,
        trace,
        report,
        workers,
        gate,
        &mut evaluations,
    )
}

/// The outcome of a verdict on this report of this trace.
fn judged<'w>(
    alloc: Global,
    words: &AuditWords<'w>,
    trace: &TraceFile,
    report: &Report,
    verdict: Verdict,
) -> Result<Outcome<'w>, AllocError>
    ensures judged { let words = audit_words_of words.now in
        IfOk result (IsJudged words trace.now (Ok report.now) verdict) }
    ensures found { IfOk result (MayComeOf (an_audit (audit_words_of words.now))) }
{
    match verdict {
        Verdict::Accepted {
            schedule,
            evaluated,
            plain,
        } => accepted(alloc, words, trace, report, &schedule, evaluated, plain),
        Verdict::Rejected(reason) => Ok(Outcome::says(alloc, Answer::Rejected(reason))),
    }
}

/// The outcome of a report of this trace that is accepted with this schedule.
fn accepted<'w>(
    alloc: Global,
    words: &AuditWords<'w>,
    trace: &TraceFile,
    report: &Report,
    schedule: &Schedule,
    evaluated: u64,
    plain: u64,
) -> Result<Outcome<'w>, AllocError>
    ensures judged { let words = audit_words_of words.now in
        let verdict = Accepted schedule.now evaluated plain in
        IfOk result (IsJudged words trace.now (Ok report.now) verdict) }
    ensures found { IfOk result (MayComeOf (an_audit (audit_words_of words.now))) }
{
    let bytes = encode(alloc, schedule)?;
    let name = words.schedule;
    let outputs = vec![in alloc; Output { name, bytes }]?;
    let answer = Answer::Accepted {
        requests: request_count(trace),
        groups: report.groups.len(),
        evaluated,
        plain,
    };
    Ok(Outcome { answer, outputs })
}

/// How many requests a trace has.
fn request_count(trace: &TraceFile) -> usize
    ensures { result ≡ request_count trace.now }
{
    let mut count = 0;
    for place in 0..trace.len() {
        match trace.head(place) {
            EventHead::Asks(_) => count += 1,
            EventHead::Answers(_) => {}
        }
    }
    count
}
