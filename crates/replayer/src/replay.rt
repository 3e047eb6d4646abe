ghost use Rattle.std.specs.Prelude.{◌≡◌, [], IfOk};
ghost use Rattle.script_tree.specs.Objects.{Objects};
ghost use Rattle.script_meaning.specs.Replay.{opening};
ghost use Rattle.period.specs.Traces.{IsBalanced};
ghost use Rattle.object_set.specs.ObjectSets.{IsSetOf};
ghost use Rattle.replayer.specs.Differences.{difference_of};
ghost use Rattle.replayer.specs.Stages.{Shows};
ghost use Rattle.replayer.specs.Laws.{IsDifference, IsFinding, AgreesWhereExplained, schedule_read};

use crate::law::agreement;
use crate::plain_runner::PlainRunner;
use crate::reason::{ReplayReason, Replayed};
use crate::runner::Runner;
use crate::stage::{Stage, rid_of};
use object_set::ObjectSet;
use schedule_format::schedule_file::ScheduleFile;
use script_check::lookup::Index;
use script_check::program::Program;
use std::alloc::{AllocError, Global};
use trace_format::trace_file::TraceFile;
use trace_index::IndexedTrace;

/// Where the schedule first differs from the trace, if it does, from what these objects hold.
/// Requests are run by the runner.
pub fn replay_by<R: Runner>(
    alloc: Global,
    runner: &R,
    index: &Index,
    start: ObjectSet,
    trace: &TraceFile,
    schedule: &ScheduleFile,
) -> Result<Option<ReplayReason>, AllocError>
    requires { IsSetOf index.now start }
    ensures { IfOk result (IsDifference index.now start trace.now schedule.now) }
{
    let events = IndexedTrace::new(alloc, trace)?;
    let mut stage = Stage::new(alloc, index, start, events)?;
    let difference = difference_on(alloc, runner, &mut stage, schedule);
    drop(stage);
    difference
}

/// Where the schedule first differs, played on this stage.
fn difference_on<R: Runner>(
    alloc: Global,
    runner: &R,
    stage: &mut Stage<'_, '_>,
    schedule: &ScheduleFile,
) -> Result<Option<ReplayReason>, AllocError>
    ensures { (objects : Objects) → Shows [] (opening objects) stage.old →
        let of = difference_of stage.old.index.now objects stage.old.trace in
        IfOk result (λ difference. difference ≡ of schedule.now) }
{
    for place in 0..schedule.len() {
        let moment = schedule.moment(place);
        if let Some(reason) = stage.step(alloc, runner, moment)? {
            return Ok(Some(ReplayReason::AtMoment {
                reason,
                moment: place as u64,
                rid: rid_of(moment),
            }));
        }
    }
    Ok(stage.first_not_departed())
}

/// The same by the plain walker.
fn difference(
    alloc: Global,
    program: &Program,
    start: ObjectSet,
    trace: &TraceFile,
    schedule: &ScheduleFile,
) -> Result<Option<ReplayReason>, AllocError>
    requires { IsSetOf program.now start }
    ensures { IfOk result (IsDifference program.now start trace.now schedule.now) }
{
    let index = Index::new(alloc, program)?;
    let difference = replay_by(alloc, &PlainRunner, &index, start, trace, schedule);
    drop(index);
    difference
}

/// Replays a schedule against a trace, moment by moment, from what these objects hold; the offset
/// of its first bad record stands for a schedule that can't be read.
pub fn replay(
    alloc: Global,
    program: &Program,
    start: ObjectSet,
    trace: &TraceFile,
    schedule: Result<&ScheduleFile, u64>,
) -> Result<Replayed, AllocError>
    requires set { IsSetOf program.now start }
    requires balanced { IsBalanced trace.now }
    ensures replayed { let read = schedule_read schedule.entry in
        IfOk result (IsFinding program.now start trace.now read) }
    ensures agrees { let read = schedule_read schedule.entry in
        IfOk result (AgreesWhereExplained program.now start trace.now read) }
{
    agreement();
    let schedule = match schedule {
        Ok(schedule) => schedule,
        Err(at) => return Ok(Replayed::Differs(ReplayReason::Unreadable(at))),
    };
    match difference(alloc, program, start, trace, schedule)? {
        Some(reason) => Ok(Replayed::Differs(reason)),
        None => Ok(Replayed::Agrees),
    }
}
