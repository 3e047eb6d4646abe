ghost use Rattle.std.specs.Prelude.{◌≡◌, ◌≢◌, ℕ, List, [], ◌∷◌, ◌++◌};
ghost use Rattle.std.specs.Prelude.{Option, None, Some, IfOk, OnOk};
ghost use Rattle.rand_chacha.specs.ChaCha.{ChaCha};
ghost use Rattle.script_tree.specs.Datum.{Datum};
ghost use Rattle.script_tree.specs.Programs.{Program};
ghost use Rattle.script_tree.specs.Requests.{Request};
ghost use Rattle.script_check.specs.Validity.{IsValid};
ghost use Rattle.script_code.specs.Translated.{IsCodeOf};
ghost use Rattle.machine.specs.Follows.{Follows, IsReady, IsWaiting};
ghost use Rattle.history.specs.Histories.{happening_by};
ghost use Rattle.history.specs.Recordings.{MayCome, Takes};
ghost use Rattle.history.specs.Seats.{at_seat};
ghost use Rattle.history.specs.declared.event.Reply.{Reply};
ghost use Rattle.turns.specs.Seated.{IsSeated, WaitsFor};
ghost use Rattle.turns.specs.Turned.{Moves};

use crate::offer::offer_for;
use desk::Bench;
use dice::Dice;
use history::{Event, Happening, Recorder, Recording, Reply, happening_by};
use machine::{Machine, MachineStep};
use outside::Clock;
use script_code::translate::Code;
use script_tree::operation::Op;
use script_tree::value::Value;
use std::alloc::{AllocError, Global};
use std::mem;
use std::sync::Arc;
use trace_format::packed::PackedRequest;

/// A job arrives at a seat, and has a machine there. Tells what happened.
pub(crate) fn arrive<'c>(
    alloc: Global,
    code: &'c Code,
    recording: &mut Recording,
    seat: u32,
    run: &mut Option<Machine<'c>>,
    job: PackedRequest,
) -> Result<Happening, AllocError>
    requires code { IsCodeOf recording.old.program code.now }
    requires empty { at_seat recording.old.visits seat ≡ None }
    ensures { (reading : Option ℕ) (dice : ChaCha) → IfOk result (λ happening.
        Moves reading seat (job ∷ []) happening recording.old recording.new dice dice run.new) }
{
    job.keeps_limits();
    let request = job.unpack(alloc)?;
    put(run, Some(Machine::start(alloc, code, request)));
    take_down(recording, seat, Event::Arrive(Arc::new(alloc, job)?))
}

/// The open request of a seat does the operation that its machine wants, or departs, and leaves no
/// machine. Tells what happened.
pub(crate) fn go_on<C: Clock>(
    recording: &mut Recording,
    seat: u32,
    run: &mut Option<Machine>,
    dice: &mut Dice,
    clock: &C,
) -> Result<Happening, AllocError>
    requires valid { IsValid recording.old.program }
    requires seated { let program = recording.old.program in
        IsSeated program (at_seat recording.old.visits seat) run.old }
    requires open { run.old ≢ None }
    ensures { let reading = C.reading clock.now in IfOk result (λ happening.
        Moves reading seat [] happening recording.old recording.new dice.old dice.new run.new) }
{
    let Some(machine) = run else { unreachable!() };
    match machine.run()? {
        MachineStep::Wants(op) => act(recording, seat, op, machine, dice, clock),
        MachineStep::Ends(response, path) => {
            put(run, None);
            take_down(recording, seat, Event::Depart(response, path))
        }
    }
}

/// Leaves a machine at a seat, or none. What was there is dropped by a call, which an assignment isn't for
/// the prover.
fn put<'c>(run: &mut Option<Machine<'c>>, left: Option<Machine<'c>>)
    ensures { run.new ≡ left.entry }
{
    drop(mem::replace(run, left));
}

/// The open request of a machine does this operation, and the machine takes the answer. Tells what
/// happened.
fn act<C: Clock>(
    recording: &mut Recording,
    seat: u32,
    op: Op,
    machine: &mut Machine,
    dice: &mut Dice,
    clock: &C,
) -> Result<Happening, AllocError>
    requires valid { IsValid recording.old.program }
    requires waits { let program = recording.old.program in
        WaitsFor program (at_seat recording.old.visits seat) op machine.old }
    ensures { let reading = C.reading clock.now in IfOk result (λ happening. Moves reading seat []
        happening recording.old recording.new dice.old dice.new (Some machine.new)) }
{
    let offer = offer_for(&op.act, clock, dice);
    let (happening, told) = take_event(recording, seat, Event::Act(op, offer))?;
    match told {
        Reply::Acted { answer, .. } => take_answer(machine, answer, happening),
        Reply::Arrived { .. } | Reply::Departed { .. } => unreachable!(),
    }
}

/// The machine takes the answer. Gives back what happened.
fn take_answer(
    machine: &mut Machine,
    answer: Value,
    happening: Happening,
) -> Result<Happening, AllocError>
    requires { IsWaiting machine.old }
    ensures follows { (program : Program) (request : Request) (answers : List Datum)
        → Follows program request answers machine.old
        → OnOk result (Follows program request (answers ++ answer ∷ []) machine.new) }
    ensures ready { OnOk result (IsReady machine.new) }
    ensures same { IfOk result (λ told. told ≡ happening) }
{
    match machine.answer(answer) {
        Ok(()) => Ok(happening),
        Err(error) => {
            drop(happening);
            Err(error)
        }
    }
}

/// The recording takes an event to which no reply is wanted. Tells what happened.
fn take_down(recording: &mut Recording, seat: u32, event: Event) -> Result<Happening, AllocError>
    requires { MayCome recording.old seat event }
    ensures { IfOk result (λ happening. (reply : Reply)
        × (happening ≡ happening_by seat event reply)
        × Takes recording.old seat event reply recording.new) }
{
    let (happening, _) = take_event(recording, seat, event)?;
    Ok(happening)
}

/// The recording takes an event. Tells what happened, and the reply.
fn take_event(
    recording: &mut Recording,
    seat: u32,
    event: Event,
) -> Result<(Happening, Reply), AllocError>
    requires { MayCome recording.old seat event }
    ensures happened { IfOk result (λ r. r.0 ≡ happening_by seat event r.1) }
    ensures taken { IfOk result (λ r. Takes recording.old seat event r.1 recording.new) }
{
    match Recorder::step(recording, seat, &event) {
        Ok((kept, told)) => {
            let happening = happening_by(seat, event, &kept);
            drop(kept);
            Ok((happening, told))
        }
        Err(error) => {
            drop(event);
            Err(error)
        }
    }
}
