ghost use Rattle.std.specs.Prelude.{◌≡◌, ◌<◌, ◌≤◌, ℕ, [], ◌∷◌, length, if◌then◌else◌, false, true};
ghost use Rattle.std.specs.Prelude.{Option, None, Some, IfOk, IfSome, OnOk};
ghost use Rattle.rand_chacha.specs.ChaCha.{ChaCha};
ghost use Rattle.script_tree.specs.declared.limits.TheConstants.{MOST_OPERATIONS};
ghost use Rattle.machine.specs.Follows.{Follows, IsReady};
ghost use Rattle.machine.specs.declared.machine.Machine.{Machine as Standing};
ghost use Rattle.history.specs.Rooms.{EndsWith};
ghost use Rattle.shared_desk.specs.Seats.{IsSeatOf, start_of, view};
ghost use Rattle.turns.specs.Seated.{IsSeated, WaitsFor};
ghost use Rattle.server_workers.specs.Courses.{Course};
ghost use Rattle.server_workers.specs.Goes.{Goes, HasDeparted, HasFewerTurns};
ghost use Rattle.server_workers.specs.Jobs.{job_at};
ghost use Rattle.server_workers.specs.Openings.{IsBlank, IsOpening, open_at};

use crate::journal::{RecorderDesk, RecorderSeat};
use crate::service::Service;
use dice::Dice;
use history::{Event, Journal, Reply};
use machine::{Machine, MachineStep};
use outside::{Clock, Gate};
use script_code::translate::Code;
use script_tree::operation::Op;
use script_tree::path::Path;
use script_tree::request::Response;
use std::alloc::{AllocError, Global};
use std::sync::{Arc, Wait};
use trace_format::packed::PackedRequest;
use turns::offer::offer_for;

/// The place of the gate after a request's arrival and before its first operation.
const ARRIVED: u8 = 0;

/// The place of the gate after a request's departure.
const DEPARTED: u8 = 2;

/// Serves the job of a number at a seat, from its arrival to its departure.
pub(crate) fn serve_one<R: Wait, C: Clock, G: Gate, J: Journal>(
    rt: &R,
    service: &Service,
    code: &Code,
    desk: &RecorderDesk<J>,
    seat: &mut RecorderSeat<J>,
    dice: &mut Dice,
    clock: &C,
    gate: &G,
    number: u64,
) -> Result<(), AllocError>
    requires own { IsSeatOf desk.now seat.old }
    requires opening { IsOpening code.now (start_of desk.now) }
    requires below { number < length service.now.jobs.items }
    requires empty { open_at (view seat.old) ≡ None }
    ensures own { IsSeatOf desk.now seat.new }
    ensures course { let reading = C.reading clock.now in
        let job = job_at service.now.jobs.items number in OnOk result
        (Course reading (job ∷ []) (view seat.old) (view seat.new) dice.old dice.new) }
    ensures empty { OnOk result (open_at (view seat.new) ≡ None) }
    ensures departed { let program = (start_of desk.now).program in
        OnOk result (HasDeparted program (view seat.new)) }
{
    let job = &service.jobs[number as usize];
    let machine = arrive(rt, service.alloc, code, desk, seat, job)?;
    gate.pass(number, ARRIVED);
    serve_open(rt, desk, seat, machine, dice, clock)?;
    gate.pass(number, DEPARTED);
    Ok(())
}

/// A request arrives at a seat, and has a machine.
fn arrive<'c, R: Wait, J: Journal>(
    rt: &R,
    alloc: Global,
    code: &'c Code,
    desk: &RecorderDesk<J>,
    seat: &mut RecorderSeat<J>,
    job: &Arc<PackedRequest>,
) -> Result<Machine<'c>, AllocError>
    requires own { IsSeatOf desk.now seat.old }
    requires opening { IsOpening code.now (start_of desk.now) }
    requires empty { open_at (view seat.old) ≡ None }
    ensures own { IsSeatOf desk.now seat.new }
    ensures goes { let old = view seat.old in let new = view seat.new in
        (reading : Option ℕ) (dice : ChaCha) → IfOk result (λ machine. Goes (start_of desk.now)
        reading (job.now.value ∷ []) old new dice dice (Some machine)) }
{
    let request = job.unpack(alloc)?;
    match arrive_at(rt, desk, seat, job) {
        Ok(()) => Ok(Machine::start(alloc, code, request)),
        Err(error) => {
            drop(request);
            Err(error)
        }
    }
}

/// A request arrives at a seat. A machine at its start stands there then.
fn arrive_at<R: Wait, J: Journal>(
    rt: &R,
    desk: &RecorderDesk<J>,
    seat: &mut RecorderSeat<J>,
    job: &Arc<PackedRequest>,
) -> Result<(), AllocError>
    requires own { IsSeatOf desk.now seat.old }
    requires opening { IsBlank (start_of desk.now) }
    requires empty { open_at (view seat.old) ≡ None }
    ensures own { IsSeatOf desk.now seat.new }
    ensures goes { let old = view seat.old in let new = view seat.new in
        (reading : Option ℕ) (dice : ChaCha) (machine : Standing)
        → Follows (start_of desk.now).program job.now.value [] machine → IsReady machine
        → OnOk result (Goes (start_of desk.now) reading (job.now.value ∷ []) old new dice dice
        (Some machine)) }
{
    job.keeps_limits();
    desk.call(rt, seat, Event::Arrive(job.clone()?))?;
    Ok(())
}

/// Serves the open request of a machine to its departure. The machine is dropped then.
fn serve_open<R: Wait, C: Clock, J: Journal>(
    rt: &R,
    desk: &RecorderDesk<J>,
    seat: &mut RecorderSeat<J>,
    mut machine: Machine<'_>,
    dice: &mut Dice,
    clock: &C,
) -> Result<(), AllocError>
    requires own { IsSeatOf desk.now seat.old }
    requires opening { IsBlank (start_of desk.now) }
    requires seated { let program = (start_of desk.now).program in
        IsSeated program (open_at (view seat.old)) (Some machine) }
    ensures own { IsSeatOf desk.now seat.new }
    ensures goes { let old = view seat.old in let new = view seat.new in OnOk result
        (Goes (start_of desk.now) (C.reading clock.now) [] old new dice.old dice.new None) }
    ensures departed { let program = (start_of desk.now).program in
        OnOk result (HasDeparted program (view seat.new)) }
{
    let departed = go_to_end(rt, desk, seat, &mut machine, dice, clock);
    drop(machine);
    departed
}

/// The open request of a machine goes on until it departs.
fn go_to_end<R: Wait, C: Clock, J: Journal>(
    rt: &R,
    desk: &RecorderDesk<J>,
    seat: &mut RecorderSeat<J>,
    machine: &mut Machine<'_>,
    dice: &mut Dice,
    clock: &C,
) -> Result<(), AllocError>
    requires own { IsSeatOf desk.now seat.old }
    requires opening { IsBlank (start_of desk.now) }
    requires seated { let program = (start_of desk.now).program in
        IsSeated program (open_at (view seat.old)) (Some machine.old) }
    ensures own { IsSeatOf desk.now seat.new }
    ensures goes { let old = view seat.old in let new = view seat.new in OnOk result
        (Goes (start_of desk.now) (C.reading clock.now) [] old new dice.old dice.new None) }
    ensures departed { let program = (start_of desk.now).program in
        OnOk result (HasDeparted program (view seat.new)) }
{
    loop {
        let is_open = go_on(rt, desk, seat, machine, dice, clock)?;
        if !is_open {
            return Ok(());
        }
    }
}

/// The open request of a machine does the operation that it wants, or departs. Tells whether it is
/// still open.
fn go_on<R: Wait, C: Clock, J: Journal>(
    rt: &R,
    desk: &RecorderDesk<J>,
    seat: &mut RecorderSeat<J>,
    machine: &mut Machine<'_>,
    dice: &mut Dice,
    clock: &C,
) -> Result<bool, AllocError>
    requires own { IsSeatOf desk.now seat.old }
    requires opening { IsBlank (start_of desk.now) }
    requires seated { let program = (start_of desk.now).program in
        IsSeated program (open_at (view seat.old)) (Some machine.old) }
    ensures own { IsSeatOf desk.now seat.new }
    ensures goes { let old = view seat.old in let new = view seat.new in IfOk result (λ is_open.
        Goes (start_of desk.now) (C.reading clock.now) [] old new dice.old dice.new
        (if is_open then Some machine.new else None)) }
    ensures fewer { OnOk result (HasFewerTurns (view seat.old) (view seat.new)) }
    ensures departed { let program = (start_of desk.now).program in IfOk result (λ is_open.
        is_open ≡ false → HasDeparted program (view seat.new)) }
{
    match machine.run()? {
        MachineStep::Wants(op) => act(rt, desk, seat, op, machine, dice, clock),
        MachineStep::Ends(response, path) => depart(rt, desk, seat, response, path),
    }
}

/// The open request of a machine does this operation, and the machine takes the answer. Tells that
/// the request is still open.
fn act<R: Wait, C: Clock, J: Journal>(
    rt: &R,
    desk: &RecorderDesk<J>,
    seat: &mut RecorderSeat<J>,
    op: Op,
    machine: &mut Machine<'_>,
    dice: &mut Dice,
    clock: &C,
) -> Result<bool, AllocError>
    requires own { IsSeatOf desk.now seat.old }
    requires opening { IsBlank (start_of desk.now) }
    requires waits { let program = (start_of desk.now).program in
        WaitsFor program (open_at (view seat.old)) op machine.old }
    ensures own { IsSeatOf desk.now seat.new }
    ensures goes { let old = view seat.old in let new = view seat.new in IfOk result (λ is_open.
        Goes (start_of desk.now) (C.reading clock.now) [] old new dice.old dice.new
        (if is_open then Some machine.new else None)) }
    ensures open { IfOk result (λ is_open. is_open ≡ true) }
    ensures fewer { OnOk result (HasFewerTurns (view seat.old) (view seat.new)) }
{
    let offer = offer_for(&op.act, clock, dice);
    let Reply::Acted { answer, .. } = desk.call(rt, seat, Event::Act(op, offer))? else {
        unreachable!()
    };
    machine.answer(answer)?;
    Ok(true)
}

/// The open request departs. Tells that it is open no more.
fn depart<R: Wait, J: Journal>(
    rt: &R,
    desk: &RecorderDesk<J>,
    seat: &mut RecorderSeat<J>,
    response: Response,
    path: Path,
) -> Result<bool, AllocError>
    requires own { IsSeatOf desk.now seat.old }
    requires opening { IsBlank (start_of desk.now) }
    requires ends { let program = (start_of desk.now).program in
        EndsWith program (open_at (view seat.old)) response path }
    requires few { IfSome (open_at (view seat.old)) (λ visit.
        length visit.answers ≤ MOST_OPERATIONS) }
    ensures own { IsSeatOf desk.now seat.new }
    ensures closed { IfOk result (λ is_open. is_open ≡ false) }
    ensures goes { let old = view seat.old in let new = view seat.new in
        (reading : Option ℕ) (dice : ChaCha) → OnOk result
        (Goes (start_of desk.now) reading [] old new dice dice None) }
    ensures fewer { OnOk result (HasFewerTurns (view seat.old) (view seat.new)) }
    ensures departed { let program = (start_of desk.now).program in
        OnOk result (HasDeparted program (view seat.new)) }
{
    desk.call(rt, seat, Event::Depart(response, path))?;
    Ok(false)
}
