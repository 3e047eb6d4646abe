ghost use Rattle.std.specs.Prelude.{◌≡◌, ◌<◌, ◌≤◌, Err, IfOk, IsOkAnd, OnErr};
ghost use Rattle.std.specs.Option.{ForSome};
ghost use Rattle.outside.specs.Shelves.{UsesShelf};
ghost use Rattle.command_inputs.specs.Faults.{UsesToRead};
ghost use Rattle.command_inputs.specs.declared.halt.Halt.TheVariants.{Failed};
ghost use Rattle.command_words.specs.Commands.{command};
ghost use Rattle.commands.specs.Asked.{HasItsFiles, MayAnswer, MayComeOf, fault_told, inputs_of, outputs_of};
ghost use Rattle.commands.specs.Explained.{AskAudit, AskCheck, AskReplay, IsAcceptedBy, IsExplained, IsProgramFile, IsRejectedBy, IsUnexplained};
ghost use Rattle.commands.specs.Outcome.{IfFound, IsOutcome, SaysAbsent};
ghost use Rattle.commands.specs.Outputs.{AllOthersStay, names_put};
ghost use Rattle.commands.specs.Reads.{AreReadFor, AreReadInPart, ReadsUpTo};
ghost use Rattle.commands.specs.Recorded.{AskRecord, IsRecordedBy};
ghost use Rattle.commands.specs.Runs.{IsAnswered, IsBrokenOff, IsCarriedOut, IsHalted};
ghost use Rattle.commands.specs.Seen.{shelf_seen};

use crate::answer::Answer;
use crate::audit::audit_files;
use crate::check::check_file;
use crate::outcome::{Outcome, write_outputs};
use crate::print::print_line;
use crate::record::record_files;
use crate::replay::replay_files;
use crate::system::System;
use audit_completeness::law::{recorded_is_accepted, schedule_fits};
use audit_meaning::law::accepted_explains;
use command_inputs::law::one_way;
use command_inputs::{Halt, InputError};
use command_words::{Command, Words};
use history::law::traces_are_balanced;
use outside::{Clock, Gate, House, Shelf, Sink};
use replayer::law::agreement;
use std::alloc::Global;
use std::sync::Wait;
use std::thread::Threads;

/// What the words ask for, over the files of a shelf. It puts the files that it makes under their
/// names, writes one line to `out`, or a front part of it where it can't, and answers the status.
pub fn run<R: Threads + Wait + Sync, F: Shelf, O: Sink, H: House, C: Clock + Sync, G: Gate + Sync>(
    rt: &R,
    alloc: Global,
    words: &Words,
    shelf: &mut F,
    out: &mut O,
    _house: &mut H,
    clock: &C,
    gate: &G,
) -> u8
    // With status 0 to 3 the reads came to an answer, its files were written, and its line printed.
    ensures answered { let before = shelf_seen (F.told shelf.old) (F.calls shelf.old) in
        let after = shelf_seen (F.told shelf.new) (F.calls shelf.new) in
        result < 4 → IsAnswered words.now (C.reading clock.now) before after
        (O.told out.old) (O.told out.new) result }

    // With status 4 a read or a write failed, and with 5 it ran out of memory.
    ensures halted { let before = shelf_seen (F.told shelf.old) (F.calls shelf.old) in
        let after = shelf_seen (F.told shelf.new) (F.calls shelf.new) in
        4 ≤ result → IsHalted words.now (C.reading clock.now) before after
        (O.told out.old) (O.told out.new) result }

    // No name but those of the command's outputs changes.
    ensures others { let names = outputs_of (command words.now) in
        AllOthersStay names (F.told shelf.old).files (F.told shelf.new).files }

    // With status 0 of a check the file spells a program.
    ensures valid { result ≡ 0 → AskCheck words.now →
        ForSome (F.told shelf.old).files (IsProgramFile words.now) }

    // With status 0 of a replay the schedule explains the trace, and with status 1 it doesn't.
    ensures agrees { result ≡ 0 → AskReplay words.now →
        ForSome (F.told shelf.old).files (IsExplained words.now) }
    ensures differs { result ≡ 1 → AskReplay words.now →
        ForSome (F.told shelf.old).files (IsUnexplained words.now) }

    // With status 0 of an audit the schedule of the verdict, which explains the trace, is written, and
    // the verdict is told. With status 1 its reason is told, and the files are as before.
    ensures accepted { result ≡ 0 → AskAudit words.now → IsAcceptedBy words.now
        (F.told shelf.old).files (F.told shelf.new).files (O.told out.old) (O.told out.new) }
    ensures rejected { result ≡ 1 → AskAudit words.now → IsRejectedBy words.now
        (F.told shelf.old).files (F.told shelf.new).files (O.told out.old) (O.told out.new) }

    // With status 0 of a recording the trace and the report are those of one history of the jobs,
    // and audits accept them.
    ensures recorded { let reading = C.reading clock.now in
        result ≡ 0 → AskRecord words.now → IsRecordedBy words.now reading
        (F.told shelf.old).files (F.told shelf.new).files (O.told out.old) (O.told out.new) }

    ensures status { result ≤ 5 }
    ensures house { _house.new ≡ _house.old }
{
    agreement();
    accepted_explains();
    schedule_fits();
    recorded_is_accepted();
    traces_are_balanced();
    one_way();
    let system = System {
        rt,
        alloc,
        clock,
        gate,
    };
    match outcome_of(&system, words, shelf) {
        Ok(outcome) => {
            let status = carry_out(alloc, shelf, out, &outcome);
            drop(outcome);
            status
        }
        Err(halt) => halt.status(),
    }
}

/// Writes the files of an outcome and prints its line, as far as it can, and answers the status.
fn carry_out<F: Shelf, O: Sink>(
    alloc: Global,
    shelf: &mut F,
    out: &mut O,
    outcome: &Outcome<'_>,
) -> u8
    ensures done { let before = shelf_seen (F.told shelf.old) (F.calls shelf.old) in
        let after = shelf_seen (F.told shelf.new) (F.calls shelf.new) in
        result < 4 → IsCarriedOut outcome.now before after
        (O.told out.old) (O.told out.new) result }
    ensures halted { let before = shelf_seen (F.told shelf.old) (F.calls shelf.old) in
        let after = shelf_seen (F.told shelf.new) (F.calls shelf.new) in
        4 ≤ result → IsBrokenOff outcome.now before after
        (O.told out.old) (O.told out.new) result }
    ensures others { let names = names_put outcome.now.puts in
        AllOthersStay names (F.told shelf.old).files (F.told shelf.new).files }
    ensures status { result ≤ 5 }
{
    if let Err(fault) = write_outputs(shelf, &outcome.outputs) {
        return Halt::from(fault).status();
    }
    match print_line(alloc, out, &outcome.answer) {
        Ok(()) => outcome.answer.status(),
        Err(cut) => cut.status(),
    }
}

/// The outcome of the words over the files. The fault of an input is an answer too.
fn outcome_of<'w, R: Threads + Wait + Sync, F: Shelf, C: Clock + Sync, G: Gate + Sync>(
    system: &System<'_, R, C, G>,
    words: &'w Words,
    shelf: &mut F,
) -> Result<Outcome<'w>, Halt>
    ensures outcome { let outcome = IsOutcome words.now (C.reading system.now.clock.now) in
        ForSome (F.told shelf.old).files (λ files. IfOk result (outcome files)) }
    ensures answer { IfOk result (λ outcome. MayAnswer (command words.now) outcome.answer) }
    ensures files { IfOk result (HasItsFiles (command words.now)) }
    ensures reads { IfOk result (λ outcome. ReadsUpTo (fault_told outcome.answer)
        (command words.now) (F.calls shelf.old) (F.calls shelf.new)) }
    ensures part { let inputs = inputs_of (command words.now) in
        OnErr result (AreReadInPart inputs (F.calls shelf.old) (F.calls shelf.new)) }
    ensures used { UsesShelf (F.told shelf.old) (F.told shelf.new) (result ≡ Err Failed)
        (IsOkAnd result SaysAbsent) }
{
    match found_by(system, words, shelf) {
        Ok(outcome) => Ok(outcome),
        Err(InputError::Fault(fault)) => Ok(Outcome::says(system.alloc, Answer::Input(fault))),
        Err(InputError::Halt(halt)) => Err(halt),
    }
}

/// The outcome of the words over the files, where no input is at fault.
fn found_by<'w, R: Threads + Wait + Sync, F: Shelf, C: Clock + Sync, G: Gate + Sync>(
    system: &System<'_, R, C, G>,
    words: &'w Words,
    shelf: &mut F,
) -> Result<Outcome<'w>, InputError>
    ensures outcome { let outcome = IsOutcome words.now (C.reading system.now.clock.now) in
        ForSome (F.told shelf.old).files (λ files. IfFound (outcome files) result) }
    ensures found { IfOk result (MayComeOf (command words.now)) }
    ensures reads { let inputs = inputs_of (command words.now) in
        AreReadFor inputs (F.calls shelf.old) (F.calls shelf.new) result }
    ensures used { UsesToRead (F.told shelf.old) (F.told shelf.new) result }
{
    let alloc = system.alloc;
    match words.command(alloc) {
        Ok(Command::Check(name)) => check_file(alloc, shelf, name),
        Ok(Command::Replay(names)) => replay_files(alloc, shelf, names),
        Ok(Command::Record(words)) => record_files(system, shelf, &words),
        Ok(Command::Audit(words)) => audit_files(alloc, shelf, &words, system.gate),
        Ok(Command::Usage) => Ok(Outcome::says(alloc, Answer::Usage)),
        Err(error) => Err(error.into()),
    }
}
