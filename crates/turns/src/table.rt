ghost use Rattle.std.specs.Prelude.{◌≡◌, ◌<◌, ◌↔◌, ℕ, length, slice_index_or};
ghost use Rattle.std.specs.Prelude.{None, IfOk, OnOk, IsTrue};
ghost use Rattle.dice.specs.Rolls.{dice_of};
ghost use Rattle.script_check.specs.Validity.{IsValid};
ghost use Rattle.script_code.specs.Translated.{IsCodeOf};
ghost use Rattle.history.specs.Seats.{at_seat};
ghost use Rattle.workload.specs.declared.limits.TheConstants.{SEATS};
ghost use Rattle.turns.specs.Seated.{IsLaid};
ghost use Rattle.turns.specs.Turned.{IsOpened, IsTurn, IsDone};

use crate::open_run::{arrive, go_on};
use dice::Dice;
use history::{Happening, Recording};
use machine::Machine;
use outside::Clock;
use script_code::translate::Code;
use std::alloc::{AllocError, Global};
use std::vec;
use trace_format::packed::PackedRequest;
use workload::limits::SEATS;

/// The seats, the jobs that have not arrived, and the recording.
#[derive(Drop)]
pub(crate) struct Table<'c> {
    alloc: Global,
    code: &'c Code,
    seed: u64,
    recording: Recording,
    jobs: vec::IntoIter<PackedRequest>,
    /// The machine of the open request of each seat.
    runs: Vec<Option<Machine<'c>>>,
    /// The dice of each seat.
    dice: Vec<Dice>,
}

impl<'c> Table<'c> {
    /// With nothing at any seat.
    pub(crate) fn new(
        alloc: Global,
        code: &'c Code,
        recording: Recording,
        jobs: Vec<PackedRequest>,
        seed: u64,
    ) -> Result<Table<'c>, AllocError>
        requires valid { IsValid recording.program }
        requires code { IsCodeOf recording.program code.now }
        requires empty { (seat : ℕ) → at_seat recording.visits seat ≡ None }
        ensures laid { IfOk result IsLaid }
        ensures opened { IfOk result (IsOpened recording jobs.items seed) }
        ensures seed { IfOk result (λ table. table.seed ≡ seed) }
    {
        let (runs, dice) = match seats(alloc, seed) {
            Ok(seats) => seats,
            Err(error) => {
                drop(recording);
                drop(jobs);
                return Err(error);
            }
        };
        Ok(Table {
            alloc,
            code,
            seed,
            recording,
            jobs: jobs.into_iter(),
            runs,
            dice,
        })
    }

    /// The turn of a seat: the next job arrives there, or what is open there goes on. Tells what
    /// happened.
    pub(crate) fn turn<C: Clock>(
        &mut self,
        seat: u8,
        clock: &C,
    ) -> Result<Option<Happening>, AllocError>
        requires laid { IsLaid self.old }
        requires within { seat < SEATS }
        ensures laid { OnOk result (IsLaid self.new) }
        ensures turn { IfOk result (λ happened.
            IsTurn (C.reading clock.now) seat happened self.old self.new) }
    {
        let place = usize::from(seat);
        let seat = u32::from(seat);
        let recording = &mut self.recording;
        let run = &mut self.runs[place];
        match run {
            Some(_) => {
                let dice = &mut self.dice[place];
                Ok(Some(go_on(recording, seat, run, dice, clock)?))
            }
            None => match self.jobs.next() {
                Some(job) => Ok(Some(arrive(self.alloc, self.code, recording, seat, run, job)?)),
                None => Ok(None),
            },
        }
    }

    /// Whether every job has departed.
    pub(crate) fn is_done(&self) -> bool
        requires { IsLaid self.now }
        ensures { IsTrue result ↔ IsDone self.now }
    {
        self.jobs.len() == 0 && self.runs.iter().all(|run| run.is_none())
    }
}

/// Of each seat the machine, none so far, and the dice of the seed.
fn seats<'c>(alloc: Global, seed: u64) -> Result<(Vec<Option<Machine<'c>>>, Vec<Dice>), AllocError>
    ensures empty { IfOk result (λ r. (seat : ℕ) → at_seat r.0.items seat ≡ None) }
    ensures runs { IfOk result (λ r. length r.0.items ≡ SEATS) }
    ensures of_seed { IfOk result (λ r.
        (seat : ℕ) → slice_index_or r.1.items seat (dice_of seed seat) ≡ dice_of seed seat) }
    ensures dice { IfOk result (λ r. length r.1.items ≡ SEATS) }
{
    let mut dice = Vec::with_capacity(alloc, usize::from(SEATS))?;
    let mut runs = Vec::with_capacity(alloc, usize::from(SEATS))?;
    for seat in 0..SEATS {
        runs.push_reserved(None);
        dice.push_reserved(Dice::new(seed, u64::from(seat)));
    }
    Ok((runs, dice))
}
