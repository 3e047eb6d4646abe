//! Both forms in which groups are run, and what comes of each.
ghost use Rattle.std.specs.Prelude.{◌≡◌, ◌<◌};

use audit_meaning::reason::Reason;
use basis::OrMemory;
use group_lockstep::run_groups;
use group_runner::{Evidence, run_one_by_one};
use multi_nodes::Evaluations;
use outside::OpenGate;
use script_code::translate::Code;
use std::alloc::{AllocError, Global};
use std::io;
use std::marker::Brand;
use std::sync::ledger::{Blank, Ledger};
use std::time::{Duration, Instant};
use trace_index::narrow;
use verdict_lines::rejection_line;

/// What running all groups comes to, by the steps that all members spend.
fn told(alloc: Global, outcome: Result<u64, OrMemory<Reason>>) -> Result<String, AllocError> {
    match outcome {
        Ok(steps) => format!(in alloc; "steps {steps}"),
        Err(OrMemory::Memory) => Err(AllocError),
        Err(OrMemory::Other(reason)) => rejected(alloc, reason),
    }
}

/// The line that tells a reason, without its end.
fn rejected(alloc: Global, reason: Reason) -> Result<String, AllocError> {
    let line = rejection_line(alloc, &reason);
    drop(reason);
    let line = line?;
    let text = String::from_utf8_lossy(alloc, &line)?;
    String::from_str(alloc, text.as_str().trim_end())
}

/// Runs the members of each group one after the other: the first that is wrong with the first group
/// that isn't sound, else the steps of all.
fn run_plain<L: Ledger>(
    alloc: Global,
    code: &Code,
    evidence: &Evidence<'_>,
    blank: Blank,
) -> Result<u64, OrMemory<Reason>>
    requires name { blank.name ≡ L.name }
    requires parts { blank.parts ≡ L.parts }
    requires some { 0 < blank.parts }
{
    let mut evaluations = Evaluations::<L>::new(blank);
    let mut steps = 0u64;
    for (number, group) in evidence.groups().iter().enumerate() {
        let number = narrow(number)?;
        let rids = group.rids();
        let more = run_one_by_one(alloc, code, evidence, number, rids, &mut evaluations)?;
        steps = steps.saturating_add(more);
    }
    Ok(steps)
}

/// Runs the members of each group at once: the first that is wrong with the first group that isn't
/// sound, else how many nodes were evaluated, and the steps of all.
fn run_together<L: Ledger>(
    alloc: Global,
    code: &Code,
    evidence: &Evidence<'_>,
    blank: Blank,
) -> Result<(u64, u64), OrMemory<Reason>>
    requires name { blank.name ≡ L.name }
    requires parts { blank.parts ≡ L.parts }
    requires some { 0 < blank.parts }
{
    let mut evaluations = Evaluations::<L>::new(blank);
    let steps = run_groups(alloc, code, evidence, &OpenGate, &mut evaluations)?;
    Ok((evaluations.count(), steps))
}

/// What came of running all groups in both forms, and how long each of them took.
#[derive(Drop)]
pub struct Comparison {
    times: u32,
    differ: u32,
    /// How many nodes are evaluated; 0 where a group isn't sound.
    evaluated: u64,
    told: String,
    at_once: Duration,
    one_by_one: Duration,
}

impl Comparison {
    pub fn new(alloc: Global) -> Comparison {
        Comparison {
            times: 0,
            differ: 0,
            evaluated: 0,
            told: String::new(alloc),
            at_once: Duration::ZERO,
            one_by_one: Duration::ZERO,
        }
    }

    /// Runs all groups once in each form, and tells where the two come to different things.
    pub fn run_both(
        &mut self,
        rt: &HostRuntime,
        code: &Code,
        evidence: &Evidence<'_>,
    ) -> io::Result<()> {
        self.run_at_once(rt, code, evidence)?;
        let start = Instant::now(rt)?;
        let steps = run_plain::<Brand>(rt.alloc(), code, evidence, Blank::new(1));
        let took = start.elapsed(rt);
        let plain = told(rt.alloc(), steps)?;
        self.one_by_one = self.one_by_one.saturating_add(took?);
        self.times = self.times.saturating_add(1);
        if plain.as_str() != self.told.as_str() {
            self.differ = self.differ.saturating_add(1);
            println!(rt; "one by one: {plain}, not {}", self.told)?;
        }
        Ok(())
    }

    /// Runs the members of each group at once.
    fn run_at_once(
        &mut self,
        rt: &HostRuntime,
        code: &Code,
        evidence: &Evidence<'_>,
    ) -> io::Result<()> {
        let start = Instant::now(rt)?;
        let spent = run_together::<Brand>(rt.alloc(), code, evidence, Blank::new(1));
        let took = start.elapsed(rt);
        self.told = self.spent_told(rt.alloc(), spent)?;
        self.at_once = self.at_once.saturating_add(took?);
        Ok(())
    }

    /// What running them came to, of which it notes how many nodes were evaluated.
    fn spent_told(
        &mut self,
        alloc: Global,
        spent: Result<(u64, u64), OrMemory<Reason>>,
    ) -> Result<String, AllocError> {
        match spent {
            Ok((evaluated, steps)) => {
                self.evaluated = evaluated;
                told(alloc, Ok(steps))
            }
            Err(fault) => told(alloc, Err(fault)),
        }
    }

    /// Prints what came of so many groups, and tells how long each form took.
    pub fn tell(&self, rt: &HostRuntime, groups: usize) -> io::Result<()> {
        println!(rt;
            "groups {groups}, times {}, evaluated {}, {}, {} differ",
            self.times, self.evaluated, self.told, self.differ
        )?;
        eprintln!(rt;
            "nanoseconds {} at once, {} one by one",
            self.at_once.as_nanos(),
            self.one_by_one.as_nanos()
        )
    }
}
