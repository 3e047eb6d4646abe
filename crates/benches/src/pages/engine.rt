//! What runs a page.
ghost use Rattle.machine.specs.Follows.{IsReady};

use crate::pages::request::request_of;
use machine::{Machine, MachineStep};
use page_walker::{Walker, WalkerStep};
use script_check::lookup::Index;
use script_check::program::Program;
use script_code::translate::{Code, translate};
use script_tree::limits::MOST_OPERATIONS;
use script_tree::request::Request;
use script_tree::value::Value;
use std::alloc::{AllocError, Global};

/// The steps of so many runs by the machine.
pub fn steps_by_machine(
    alloc: Global,
    program: &Program,
    path: &str,
    times: u32,
) -> Result<u64, AllocError> {
    let code = translate(alloc, program)?;
    let steps = machine_steps(alloc, &code, path, times);
    drop(code);
    steps
}

/// The same of the program's code.
fn machine_steps(alloc: Global, code: &Code, path: &str, times: u32) -> Result<u64, AllocError> {
    let mut steps = 0u64;
    for _ in 0..times {
        let spent = machine_run(alloc, code, request_of(alloc, path)?)?;
        steps = steps.saturating_add(u64::from(spent));
    }
    Ok(steps)
}

/// The steps of the request's run by the machine.
fn machine_run(alloc: Global, code: &Code, request: Request) -> Result<u32, AllocError> {
    let mut machine = Machine::start(alloc, code, request);
    let steps = run_to_end(&mut machine);
    drop(machine);
    steps
}

/// The steps of this run, from its start to its end.
fn run_to_end(machine: &mut Machine<'_>) -> Result<u32, AllocError>
    requires { IsReady machine.old }
{
    for _ in 0..=MOST_OPERATIONS {
        match machine.run()? {
            MachineStep::Wants(op) => {
                drop(op);
                machine.answer(Value::null())?;
            }
            MachineStep::Ends(response, path) => {
                drop(response);
                return Ok(path.steps);
            }
        }
    }
    Err(AllocError)
}

/// The steps of so many runs by the walker.
pub fn steps_by_walker(
    alloc: Global,
    program: &Program,
    path: &str,
    times: u32,
) -> Result<u64, AllocError> {
    let index = Index::new(alloc, program)?;
    let steps = walker_steps(alloc, &index, path, times);
    drop(index);
    steps
}

/// The same by the program's index.
fn walker_steps(alloc: Global, index: &Index, path: &str, times: u32) -> Result<u64, AllocError> {
    let mut steps = 0u64;
    for _ in 0..times {
        let request = request_of(alloc, path)?;
        let spent = walker_run(alloc, index, &request);
        drop(request);
        steps = steps.saturating_add(u64::from(spent?));
    }
    Ok(steps)
}

/// The steps of the request's run by the walker, which begins again after each operation. None has
/// more operations than a request may.
fn walker_run(alloc: Global, index: &Index, request: &Request) -> Result<u32, AllocError> {
    let walker = Walker::new(index, request);
    let mut answers = Vec::new(alloc);
    let steps = walk_to_end(alloc, walker, &mut answers);
    drop(answers);
    steps
}

/// The steps of this walker's run, which keeps the answers.
fn walk_to_end(
    alloc: Global,
    walker: Walker<'_, '_>,
    answers: &mut Vec<Value>,
) -> Result<u32, AllocError> {
    for _ in 0..=MOST_OPERATIONS {
        match walker.next(alloc, answers.as_slice())? {
            WalkerStep::Wants(op) => {
                drop(op);
                answers.push(Value::null())?;
            }
            WalkerStep::Ends(response, path) => {
                drop(response);
                return Ok(path.steps);
            }
        }
    }
    Err(AllocError)
}
