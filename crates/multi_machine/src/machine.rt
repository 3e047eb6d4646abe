ghost use Rattle.std.specs.Prelude.{◌≡◌, ◌≢◌, ◌<◌, ◌++◌, ◌∷◌, [], ℕ, List, length, true, false, IfOk};
ghost use Rattle.script_tree.specs.Datum.{Datum};
ghost use Rattle.script_tree.specs.Programs.{Program};
ghost use Rattle.script_tree.specs.Requests.{Request as Asked};
ghost use Rattle.script_code.specs.Translated.{IsCodeOf};
ghost use Rattle.multivalue.specs.Many.{member_value};
ghost use Rattle.multi_machine.specs.Together.{
  HaveEntry,
  IsFresh,
  IsStep,
  RoseBy,
  SomeLackEntry,
  StandsAfter,
};
ghost use Rattle.multi_machine.specs.declared.machine.GroupStep.TheVariants.{Wants};

use crate::ending::{Ended, Responses};
use basis::Items;
use multi_nodes::{Evaluations, Group};
use multi_run::Run;
use multi_state::{Account, Stack, State, Went};
use multivalue::{Apart, Multi};
use script_code::translate::{Code, PageEntry};
use script_tree::fault::ScriptFault;
use script_tree::operation::Op;
use script_tree::path::End;
use script_tree::request::Request;
use std::alloc::{AllocError, Global};
use std::sync::ledger::Ledger;

/// How all members of a group went on together.
#[derive(Drop)]
pub enum GroupStep<'c> {
    /// Each wants its operation.
    Wants(Waiting<'c>),
    /// The runs of all are over, alike.
    Ends(Ended),
    /// Some go another way than others from here.
    Differ,
}

/// A group whose members want operations.
#[derive(Drop)]
pub struct Waiting<'c> {
    pub(crate) code: &'c Code,
    pub(crate) group: Group,
    pub(crate) run: Run,
    pub(crate) ops: Items<Op>,
}

impl<'c> Waiting<'c> {
    /// The operation that each member wants.
    pub fn ops(&self) -> &[Op]
        ensures { result.now ≡ self.now.ops }
    {
        self.ops.as_slice()
    }

    /// Gives each member the answer to its operation, and runs on to the next one, or to the end.
    pub fn answer<L: Ledger>(
        self,
        answers: Multi,
        evaluations: &mut Evaluations<L>,
    ) -> Result<GroupStep<'c>, AllocError>
        ensures { (program : Program) (qs : List Asked) (told told' : ℕ → List Datum) (begun : ℕ)
            → IsStep program qs told begun evaluations.old (Wants self.entry)
            → ((i : ℕ) → i < length qs → told' i ≡ told i ++ member_value answers i ∷ [])
            → IfOk result (IsStep program qs told' begun evaluations.new) }
    {
        let Waiting {
            code,
            group,
            mut run,
            ops,
        } = self;
        drop(ops);
        match run.answer(answers, group.requests().len()) {
            Ok(true) => go_on(code, group, run, evaluations),
            Ok(false) => {
                let ended = Ended::at_fault(&run, End::AnswerFault, ScriptFault::TooLarge);
                drop(run);
                drop(group);
                Ok(GroupStep::Ends(ended))
            }
            Err(Apart::Differ) => {
                drop(run);
                drop(group);
                Ok(GroupStep::Differ)
            }
            // An answer is no fault of its own.
            Err(Apart::Fault(_)) => unreachable!(),
            Err(Apart::Memory) => {
                drop(run);
                drop(group);
                Err(AllocError)
            }
        }
    }
}

/// Runs the page of a group's requests up to the first operation that is wanted, or to the end.
pub fn start<'c, L: Ledger>(
    alloc: Global,
    code: &'c Code,
    group: Group,
    evaluations: &mut Evaluations<L>,
) -> Result<GroupStep<'c>, AllocError>
    ensures { (program : Program) → IsCodeOf program code.now
        → IfOk result (IsStep program group (λ i. []) evaluations.old evaluations.new) }
{
    let requests = group.requests();
    let members = requests.len();
    let page = code.page(requests[0].path());
    if !have_page(code, page, requests) {
        return Ok(GroupStep::Differ);
    }
    match page {
        None => Ok(GroupStep::Ends(Ended {
            steps: 0,
            end: End::Normal,
            responses: Responses::NoPage,
        })),
        Some(entry) => {
            let run = at(alloc, entry.place, members)?;
            go_on(code, group, run, evaluations)
        }
    }
}

/// Whether the path of each of these requests has this page, or none.
fn have_page(code: &Code, page: Option<PageEntry>, requests: &[Request]) -> bool
    ensures all { result ≡ true → HaveEntry requests.now code.now page }
    ensures some { result ≡ false → SomeLackEntry requests.now code.now page }
{
    for request in requests {
        if !is_same(code.page(request.path()), page) {
            return false;
        }
    }
    true
}

fn is_same(left: Option<PageEntry>, right: Option<PageEntry>) -> bool
    ensures same { result ≡ true → left ≡ right }
    ensures other { result ≡ false → left ≢ right }
{
    match (left, right) {
        (None, None) => true,
        (Some(left), Some(right)) => left.number == right.number && left.place == right.place,
        (None, Some(_)) | (Some(_), None) => false,
    }
}

/// So many members at a place of the code, who did nothing so far.
fn at(alloc: Global, place: usize, members: usize) -> Result<Run, AllocError>
    ensures { IfOk result (IsFresh place) }
{
    Ok(Run {
        frames: Vec::new(alloc),
        place,
        state: State {
            alloc,
            stack: Stack::new(alloc),
            slots: Vec::new(alloc),
            account: Account::new(alloc, members)?,
        },
    })
}

/// Runs on to the next operation that is wanted, or to the end.
fn go_on<'c, L: Ledger>(
    code: &'c Code,
    group: Group,
    mut run: Run,
    evaluations: &mut Evaluations<L>,
) -> Result<GroupStep<'c>, AllocError>
    ensures { (program : Program) (told : ℕ → List Datum) (begun : ℕ)
        → RoseBy begun evaluations.old (StandsAfter program group code.now told run)
        → IfOk result (IsStep program group told begun evaluations.new) }
{
    match run.run(code, &group, evaluations) {
        Ok(Went::Wants(ops)) => Ok(GroupStep::Wants(Waiting {
            code,
            group,
            run,
            ops,
        })),
        Ok(Went::Over) => {
            drop(group);
            Ok(GroupStep::Ends(Ended::normal(run)))
        }
        Err(Apart::Fault(fault)) => {
            let ended = Ended::at_fault(&run, End::Fault(fault), fault);
            drop(run);
            drop(group);
            Ok(GroupStep::Ends(ended))
        }
        Err(Apart::Differ) => {
            drop(run);
            drop(group);
            Ok(GroupStep::Differ)
        }
        // No run stops where there is more to do.
        Ok(Went::On) | Err(Apart::Memory) => {
            drop(run);
            drop(group);
            Err(AllocError)
        }
    }
}
