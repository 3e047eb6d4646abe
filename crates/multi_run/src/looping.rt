ghost use Rattle.std.specs.Prelude.{◌≡◌, ◌<◌, ℕ, List, Ok, IfOk};
ghost use Rattle.script_tree.specs.Requests.{Request as Asked};
ghost use Rattle.script_nodes.specs.NodeLaws.{member_at};
ghost use Rattle.multivalue.specs.Many.{member_value};
ghost use Rattle.multi_state.specs.declared.went.Went.TheVariants.{On};
ghost use Rattle.multi_run.specs.Acts.{Acts, IsLater};
ghost use Rattle.script_code.specs.declared.instruction.Instruction.TheVariants as instruction;

use crate::run::Run;
use multi_nodes::{Evaluations, Group};
use multi_state::Went;
use multivalue::law::members_keep_their_values;
use multivalue::{Apart, Multi};
use script_nodes::primitive::Primitive;
use script_tree::value::{Value, Values};
use script_values::as_list;
use std::alloc::{AllocError, Global};
use std::slice;
use std::sync::ledger::Ledger;

impl Run {
    /// Begins a loop over a list: none of its members was passed.
    pub(crate) fn each(&mut self, count: usize) -> Result<Went, Apart>
        ensures acts { (n : ℕ) (qs : List Asked) (functions : List ℕ)
            → Acts n n qs functions (instruction.Each count) self.old result self.new }
        ensures later { result ≡ Ok On → IsLater self.old self.new }
    {
        let lists = self.state.stack.pop()?;
        self.state.stack.push_loop(lists, 0)?;
        self.pass(count)?;
        Ok(Went::On)
    }

    /// Begins the next turn of a loop over a list, or ends it.
    pub(crate) fn turn<L: Ledger>(
        &mut self,
        count: usize,
        group: &Group,
        evaluations: &mut Evaluations<L>,
    ) -> Result<Went, Apart>
        ensures acts { (functions : List ℕ) → Acts evaluations.old evaluations.new group.now
            functions (instruction.Turn count) self.old result self.new }
        ensures later { result ≡ Ok On → IsLater self.old self.new }
    {
        let alloc = self.state.alloc;
        let (lists, passed) = self.state.stack.pop_loop()?;
        let Some(more) = passed.checked_add(1) else {
            drop(lists);
            return Err(Apart::Memory);
        };
        let operands = slice::from_ref(&lists);
        match self.state.account.decide(
            alloc,
            Primitive::Member(passed),
            operands,
            group,
            evaluations,
        ) {
            Ok(true) => {
                let Ok(members) = members_of(alloc, &lists, passed, group.requests().len()) else {
                    drop(lists);
                    return Err(Apart::Memory);
                };
                match self.state.slots.push(members) {
                    Ok(()) => self.state.stack.push_loop(lists, more)?,
                    Err(failed) => {
                        drop(lists);
                        return Err(Apart::from(failed));
                    }
                }
                self.place = self.place.saturating_sub(count);
                Ok(Went::On)
            }
            Ok(false) => {
                drop(lists);
                self.pass(0)?;
                Ok(Went::On)
            }
            Err(apart) => {
                drop(lists);
                Err(apart)
            }
        }
    }
}

/// The member at a place of a list; null where there is none.
fn member_of(list: &Value, place: usize) -> Result<Value, AllocError>
    ensures { IfOk result (λ value. value ≡ member_at place list.now) }
{
    match as_list(list) {
        None => Ok(Value::null()),
        Some(values) => match values.as_slice().get(place) {
            None => Ok(Value::null()),
            Some(value) => value.clone(),
        },
    }
}

/// The member at a place of each of so many lists.
fn members_of(
    alloc: Global,
    lists: &Multi,
    place: usize,
    members: usize,
) -> Result<Multi, AllocError>
    ensures { IfOk result (λ values. (i : ℕ) → i < members
        → member_value values i ≡ member_at place (member_value lists.now i)) }
{
    if let Some(list) = lists.one() {
        return Ok(Multi::all(member_of(list, place)?));
    }
    let mut values = Vec::with_capacity(alloc, members)?;
    for member in 0..members {
        match lists.get(member) {
            None => return Err(AllocError),
            Some(list) => values.push(member_of(list, place)?)?,
        }
    }
    members_keep_their_values();
    Multi::of(Values::from_vec(values)?)
}
