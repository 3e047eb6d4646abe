ghost use Rattle.std.specs.Prelude.{◌≡◌, ◌+◌, ◌<◌, OnOk};
ghost use Rattle.basis.specs.UnlessMemory.{Answers, UnlessMemory};
ghost use Rattle.script_nodes.specs.Evaluated.{evaluated};

use basis::OrMemory;
use script_nodes::evaluate::evaluate;
use script_nodes::primitive::Primitive;
use script_nodes::steps::Steps;
use script_tree::request::Request;
use script_tree::value::Value;
use script_values::{Called, Faulted};
use std::alloc::{AllocError, Global};
use std::marker::Model;
use std::sync::ledger::{Blank, Ledger};

/// How many nodes were evaluated, counted for a ledger and as a number.
#[derive(Drop)]
pub struct Evaluations<L: Ledger> {
    steps: Steps<L>,
    /// Those of members that were run one by one, which no ledger counts.
    one_by_one: u64,
    count: u64,
}

impl<L: Ledger> Model for Evaluations<L> {
    ghost use Rattle.std.specs.Prelude.{ℕ, ◌≡◌, ◌+◌};

    ghost Value = { ℕ };

    ghost view = { λ e. e.steps + e.one_by_one };

    ghost invariant = { λ e. e.count ≡ e.steps + e.one_by_one };
}

impl<L: Ledger> Evaluations<L> {
    /// None so far. The ledger is a new one, of one part or more.
    pub fn new(blank: Blank) -> Evaluations<L>
        requires name { blank.name ≡ L.name }
        requires parts { blank.parts ≡ L.parts }
        requires some { 0 < blank.parts }
        ensures { result ≡ 0 }
    {
        Evaluations {
            steps: Steps::new(blank),
            one_by_one: 0,
            count: 0,
        }
    }

    pub fn count(&self) -> u64
        ensures { result ≡ self.now }
    {
        self.count
    }

    /// Counts the nodes of members that were run one by one. Where 64 bits don't hold the sum, that
    /// is answered as want of memory.
    pub fn add(&mut self, nodes: u64) -> Result<(), AllocError>
        ensures { OnOk result (self.new ≡ self.old + nodes) }
    {
        let Some(count) = self.count.checked_add(nodes) else {
            return Err(AllocError);
        };
        self.one_by_one += nodes;
        self.count = count;
        Ok(())
    }

    /// What a node comes to. Where 64 bits don't hold one more, that is answered as want of memory.
    pub(crate) fn evaluate(
        &mut self,
        alloc: Global,
        primitive: Primitive,
        operands: &[Value],
        request: &Request,
    ) -> Result<Called, Faulted>
        ensures answers { Answers (λ c. c)
            (evaluated request.now primitive.entry operands.now) result }
        ensures counts { UnlessMemory (λ _. self.new ≡ self.old + 1)
            (λ _. self.new ≡ self.old + 1) result }
    {
        let Some(count) = self.count.checked_add(1) else {
            return Err(OrMemory::Memory);
        };
        self.count = count;
        evaluate(alloc, primitive, operands, request, &mut self.steps)
    }
}
