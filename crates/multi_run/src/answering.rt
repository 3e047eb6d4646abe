ghost use Rattle.std.specs.Prelude.{◌≡◌, ◌<◌, ℕ, true, false, not};
ghost use Rattle.script_tree.specs.Datum.{is_within_limits};
ghost use Rattle.multivalue.specs.Many.{member_value};
ghost use Rattle.multi_run.specs.Answering.{AllAnswered};

use crate::run::Run;
use multivalue::{Apart, Multi};
use script_tree::value::Value;

impl Run {
    /// Takes the answers of so many members, which wanted operations. It tells whether they are
    /// within the limits of a value; members differ where some are so, and others not.
    pub fn answer(&mut self, answers: Multi, members: usize) -> Result<bool, Apart>
        ensures answered { AllAnswered members answers self.old result self.new }
    {
        let first = is_within(&answers, 0);
        if !are_within(&answers, members, first) {
            drop(answers);
            return Err(Apart::Differ);
        }
        if let Err(error) = self.state.account.note_operation() {
            drop(answers);
            return Err(Apart::from(error));
        }
        if first {
            self.state.stack.push(answers)?;
        } else {
            drop(answers);
        }
        Ok(first)
    }
}

/// Whether a member's answer is within the limits of a value.
fn is_within(answers: &Multi, member: usize) -> bool
    ensures { result ≡ is_within_limits (member_value answers.now member) }
{
    let absent = Value::null();
    answers.get(member).unwrap_or(&absent).is_within_limits()
}

/// Whether this holds of the answer of each of so many members.
fn are_within(answers: &Multi, members: usize, within: bool) -> bool
    ensures all { result ≡ true
        → (i : ℕ) → i < members → is_within_limits (member_value answers.now i) ≡ within }
    ensures some { result ≡ false
        → (i : ℕ) × (i < members) × (is_within_limits (member_value answers.now i) ≡ not within) }
{
    for member in 0..members {
        if is_within(answers, member) != within {
            return false;
        }
    }
    true
}
