ghost use Rattle.std.specs.Prelude.{◌≡◌, IfOk, MatchOption};
ghost use Rattle.multivalue.specs.Many.{all, many, same, member_value, is_for};
ghost use Rattle.multivalue.specs.Many.{HasMember, IsSplit, LacksMember};

use script_tree::value::{Value, Values};
use std::alloc::AllocError;
use std::marker::Model;

/// One value of all members, or one for each.
#[derive(Drop)]
enum Form {
    All(Value),
    Each(Values),
}

/// The values of a group's members at one place, in their order. Where all are equal it is one value,
/// and only else one for each, which takes memory for as many.
#[derive(Drop)]
pub struct Multi {
    form: Form,
}

impl Model for Multi {
    ghost use Rattle.multivalue.specs.Many.{Many, coded_many};

    ghost Value = { Many };

    ghost coded = { coded_many };

    ghost use Rattle.multivalue.specs.View.{many_of};
    ghost use Rattle.multivalue.specs.Many.{IsCanonical};

    ghost view = { λ a. many_of a.form };

    ghost invariant = { λ a. IsCanonical (many_of a.form) };
}

impl Multi {
    /// The one value of all members, however many there are.
    pub fn all(value: Value) -> Multi
        ensures { result ≡ all value }
    {
        Multi {
            form: Form::All(value),
        }
    }

    /// The values of these members. Of no members it is null.
    pub fn of(values: Values) -> Result<Multi, AllocError>
        ensures { IfOk result (λ multi. multi ≡ many values) }
    {
        let members = values.as_slice();
        let form = match members.first() {
            None => Form::All(Value::null()),
            Some(first) => {
                if are_same(first, members) {
                    Form::All(first.clone()?)
                } else {
                    Form::Each(values)
                }
            }
        };
        Ok(Multi { form })
    }

    /// Whether it has values for so many members, and for no more.
    pub fn is_for(&self, members: usize) -> bool
        ensures { result ≡ is_for self.now members }
    {
        match &self.form {
            Form::All(_) => true,
            Form::Each(values) => values.as_slice().len() == members,
        }
    }

    /// The one value of all members; none where theirs are not all equal.
    pub fn one(&self) -> Option<&Value>
        ensures { MatchOption result (IsSplit self.now) (λ value. self.now ≡ all value.now) }
    {
        match &self.form {
            Form::All(value) => Some(value),
            Form::Each(_) => None,
        }
    }

    /// A member's value; none where there is one for each and there is no such member.
    pub fn get(&self, member: usize) -> Option<&Value>
        ensures { MatchOption result (LacksMember self.now member)
            (λ value. HasMember self.now member × (value.now ≡ member_value self.now member)) }
    {
        match &self.form {
            Form::All(value) => Some(value),
            Form::Each(values) => values.as_slice().get(member),
        }
    }

    /// A member's value.
    pub fn at(&self, member: usize) -> &Value
        requires { HasMember self.now member }
        ensures { result.now ≡ member_value self.now member }
    {
        match &self.form {
            Form::All(value) => value,
            Form::Each(values) => &values.as_slice()[member],
        }
    }
}

impl Clone for Multi {
    ghost is_clone = { λ multi copy. copy ≡ multi };

    /// The same values, which takes no memory.
    fn clone(&self) -> Result<Multi, AllocError> {
        let form = match &self.form {
            Form::All(value) => Form::All(value.clone()?),
            Form::Each(values) => Form::Each(values.clone()?),
        };
        Ok(Multi { form })
    }
}

/// Whether all of these are this value.
fn are_same(first: &Value, values: &[Value]) -> bool
    ensures { result ≡ same first.now values.now }
{
    for value in values {
        if first.compare(value).is_ne() {
            return false;
        }
    }
    true
}
