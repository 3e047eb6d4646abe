ghost use Rattle.std.specs.Prelude.{◌≡◌, ◌≤◌, length, take, [], IfOk, OnOk};
ghost use Rattle.script_meaning.specs.Variables.{value_in, declared, assigned, bound};

use script_meaning::run::Variable;
use script_tree::syntax::name::Name;
use script_tree::text::Text;
use script_tree::value::Value;
use std::alloc::{AllocError, Global};
use std::marker::Model;

/// The variables that a place of a program sees. Contracts see them in order, the newest last.
#[derive(Drop)]
pub struct Variables {
    variables: Vec<Variable>,
}

impl Model for Variables {
    ghost use Rattle.std.specs.Prelude.{List};
    ghost use Rattle.std.specs.Coded.{coded_list};
    ghost use Rattle.script_meaning.specs.declared.run.Variable.{Variable as Meant};
    ghost use Rattle.script_meaning.specs.contracts.run.Variable as variable;

    ghost Value = { List Meant };

    ghost coded = { coded_list variable.the_row.coded };

    ghost use Rattle.page_walker.specs.VariablesView.{variables_of};

    ghost view = { variables_of };
}

impl Variables {
    pub fn new(alloc: Global) -> Variables
        ensures { result ≡ [] }
    {
        Variables {
            variables: Vec::new(alloc),
        }
    }

    /// The parameters of a function with the values of a call.
    pub fn bound(
        alloc: Global,
        parameters: &[Name],
        values: Vec<Value>,
    ) -> Result<Variables, AllocError>
        ensures { IfOk result (λ variables. variables ≡ bound parameters.now values.items) }
    {
        let mut variables = Variables::new(alloc);
        let mut left = values.into_iter();
        for parameter in parameters {
            match left.next() {
                Some(value) => variables.declare(&parameter.text, value)?,
                None => return Ok(variables),
            }
        }
        Ok(variables)
    }

    pub fn len(&self) -> usize
        ensures { result ≡ length self.now }
    {
        self.variables.len()
    }

    /// Leaves the oldest of them.
    pub fn truncate(&mut self, len: usize)
        ensures { self.new ≡ take len self.old }
    {
        self.variables.truncate(len);
    }

    /// The value of a name, or null where no variable has it.
    pub fn value(&self, name: &Text) -> Result<Value, AllocError>
        ensures { IfOk result (λ v. v ≡ value_in self.now name.now) }
    {
        for variable in &self.variables {
            if name.as_bytes() == variable.name.as_bytes() {
                return variable.value.clone();
            }
        }
        Ok(Value::null())
    }

    /// One variable more.
    pub fn declare(&mut self, name: &Text, value: Value) -> Result<(), AllocError>
        ensures { OnOk result (self.new ≡ declared self.old name.now value) }
    {
        self.variables.push(Variable {
            name: name.clone()?,
            value,
        })?;
        Ok(())
    }

    /// One variable more, with a copy of this value.
    pub fn declare_copy(&mut self, name: &Text, value: &Value) -> Result<(), AllocError>
        ensures { OnOk result (self.new ≡ declared self.old name.now value.now) }
    {
        let value = value.clone()?;
        self.declare(name, value)
    }

    /// Another value of the variable of this name.
    pub fn assign(&mut self, name: &Text, value: Value)
        ensures { self.new ≡ assigned self.old name.now value }
    {
        let mut place = 0usize;
        while place < self.variables.len() {
            if name.as_bytes() == self.variables[place].name.as_bytes() {
                self.variables[place].value = value;
                return;
            }
            place += 1;
        }
    }
}
