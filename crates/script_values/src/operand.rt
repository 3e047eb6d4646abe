ghost use Rattle.std.specs.Prelude.{◌≡◌, IfOk};
ghost use Rattle.script_tree.specs.Datum.{text as texted};

use script_tree::text::Text;
use script_tree::value::{Node, Value};
use std::alloc::{AllocError, Global};
use std::marker::Model;
use std::sync::Arc;

/// A value that is lent, or one of its holder's own, which an operator may use up. Contracts see the
/// value.
#[derive(Drop)]
pub struct Operand<'a> {
    pub(crate) held: Held<'a>,
}

#[derive(Drop)]
pub(crate) enum Held<'a> {
    Lent(&'a Value),
    Own(Value),
}

impl<'a> Model for Operand<'a> {
    ghost use Rattle.script_tree.specs.Datum.{Datum};
    ghost use Rattle.script_tree.specs.DatumCode.{coded_datum};

    ghost Value = { Datum };

    ghost coded = { coded_datum };

    ghost use Rattle.script_values.specs.OperandView.{operand_of};

    ghost view = { λ a. operand_of a.held };
}

impl<'a> Operand<'a> {
    pub fn lent(value: &'a Value) -> Operand<'a>
        ensures { result ≡ value.now }
    {
        Operand {
            held: Held::Lent(value),
        }
    }

    pub fn own(value: Value) -> Operand<'a>
        ensures { result ≡ value }
    {
        Operand {
            held: Held::Own(value),
        }
    }

    pub fn value(&self) -> &Value
        ensures { result.now ≡ self.now }
    {
        match &self.held {
            Held::Lent(value) => value,
            Held::Own(value) => value,
        }
    }

    /// The value itself; a copy of one that is lent.
    pub fn into_value(self) -> Result<Value, AllocError>
        ensures { IfOk result (λ value. value ≡ self.entry) }
    {
        let Operand { held } = self;
        match held {
            Held::Lent(value) => value.clone(),
            Held::Own(value) => Ok(value),
        }
    }

    /// The value of a text. It lies where that of the operand did, if nobody else has it.
    pub(crate) fn replaced(self, alloc: Global, text: Text) -> Result<Value, AllocError>
        ensures { IfOk result (λ value. value ≡ texted text) }
    {
        match self.held {
            Held::Own(
                Value {
                    node: Node::Text(mut own),
                },
            ) => match Arc::get_mut(&mut own) {
                Some(place) => {
                    *place = text;
                    Ok(Value::shared_text(own))
                }
                None => Value::text(alloc, text),
            },
            Held::Own(_other) => Value::text(alloc, text),
            Held::Lent(_lent) => Value::text(alloc, text),
        }
    }
}
