ghost use Rattle.std.specs.Prelude.{◌≡◌};
ghost use Rattle.script_meaning.specs.Operands.{first, second, third};
ghost use Rattle.script_tree.specs.Datum.{null};

use script_tree::value::Value;

/// The arguments of a call; for one that isn't there another value stands.
#[derive(Clone, Copy)]
pub struct Arguments<'a> {
    pub first: &'a Value,
    pub second: &'a Value,
    pub third: &'a Value,
}

impl<'a> Arguments<'a> {
    /// The arguments with these values.
    pub fn new(values: &'a [Value], absent: &'a Value) -> Arguments<'a>
        requires { absent.now ≡ null }
        ensures first { result.first.now ≡ first values.now }
        ensures second { result.second.now ≡ second values.now }
        ensures third { result.third.now ≡ third values.now }
    {
        let mut values = values.iter();
        Arguments {
            first: values.next().unwrap_or(absent),
            second: values.next().unwrap_or(absent),
            third: values.next().unwrap_or(absent),
        }
    }
}
