//! The rule of the table, and what its steps tell. No value of these types is made.
use crate::view::View;
use atomic_table::{Join, Play, Split, TableRule};

/// The rule of two words: the next number, and the least.
pub(crate) struct EachOnce;

impl TableRule<(), View, u64> for EachOnce {
    ghost use Rattle.claims.specs.Rule.{IsKept};
    ghost use Rattle.claims.specs.Views.{first_view};

    ghost holds = { IsKept };

    ghost first = { first_view };
}

/// The next number is drawn.
pub(crate) struct Draw;

impl Play<(), View> for Draw {
    ghost use Rattle.claims.specs.Steps.{Draws};

    ghost then = { Draws };
}

/// The least is lowered.
pub(crate) struct Lower;

impl Play<(), View> for Lower {
    ghost use Rattle.claims.specs.Steps.{Lowers};

    ghost then = { Lowers };
}

/// The least is read.
pub(crate) struct Look;

impl Play<(), View> for Look {
    ghost use Rattle.claims.specs.Steps.{Looks};

    ghost then = { Looks };
}

/// A seat gives one of its parts to another, or takes in all that another knows.
pub(crate) struct Parts;

impl Split<View> for Parts {
    ghost use Rattle.claims.specs.Views.{rest_of, part_of};

    ghost left = { rest_of };

    ghost right = { part_of };
}

impl Join<View> for Parts {
    ghost use Rattle.claims.specs.Views.{joint_view, spent_view};

    ghost both = { joint_view };

    ghost spent = { spent_view };
}
