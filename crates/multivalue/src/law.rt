ghost use Rattle.std.specs.Prelude.{List};
ghost use Rattle.script_tree.specs.Datum.{Datum};
ghost use Rattle.multivalue.specs.Many.{many, HoldsAll};

/// Each member has its own value, whether or not all are equal.
pub fn members_keep_their_values()
    ensures { (values : List Datum) → HoldsAll values (many values) }
{}
