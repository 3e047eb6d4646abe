ghost use Rattle.versioned_store.specs.Alike.{AlikeAnswers};

/// An entry of the tables' log answers as each entry that it is like.
pub fn alike_answers()
    ensures { AlikeAnswers }
{}
