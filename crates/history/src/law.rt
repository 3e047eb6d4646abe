ghost use Rattle.history.specs.Balanced.{TracesAreBalanced};
ghost use Rattle.history.specs.Histories.{RunsAreLegal};

/// Where calls lead from one recording to another, what happened is legal.
pub fn runs_are_legal()
    ensures { RunsAreLegal }
{}

/// The trace of a history that is legal and closed is balanced.
pub fn traces_are_balanced()
    ensures { TracesAreBalanced }
{}
