ghost use Rattle.multi_machine.specs.Lockstep.{ComesToTells, StaysInLockstep};

/// A run of all members keeps each where its own run is, and the ledger at what was spent.
pub fn members_stay_in_lockstep()
    ensures { StaysInLockstep }
{}

/// What all members come to tells what each does, and what that cost.
pub fn coming_to_an_end_tells()
    ensures { ComesToTells }
{}
