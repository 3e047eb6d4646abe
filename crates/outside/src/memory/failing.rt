ghost use Rattle.std.specs.Prelude.{◌≡◌, true, false, if◌then◌else◌};
ghost use Rattle.outside.specs.Counts.{next_count};
ghost use Rattle.outside.specs.Failing.{fault_count, is_sure, IsPlanned, GoesAsPlanned, SamePlan};

/// Which calls of an object fail, by their numbers. The calls that can fail are numbered from 0,
/// over all of the object's methods. The numbers stay at the last one of 64 bits.
#[derive(Drop)]
pub struct Failing {
    calls: Vec<u64>,
    next: u64,
    faults: u64,
}

impl Failing {
    /// The calls of these numbers fail. Where there is none, no call ever does.
    pub fn new(calls: Vec<u64>) -> Self
        ensures planned { IsPlanned calls.items result }
        ensures faults { fault_count result ≡ 0 }
    {
        Failing {
            calls,
            next: 0,
            faults: 0,
        }
    }

    /// Counts a call, and says whether it is one that fails.
    pub fn next_fails(&mut self) -> bool
        ensures planned { GoesAsPlanned self.old self.new (result ≡ true) }
        ensures faults { fault_count self.new
            ≡ (if result then next_count (fault_count self.old) else fault_count self.old) }
        ensures sure { result ≡ true → is_sure self.old ≡ false }
    {
        let fails = self.calls.contains(&self.next);
        self.next = self.next.saturating_add(1);
        if fails {
            self.faults = self.faults.saturating_add(1);
        }
        fails
    }

    /// Counts a fault that none of the calls had.
    pub(crate) fn add_fault(&mut self)
        ensures planned { SamePlan self.old self.new }
        ensures faults { fault_count self.new ≡ next_count (fault_count self.old) }
    {
        self.faults = self.faults.saturating_add(1);
    }

    /// How many faults there were.
    pub fn faults(&self) -> u64
        ensures { result ≡ fault_count self.now }
    {
        self.faults
    }
}
