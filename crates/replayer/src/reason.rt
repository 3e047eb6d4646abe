ghost use Rattle.std.specs.Prelude.{◌≡◌};
ghost use Rattle.replayer.specs.Differences.{reason_number, replay_number};

/// Why a moment of a schedule is not one of the trace. Reasons are tested in this order.
#[derive(Clone, Copy, PartialEq, Eq)]
pub enum Reason {
    /// Its request is not in the trace.
    UnknownRequest = 2,
    /// Its request has arrived before.
    SecondArrival = 3,
    /// A request that precedes the arriving one in time has not departed.
    TooEarly = 4,
    /// Its request has not arrived, or has departed.
    NotOpen = 5,
    /// An operation, where the request's run ends.
    RunEnds = 6,
    /// An operation, whose object does not take the choice.
    BadChoice = 7,
    /// A departure, where the request's run wants an operation.
    WantsOperation = 8,
    /// A departure with another response than the trace's.
    OtherResponse = 9,
}

impl Reason {
    /// The number by which it is printed: docs/formats.md.
    pub fn number(self) -> u8
        ensures { result ≡ reason_number self }
    {
        self as u8
    }
}

/// Why a schedule doesn't agree with a trace.
#[derive(Clone, Copy, PartialEq, Eq)]
pub enum ReplayReason {
    /// The schedule is not in its grammar: its first bad record begins at this byte.
    Unreadable(u64),
    /// The first moment, counted from 0, that is not one of the trace; it is of this request.
    AtMoment {
        reason: Reason,
        moment: u64,
        rid: u32,
    },
    /// After the last moment: this request, the first one by the trace, has not departed.
    Open(u32),
}

impl ReplayReason {
    /// The number by which it is printed: docs/formats.md.
    pub fn number(self) -> u8
        ensures { result ≡ replay_number self }
    {
        match self {
            ReplayReason::Unreadable(_) => 1,
            ReplayReason::AtMoment { reason, .. } => reason.number(),
            ReplayReason::Open(_) => 10,
        }
    }
}

/// What a replay finds.
#[derive(Clone, Copy, PartialEq, Eq)]
pub enum Replayed {
    Agrees,
    Differs(ReplayReason),
}
