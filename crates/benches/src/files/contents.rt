//! Files of both kinds.
ghost use Rattle.std.specs.Prelude.{◌≡◌, IfSome};
ghost use Rattle.benches.specs.Spelled.{spelling, MayBeEncoded};

use period::report::Report;
use period::trace::Trace;
use std::alloc::Global;

/// What a file holds.
#[derive(Drop)]
pub enum Contents {
    Trace(Trace),
    Report(Report),
}

impl Contents {
    /// What the file of these bytes holds. Its magic tells what kind of file it is.
    #[tactic(auto, using(report_format::proofs::ReadAgain::may_be_spelled))]
    pub fn decode(alloc: Global, bytes: &[u8]) -> Option<Contents>
        ensures spelled { IfSome result (λ contents. bytes.now ≡ spelling contents) }
        ensures may { IfSome result MayBeEncoded }
    {
        if bytes.starts_with(b"SSCOTRC1") {
            let trace = trace_format::decoding::decode(alloc, bytes).ok()?;
            Some(Contents::Trace(trace))
        } else {
            let report = report_format::decoding::decode(alloc, bytes).ok()?;
            Some(Contents::Report(report))
        }
    }

    /// Its file.
    pub fn encode(&self, alloc: Global) -> Option<Vec<u8>>
        requires { MayBeEncoded self.now }
        ensures { IfSome result (λ file. file.items ≡ spelling self.now) }
    {
        match self {
            Contents::Trace(trace) => trace_format::encoding::encode(alloc, trace).ok(),
            Contents::Report(report) => report_format::encoding::encode(alloc, report).ok(),
        }
    }

    /// Whether these bytes are its file.
    pub fn is_spelled(&self, alloc: Global, bytes: &[u8]) -> bool
        requires { MayBeEncoded self.now }
    {
        match self.encode(alloc) {
            Some(file) => file.as_slice() == bytes,
            None => false,
        }
    }

    /// The name of its kind.
    pub fn kind(&self) -> &'static str {
        match self {
            Contents::Trace(_) => "trace",
            Contents::Report(_) => "report",
        }
    }

    /// How many records its file has.
    pub fn record_count(&self) -> usize {
        match self {
            Contents::Trace(trace) => trace.len(),
            Contents::Report(report) => {
                let counts = report.counts.len();
                let groups = report.groups.len();
                counts
                    .saturating_add(report.logs.len())
                    .saturating_add(groups)
            }
        }
    }
}
