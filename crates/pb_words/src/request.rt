//! What the words ask for.
use crate::bench::BenchArgs;
use crate::check::CheckArgs;
use crate::decode::DecodeArgs;
use crate::encode::EncodeArgs;
use crate::map::MapArgs;
use crate::optimum::OptimumArgs;
use crate::probe::ProbeArgs;
use crate::refute::RefuteArgs;
use crate::wcnf::WcnfArgs;

/// A command of the program with its arguments.
#[derive(Drop)]
pub enum Request<'a> {
    /// Encode a problem.
    Encode(EncodeArgs<'a>),
    /// Check a derivation.
    Check(CheckArgs<'a>),
    /// Decode a model.
    Decode(DecodeArgs<'a>),
    /// Propagate some literals over a CNF.
    Probe(ProbeArgs<'a>),
    /// Encode a generated problem.
    Bench(BenchArgs<'a>),
    /// Check a derivation and a refutation.
    Refute(RefuteArgs<'a>),
    /// List the free names of a problem.
    Map(MapArgs<'a>),
    /// Encode a problem and its objective.
    Wcnf(WcnfArgs<'a>),
    /// Prove a solution optimal.
    Optimum(OptimumArgs<'a>),
}
