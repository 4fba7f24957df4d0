//! The input of an encoding: a problem, the options, and the advice on its groups.
//!
//! The problem, the options and the hints go through all passes together. That the problem is within its limits, that its encoding
//! passes none, and that the hints are right for its groups are facts of the type, so no pass requires them; the public calls, whose
//! conditions are apart, make it.
ghost use Rattle.std.proofs.Props.{props};
ghost use Rattle.pb_base.specs.Problems.{IsWithinLimits};
ghost use Rattle.pb_encode.specs.Groups.{groups_of};
ghost use Rattle.pb_encode.specs.inner.Hints.{AreHintsOf};
ghost use Rattle.pb_encode.specs.inner.OneProof.{AreHintsOf-prop};
ghost use Rattle.pb_encode.specs.Summaries.{IsEncodable};

use crate::hints::Hint;
use pb_base::{Options, Problem};

/// A problem that passes no limit under the options, and hints of its groups; none where nothing is known of them.
#[derive(Clone, Copy)]
pub struct Encodable<'a> {
    pub problem: &'a Problem,
    pub options: &'a Options,
    pub hints: &'a [Hint],
    ghost within: { IsWithinLimits problem.now } by { Prim.hlevel props },
    ghost encodable: { IsEncodable options.now problem.now },
    ghost told: { AreHintsOf options.now (groups_of problem.now) hints.now } by { AreHintsOf-prop options.now (groups_of problem.now) hints.now },
}
