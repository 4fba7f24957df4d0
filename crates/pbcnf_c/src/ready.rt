//! Problems that are ready to be encoded.
ghost use Rattle.std.specs.Prelude.{Some, IfErr, IfOk};
ghost use Rattle.pb_base.specs.Problems.{IsWithinLimits};
ghost use Rattle.pbcnf_c.specs.Choices.{bound_of};
ghost use Rattle.pbcnf_c.specs.Ready.{IsReady, IsReadyAs, IsReadyFor, StopsEncoding, StopsSizing};

use crate::options::{PbcnfBound, PbcnfOptions, bound_of, options_of};
use pb_base::{Options, Problem};
use pb_encode::{MeasureFault, Summary, measure};
use pb_suite::{Outcome, problem_of_text};
use std::alloc::Global;

/// A problem, how it is encoded, and how large that is.
pub struct Ready {
    pub problem: Problem,
    pub options: Options,
    pub summary: Summary,
}

// Written out, so that it is one call in the proof of a function that owns one.
impl Drop for Ready {
    fn drop(self) {
        let Ready {
            problem: _,
            options: _,
            summary: _,
        } = self;
    }
}

/// Sizes up the encoding of a problem.
pub fn size_up(alloc: Global, problem: Problem, options: Options) -> Result<Ready, Outcome>
    requires within { IsWithinLimits problem }
    ensures ready { IfOk result IsReady }
    ensures of { IfOk result (IsReadyAs options problem) }
    ensures stopped { IfErr result (StopsSizing options problem) }
{
    match measure(alloc, &problem, &options) {
        Ok(summary) => Ok(Ready {
            problem,
            options,
            summary,
        }),
        Err(MeasureFault::NoMemory) => Err(Outcome::NoMemory),
        Err(MeasureFault::Limit { which }) => Err(Outcome::Limit {
            file: None,
            which,
            place: None,
        }),
    }
}

/// Reads the problem of a text, and sizes up its encoding.
pub fn prepare(
    alloc: Global,
    opb: &[u8],
    chosen: &PbcnfOptions,
    bound: &PbcnfBound,
) -> Result<Ready, Outcome>
    ensures ready { IfOk result IsReady }
    ensures denoted { IfOk result (IsReadyFor chosen.now (bound_of bound.now) opb.now) }
    ensures stopped { IfErr result (StopsEncoding chosen.now (bound_of bound.now) opb.now) }
{
    let Some(options) = options_of(chosen) else {
        return Err(Outcome::Usage);
    };
    match problem_of_text(alloc, opb, bound_of(bound)) {
        Ok(problem) => size_up(alloc, problem, options),
        Err(outcome) => Err(outcome),
    }
}
