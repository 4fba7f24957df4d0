//! Listing the free names of the problem of a file.
ghost use Rattle.pb_desk.specs.Desk.{IsClosed};
ghost use Rattle.pb_words.specs.MapWords.{as_map_words};
ghost use Rattle.pb_suite.specs.Implementing.{Implements};
ghost use Rattle.pb_suite.specs.MapSpec.{map_spec};
ghost use Rattle.pb_suite.specs.Seen.{seen_from, Stays};

use crate::outcome::Outcome;
use crate::reading::read_problem;
use crate::saying::say;
use pb_base::NoMemory;
use pb_desk::Desk;
use pb_model::write_map;
use pb_words::MapArgs;
use std::alloc::Global;

/// Prints the number and the name of each variable that has a free name.
///
/// ```text
/// +1 rain +1 sun >= 1 ;     the problem; printed: 1 rain\n2 sun\n
/// ```
pub fn map_file<D: Desk>(alloc: Global, asked: &MapArgs<'_>, desk: &mut D) -> Outcome
    requires closed { IsClosed (D.state desk.old) }
    ensures implements { let new = D.state desk.new in Implements (map_spec (as_map_words asked.now)) (seen_from new (D.state desk.old)) (seen_from new new) result }
    ensures stays { Stays (D.state desk.old) (D.state desk.new) }
{
    let problem = match read_problem(alloc, asked.opb, None, desk) {
        Ok(problem) => problem,
        Err(outcome) => return outcome,
    };
    let mut text = Vec::new(alloc);
    match write_map(alloc, &problem, &mut text) {
        Ok(()) => say(desk, &text),
        Err(NoMemory) => Outcome::NoMemory,
    }
}
