//! The nodes of a level that are known.
//!
//! A level's nodes are in runs of at most 63, each from its last node to its first, since a search meets the residues of a level from
//! above. So a new node moves 7 others if a level has hundreds, and 21 if it has thousands. One list for a level took less time with
//! hundreds of nodes, and twice as much with thousands; a map took a fifth to a quarter more.
//!
//! A residue's run is found by binary search, then its index in it: once to look the node up, once to insert it. To keep both from
//! the first search saved a sixth of the time with hundreds of nodes a level or more, and nothing with few (counted in a copy in
//! Rust). It would cost six functions, and an argument of nine more.
ghost use Rattle.std.specs.Prelude.{◌≡◌, ◌≤◌, ◌<◌, ◌⊎◌, [], length, Contains, IfOk, OnOk};
ghost use Rattle.pb_diagram.specs.declared.interval.Interval.{Interval};
ghost use Rattle.pb_diagram.specs.inner.Known.{AreRuns, IsRunOf, intervals_in};
ghost use Rattle.pb_diagram.specs.laws.Search.{IsFound, IsGrown};

use crate::interval::Interval;
use crate::run::Run;
use std::alloc::{AllocError, Global};
use std::marker::Model;

/// How many intervals a run has at most, so that with one more its memory is full and need not grow, and how many of the last
/// stay in it then.
const MOST: usize = 63;

const HALF: usize = 32;

/// Intervals none of which begins within another. They stand in short runs, so that a new one moves few, however many there are: a
/// list of all moves some hundreds where a level has thousands, and a map costs more where it has few.
#[derive(Drop)]
pub struct Known {
    runs: Vec<Run>,
}

impl Model for Known {
    ghost use Rattle.std.specs.Prelude.{List};
    ghost use Rattle.pb_diagram.specs.declared.interval.Interval.{Interval};
    ghost use Rattle.pb_diagram.specs.inner.Known.{AreRuns, intervals_in};

    ghost Value = { List Interval };

    ghost view = { λ k. intervals_in k.runs.items };

    ghost invariant = { λ k. AreRuns k.runs.items };
}

/// The run to which a residue belongs: the last that does not begin above it, or the first of all.
fn run_of(runs: &[Run], residue: u128) -> usize
    requires { AreRuns runs.now }
    ensures { IsRunOf runs.now residue result }
{
    runs.partition_point(|run| run.begins_by(residue))
        .saturating_sub(1)
}

/// The first run of all, of one interval.
fn begin(runs: &mut Vec<Run>, interval: Interval) -> Result<(), AllocError>
    requires none { runs.old.items ≡ [] }
    requires runs { AreRuns runs.old.items }
    requires rises { interval.low < interval.top }
    ensures runs { AreRuns runs.new.items }
    ensures grown { OnOk result (IsGrown (intervals_in runs.old.items) interval (intervals_in runs.new.items)) }
{
    let alloc = *runs.allocator();
    runs.push(Run::of(alloc, interval)?)?;
    Ok(())
}

/// Makes two runs of one that has too many intervals.
fn split(runs: &mut Vec<Run>, place: usize) -> Result<(), AllocError>
    requires within { place < length runs.old.items }
    requires runs { AreRuns runs.old.items }
    ensures same { OnOk result (intervals_in runs.new.items ≡ intervals_in runs.old.items) }
    ensures runs { AreRuns runs.new.items }
{
    let run = &mut runs[place];
    if run.len() <= MOST {
        return Ok(());
    }
    let lower = run.split_off(HALF)?;
    runs.insert(place, lower)?;
    Ok(())
}

impl Known {
    /// None yet.
    pub fn new(alloc: Global) -> Self
        ensures { result ≡ [] }
    {
        Known {
            runs: Vec::new(alloc),
        }
    }

    /// The interval in which a residue lies.
    pub fn find(&self, residue: u128) -> Option<Interval>
        ensures { IsFound self.now residue result }
    {
        let runs = self.runs.as_slice();
        let place = run_of(runs, residue);
        if place < runs.len() {
            runs[place].find(residue)
        } else {
            None
        }
    }

    /// Joins an interval to the others.
    pub fn insert(&mut self, interval: Interval) -> Result<(), AllocError>
        requires rises { interval.low < interval.top }
        requires elsewhere { (h : Interval) → Contains self.old h → (h.top ≤ interval.low) ⊎ (interval.top ≤ h.low) }
        ensures { OnOk result (IsGrown self.old interval self.new) }
    {
        if self.runs.is_empty() {
            return begin(&mut self.runs, interval);
        }
        let place = run_of(self.runs.as_slice(), interval.low);
        self.runs[place].insert(interval)?;
        split(&mut self.runs, place)
    }

    /// All of them, in order.
    #[tactic(auto, using(crate::proofs::KnownFacts::intervals_push))]
    pub fn into_intervals(self, alloc: Global) -> Result<Vec<Interval>, AllocError>
        ensures { IfOk result (λ v. v.items ≡ self) }
    {
        let mut intervals = Vec::new(alloc);
        for run in self.runs {
            intervals.extend_from_slice(run.into_intervals().as_slice())?;
        }
        Ok(intervals)
    }
}
