//! The size of an encoding, before anything is written.
ghost use Rattle.std.specs.Prelude.{◌≡◌, ◌≤◌, ◌<◌, ◌+◌, [], ◌∷◌, ◌^◌, List, drop, IfOk, OnOk, Err, None, Some, if◌then◌else◌};
ghost use Rattle.pb_base.specs.Problems.{IsWithinLimits};
ghost use Rattle.pb_base.specs.declared.limit.LimitKind.{LimitKind};
ghost use Rattle.pb_gentot.specs.BoundTable.{table_fresh};
ghost use Rattle.pb_encode.specs.Groups.{groups_of};
ghost use Rattle.pb_encode.specs.Summaries.{summary_of, IsEncodable, IsOver};
ghost use Rattle.pb_encode.specs.Tables.{table_terms};
ghost use Rattle.pb_encode.specs.declared.groups.Group.{Group};
ghost use Rattle.pb_encode.specs.inner.Found.{found_group};
ghost use Rattle.pb_encode.specs.inner.Hints.{AreHintsOf, IsBlank, StayHints};
ghost use Rattle.pb_encode.specs.inner.GroupPlans.{IsLightGroup};
ghost use Rattle.pb_encode.specs.inner.Tallies.{Counts, IsTally};

use crate::fault::MeasureFault;
use crate::group_plan::plan_group;
use crate::groups::{Found, Group, Groups};
use crate::hints::Hints;
use crate::summary::Summary;
use crate::table::table_of;
use crate::tally::Tally;
use pb_base::{LimitKind, MAX_CLAUSES, MAX_VARIABLES, NoMemory, Options, Problem};
use pb_family::Built;
use pb_gentot::BoundTable;
use std::alloc::Global;

// Counts the constraints of a group, and notes the advice on it.
fn count_group(
    alloc: Global,
    group: &Group,
    options: &Options,
    tally: &mut Tally,
    hints: &mut Hints,
) -> Result<(), NoMemory>
    requires light { IsLightGroup group.now }
    requires few { hints.old.noted < 2 ^ 63 }
    ensures counts { OnOk result (Counts options.now tally.old tally.new (group.now ∷ [])) }
    ensures next { OnOk result (hints.new.noted ≡ hints.old.noted + 1) }
    ensures told { (gs rest : List Group) → drop hints.old.noted gs ≡ group.now ∷ rest → OnOk result (StayHints options.now gs hints.old hints.new) }
{
    let plan = plan_group(alloc, group, options, None)?;
    tally.add_group(&plan);
    hints.note(plan)?;
    Ok(())
}

// Counts the constraints of a group as it was found, and notes the advice on it.
fn count_found(
    alloc: Global,
    found: &Found,
    options: &Options,
    tally: &mut Tally,
    hints: &mut Hints,
) -> Result<(), NoMemory>
    requires light { IsLightGroup (found_group found.now) }
    requires few { hints.old.noted < 2 ^ 63 }
    ensures counts { OnOk result (Counts options.now tally.old tally.new (found_group found.now ∷ [])) }
    ensures next { OnOk result (hints.new.noted ≡ hints.old.noted + 1) }
    ensures told { (gs rest : List Group) → drop hints.old.noted gs ≡ found_group found.now ∷ rest → OnOk result (StayHints options.now gs hints.old hints.new) }
{
    match found {
        Found::Clause(_) => {
            tally.add_clause();
            hints.pass();
            Ok(())
        }
        Found::Other(group) => count_group(alloc, group, options, tally, hints),
    }
}

// Counts all constraints of a problem, and notes the advice on its groups.
fn tally_of(
    alloc: Global,
    problem: &Problem,
    options: &Options,
    hints: &mut Hints,
) -> Result<Tally, NoMemory>
    requires within { IsWithinLimits problem.now }
    requires none { IsBlank hints.old }
    ensures counts { IfOk result (IsTally options.now (groups_of problem.now)) }
    ensures told { OnOk result (AreHintsOf options.now (groups_of problem.now) hints.new.list.items) }
{
    let mut tally = Tally::new();
    let mut groups = Groups::of(problem);
    while let Some(found) = groups.next_found(alloc)? {
        count_found(alloc, &found, options, &mut tally, hints)?;
        groups.take_back(found);
    }
    Ok(tally)
}

// Returns the first fresh variable of the table, if a table is requested.
fn table_at(options: &Options, first: u32) -> Option<u32>
    ensures { result ≡ (if options.now.table then Some first else None) }
{
    if options.table { Some(first) } else { None }
}

// Returns the size of a problem's encoding, given its table. The table is borrowed: each way out of a function that owns one makes the
// proof of that function longer.
fn measure_with(
    alloc: Global,
    problem: &Problem,
    options: &Options,
    table: &BoundTable,
    hints: &mut Hints,
) -> Result<Summary, MeasureFault>
    requires within { IsWithinLimits problem.now }
    requires none { IsBlank hints.old }
    requires terms { table.now ≡ table_terms options.now problem.now }
    requires bounds { table_fresh (table_terms options.now problem.now) ≤ options.now.budget }
    ensures told { OnOk result (AreHintsOf options.now (groups_of problem.now) hints.new.list.items) }
    ensures summary { IfOk result (λ summary. summary ≡ summary_of options.now problem.now) }
    ensures encodable { OnOk result (IsEncodable options.now problem.now) }
    ensures limit { (which : LimitKind) → result ≡ Err (MeasureFault.Limit which) → IsOver which options.now problem.now }
{
    let tally = tally_of(alloc, problem, options, hints)?;
    let loaded = (problem.originals() as u64).saturating_add(tally.fresh);
    let vars = loaded.saturating_add(table.fresh());
    if vars > MAX_VARIABLES as u64 {
        return Err(MeasureFault::Limit {
            which: LimitKind::Variables,
        });
    }
    let clauses = tally.clauses.saturating_add(table.clauses());
    if clauses > MAX_CLAUSES {
        return Err(MeasureFault::Limit {
            which: LimitKind::Clauses,
        });
    }
    Ok(Summary {
        vars: vars as u32,
        original: problem.vars,
        products: problem.products.len() as u32,
        clauses,
        treatments: tally.treatments(),
        table: table_at(options, loaded as u32 + 1),
    })
}

/// Returns the size of a problem's encoding, and notes advice on its groups: which go to the adder, since their other families passed the
/// budget or were not built, and diagrams that were searched for.
pub fn measure_telling(
    alloc: Global,
    problem: &Problem,
    options: &Options,
    hints: &mut Hints,
) -> Result<Summary, MeasureFault>
    requires within { IsWithinLimits problem.now }
    requires none { IsBlank hints.old }
    ensures told { OnOk result (AreHintsOf options.now (groups_of problem.now) hints.new.list.items) }
    ensures summary { IfOk result (λ summary. summary ≡ summary_of options.now problem.now) }
    ensures encodable { OnOk result (IsEncodable options.now problem.now) }
    ensures limit { (which : LimitKind) → result ≡ Err (MeasureFault.Limit which) → IsOver which options.now problem.now }
{
    let built = table_of(alloc, problem, options)?;
    match built {
        Built::Fits(table) => measure_with(alloc, problem, options, &table, hints),
        Built::Over => {
            let which = LimitKind::Bounds;
            Err(MeasureFault::Limit { which })
        }
    }
}

/// Returns the size of a problem's encoding; nothing is written.
///
/// ```text
/// +1 x1 +1 x2 +1 x3 <= 1 ;     vars 3, original 3, clauses 3; pairwise 1 among the treatments
/// ```
pub fn measure(alloc: Global, problem: &Problem, options: &Options) -> Result<Summary, MeasureFault>
    requires within { IsWithinLimits problem.now }
    // On success the answer is the problem's summary: its numbers of variables and clauses, those of its treatments, and the table's
    // first fresh variable if there is one.
    ensures summary { IfOk result (λ summary. summary ≡ summary_of options.now problem.now) }
    // On success the encoding passes no limit.
    ensures encodable { OnOk result (IsEncodable options.now problem.now) }
    // A limit is answered only if the encoding passes it and none before it: `Bounds`, then `Variables`, then `Clauses`.
    ensures limit { (which : LimitKind) → result ≡ Err (MeasureFault.Limit which) → IsOver which options.now problem.now }
{
    let mut hints = Hints::new(alloc);
    measure_telling(alloc, problem, options, &mut hints)
}
