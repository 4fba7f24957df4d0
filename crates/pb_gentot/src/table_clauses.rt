//! The clauses of a table of bounds.
ghost use Rattle.std.specs.Prelude.{◌≡◌, ◌≤◌, ◌<◌, ◌+◌, ◌^◌, [], ◌∷◌, length, map, slice_index};
ghost use Rattle.pb_norm.specs.Constraints.{AllPositive, weight, weights};
ghost use Rattle.pb_family.specs.Handing.{Hands, HandsIfMemory};
ghost use Rattle.pb_tree.specs.Pairs.{pair_of};
ghost use Rattle.pb_tree.specs.Tree.{tree_of};
ghost use Rattle.pb_tree.specs.Scheme.{fresh_of};
ghost use Rattle.pb_gentot.specs.BoundTable.{neighbours, neighbour_clause};
ghost use Rattle.pb_gentot.specs.Generalized.{generalized};
ghost use Rattle.pb_gentot.specs.inner.KeptTables.{clauses_by};
ghost use Rattle.pb_gentot.specs.inner.Nodes.{part_output};

use crate::merge::Emitted;
use crate::tree::emit_nodes;
use crate::whole::Whole;
use pb_base::{Failed, Lit, Term};
use pb_family::{ClauseSink, SinkResult, sink_result};
use std::alloc::Global;

/// The literals of the clause that what reaches the value behind a place reaches the one there.
fn neighbour_literals(root: &Emitted, place: usize) -> (Lit, Lit)
    requires { place + 1 < length root.now.values.items }
    ensures { (result.0 ∷ result.1 ∷ []) ≡ neighbour_clause (part_output root.now) (pair_of (slice_index root.now.values.items place) (slice_index root.now.values.items (place + 1))) }
{
    let later = root.outputs.at(place + 1);
    (later.not(), root.outputs.at(place))
}

/// Hands over that what reaches a value reaches the one before.
fn emit_neighbours<S: ClauseSink>(root: &Emitted, sink: &mut S) -> Result<(), Failed>
    ensures { Hands (map (neighbour_clause (part_output root.now)) (neighbours root.now.values.items)) result (S.state sink.old) (S.state sink.new) }
{
    for place in 0..root.values.len().saturating_sub(1) {
        let (later, earlier) = neighbour_literals(root, place);
        sink.clause(&[later, earlier])?;
    }
    Ok(())
}

/// Hands over the clauses of some terms, with those between neighbours.
pub fn emit_table<S: ClauseSink>(
    alloc: Global,
    terms: &[Term],
    bound: u128,
    first: u32,
    sink: &mut S,
) -> SinkResult
    requires positive { AllPositive (weights terms.now) }
    requires small { bound < 2 ^ 100 }
    requires light { weight (weights terms.now) < 2 ^ 100 }
    requires low { 1 ≤ first }
    requires fits { first + fresh_of (generalized bound) (tree_of (weights terms.now)) ≤ 2 ^ 31 }
    ensures { HandsIfMemory (clauses_by bound terms.now first) result (S.state sink.old) (S.state sink.new) }
{
    if terms.is_empty() {
        return Ok(());
    }
    let whole = Whole {
        terms,
        bound,
        first,
    };
    let root = emit_nodes(alloc, &whole, sink)?;
    sink_result(emit_neighbours(&root, sink))
}
