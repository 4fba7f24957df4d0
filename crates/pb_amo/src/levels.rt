//! The steps of a grid, and of the grids inside it.
//!
//! The forward constraints of the lines and the literals' own constraint add up to that at most one line is chosen, exactly and by
//! one step. The grid of the lines is derived from that sum as the outer grid is from its constraint. The sum is deleted after the
//! clauses of the lines are put out, the reifications at the end of each grid. So what is live at any time is what the grids around
//! need. A row and a column are one definition, over the function that gives the line of a literal.
//!
//! The recursion is that of the definition, two functions that call each other: one derives a grid, the other one of its sides
//! (`side_steps`), from the sum of the side's lines to the deletion of that sum. The rows' sum has an id that is known beforehand;
//! the columns' is read from the sink, since it depends on how many ids the rows' grid took. What has to be small is the greatest
//! number of steps (`most_steps`), of which each inner grid has fewer.
ghost use Rattle.std.specs.Prelude.{◌≤◌, ◌<◌, ◌+◌, ◌*◌, ◌^◌};
ghost use Rattle.pb_family.specs.StepSinks.{HandsFrom};
ghost use Rattle.pb_amo.specs.Product.{line, product_fresh};
ghost use Rattle.pb_amo.specs.ProductSteps.{line_sum, side_steps, product_steps};
ghost use Rattle.pb_amo.specs.inner.Source.{source_literals};
ghost use Rattle.pb_amo.specs.inner.ProductParts.{source_size, most_steps, sides_steps};

use crate::cells::{Cells, derive_line_sum};
use crate::claims::derive_pairs;
use crate::grid::Grid;
use crate::lines::Lines;
use crate::sides::{Sides, fresh_of, sides_of};
use crate::source::{Line, Source};
use pb_family::{SinkResult, StepSink, derive_deletion, derive_deletions, derive_pieces};
use std::alloc::Global;

/// That at most one of some lines has a true literal, the steps of the grid of these lines, and that their sum goes.
#[cycle(derive_grid)]
fn derive_side<T: StepSink>(
    alloc: Global,
    id: u64,
    base: u64,
    of: Line,
    inner: u32,
    sink: &mut T,
) -> SinkResult
    requires known { base < 2 ^ 62 }
    requires low { 1 ≤ inner }
    requires fits { inner + product_fresh of.count ≤ 2 ^ 31 }
    requires room { (T.state sink.old).next + 1 + most_steps of.count < 2 ^ 62 }
    ensures { HandsFrom (side_steps (line_sum id base of.count) (product_steps (line of.first of.count) inner)) result (T.state sink.old) (T.state sink.new) }
{
    let sum = sink.next_id();
    derive_line_sum(alloc, id, base, of.count, sink)?;
    derive_grid(alloc, &Source::Fresh(of), inner, sum, sink)?;
    derive_deletion(alloc, sum, 1, sink)
}

/// That at most one row and at most one column has a true literal, and that the constraints of these lines go.
#[cycle(derive_grid)]
fn derive_sides<T: StepSink>(
    alloc: Global,
    id: u64,
    base: u64,
    first: u32,
    sides: Sides,
    sink: &mut T,
) -> SinkResult
    requires low { 1 ≤ first }
    requires fits { first + sides.rows + sides.columns + product_fresh sides.rows + product_fresh sides.columns ≤ 2 ^ 31 }
    requires known { base + 2 * (sides.rows + sides.columns) < 2 ^ 62 }
    requires room { (T.state sink.old).next + 2 + most_steps sides.rows + most_steps sides.columns < 2 ^ 62 }
    ensures { HandsFrom (sides_steps first id sides.rows sides.columns base) result (T.state sink.old) (T.state sink.new) }
{
    let first_column = first + sides.rows as u32;
    let inner = first_column + sides.columns as u32;
    let row_line = Line {
        first,
        count: sides.rows,
    };
    derive_side(alloc, id, base, row_line, inner, sink)?;
    let column_line = Line {
        first: first_column,
        count: sides.columns,
    };
    let column_base = base + 2 * sides.rows as u64;
    let last = inner + fresh_of(sides.rows) as u32;
    derive_side(alloc, id, column_base, column_line, last, sink)?;
    derive_deletions(alloc, base, 2, (sides.rows + sides.columns) as u64, sink)
}

/// Hands over the whole derivation, where `id` is the constraint's.
#[cycle(derive_grid)]
pub fn derive_grid<T: StepSink>(
    alloc: Global,
    literals: &Source,
    first: u32,
    id: u64,
    sink: &mut T,
) -> SinkResult
    requires low { 1 ≤ first }
    requires few { source_size literals.now < 2 ^ 31 }
    requires fits { first + product_fresh (source_size literals.now) ≤ 2 ^ 31 }
    requires room { (T.state sink.old).next + most_steps (source_size literals.now) < 2 ^ 62 }
    ensures { HandsFrom (product_steps (source_literals literals.now) first id) result (T.state sink.old) (T.state sink.new) }
{
    let count = literals.len();
    if count <= 4 {
        return derive_pairs(alloc, literals, id, sink);
    }
    let sides = sides_of(count);
    let base = sink.next_id();
    let grid = Grid {
        literals: *literals,
        first,
        sides,
    };
    derive_pieces(alloc, &Lines { grid }, sink)?;
    derive_pieces(alloc, &Cells { grid, base }, sink)?;
    derive_sides(alloc, id, base, first, sides, sink)
}
