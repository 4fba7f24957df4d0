//! The steps of a grid's cells, and the sum of its rows or columns.
ghost use Rattle.std.specs.Prelude.{◌≡◌, ◌<◌, ◌+◌, ◌*◌, ◌^◌, [], ◌∷◌, map, IfOk};
ghost use Rattle.std.specs.List.{range_with_len};
ghost use Rattle.pb_family.specs.StepSinks.{HandsSteps};
ghost use Rattle.pb_amo.specs.ProductSteps.{line_sum};

use crate::grid::Grid;
use pb_family::{Pieces, SinkResult, StepSink, derive_propagated, derive_sum, fresh_at};
use std::alloc::{AllocError, Global};

/// A grid whose reifications' constraints have the ids from `base` on.
#[derive(Clone, Copy)]
pub struct Cells<'a> {
    pub grid: Grid<'a>,
    pub base: u64,
    ghost modest: { base < 2 ^ 62 },
}

/// The lines of a side: the variable of the first, and the id of its first constraint.
#[derive(Clone, Copy)]
struct Side {
    first: u32,
    base: u64,
}

impl Cells<'_> {
    ghost use Rattle.std.specs.Prelude.{◌≡◌, ◌≤◌, ◌<◌, ◌+◌, ◌*◌, ◌^◌, [], ◌∷◌};
    ghost use Rattle.pb_base.specs.Literals.{negated};
    ghost use Rattle.pb_family.specs.Derivations.{propagated};
    ghost use Rattle.pb_family.specs.Fresh.{fresh_at, literal_at};
    ghost use Rattle.pb_family.specs.StepSinks.{HandsFrom};
    ghost use Rattle.pb_amo.specs.inner.Source.{source_literals};
    ghost use Rattle.pb_amo.specs.inner.ProductParts.{source_size};

    /// That the literal at a place makes its line true, by the line's second constraint.
    fn derive_cell<T: StepSink>(
        &self,
        alloc: Global,
        side: Side,
        place: usize,
        line: usize,
        sink: &mut T,
    ) -> SinkResult
        requires within { place < source_size self.now.grid.literals }
        requires low { 1 ≤ side.first }
        requires fits { side.first + line < 2 ^ 31 }
        requires known { side.base + 2 * line + 1 < 2 ^ 63 }
        requires few { (T.state sink.old).next + 1 < 2 ^ 62 }
        ensures { HandsFrom (λ next. propagated next ((side.base + 2 * line + 1) ∷ []) (negated (literal_at (source_literals self.now.grid.literals) place) ∷ fresh_at side.first line ∷ [])) result (T.state sink.old) (T.state sink.new) }
    {
        let not = self.grid.literals.at(place).not();
        let id = side.base + 2 * line as u64 + 1;
        derive_propagated(alloc, &[id], &[not, fresh_at(side.first, line)], sink)
    }
}

impl Pieces for Cells<'_> {
    ghost use Rattle.std.specs.Prelude.{refl};
    ghost use Rattle.pb_derive.specs.Claims.{claim_steps};
    ghost use Rattle.pb_amo.specs.ProductSteps.{cell_claims};
    ghost use Rattle.pb_amo.specs.inner.Source.{source_literals};
    ghost use Rattle.pb_amo.specs.inner.ProductParts.{source_size};

    ghost piece_count = { λ c. source_size c.grid.literals };

    ghost piece_ids = { λ _. 2 };

    ghost piece = { λ c next e. claim_steps next (cell_claims (source_literals c.grid.literals) c.grid.first c.grid.sides.rows c.grid.sides.columns c.base e) };

    fn count(&self) -> usize {
        self.grid.literals.len()
    }

    fn derive_one<T: StepSink>(&self, alloc: Global, number: usize, sink: &mut T) -> SinkResult {
        let sides = self.grid.sides;
        let rows = Side {
            first: self.grid.first,
            base: self.base,
        };
        self.derive_cell(alloc, rows, number, number / sides.columns, sink)?;
        let columns = Side {
            first: self.grid.first + sides.rows as u32,
            base: self.base + 2 * sides.rows as u64,
        };
        self.derive_cell(alloc, columns, number, number % sides.columns, sink)
    }

    ghost takes = { λ c next e. refl };
}
/// The ids of a constraint and of the first constraints of so many lines.
fn ids_of(alloc: Global, id: u64, base: u64, count: usize) -> Result<Vec<u64>, AllocError>
    requires low { base < 2 ^ 62 }
    requires narrow { count < 2 ^ 31 }
    ensures { IfOk result (λ v. v.items ≡ id ∷ map (λ k. base + 2 * k) (range_with_len 0 count)) }
{
    let mut ids = vec![in alloc; id]?;
    for line in 0..count {
        ids.push(base + 2 * line as u64)?;
    }
    Ok(ids)
}

/// That at most one of the lines has a true literal.
pub fn derive_line_sum<T: StepSink>(
    alloc: Global,
    id: u64,
    base: u64,
    count: usize,
    sink: &mut T,
) -> SinkResult
    requires low { base < 2 ^ 62 }
    requires narrow { count < 2 ^ 31 }
    requires room { (T.state sink.old).next < 2 ^ 62 }
    ensures { HandsSteps (line_sum id base count ∷ []) result (T.state sink.old) (T.state sink.new) }
{
    let ids = ids_of(alloc, id, base, count)?;
    derive_sum(alloc, &ids, sink)
}
