//! What the fresh variables of a grid's rows and columns mean.
use crate::grid::Grid;
use crate::source::Stride;
use pb_base::{Term, Var};
use pb_family::{Pieces, SinkResult, StepSink, derive_reification, fresh_at};
use std::alloc::{AllocError, Global};

/// The rows and the columns of a grid.
#[derive(Clone, Copy)]
pub struct Lines<'a> {
    pub grid: Grid<'a>,
}

impl Lines<'_> {
    ghost use Rattle.std.specs.Prelude.{◌≡◌, ◌≤◌, ◌<◌, ◌+◌, ◌^◌, ℕ, Bool, [], ◌∷◌, ◌++◌, IfOk};
    ghost use Rattle.pb_norm.specs.Constraints.{weight, weights};
    ghost use Rattle.pb_family.specs.StepSinks.{HandsFrom};
    ghost use Rattle.pb_amo.specs.Passing.{in_line};
    ghost use Rattle.pb_amo.specs.ProductSteps.{row_of, column_of};
    ghost use Rattle.pb_amo.specs.inner.ProductParts.{source_size, IsMet, passed, unit_at, line_steps};

    /// The places of a row.
    fn across(&self, row: usize) -> Stride
        requires { row < self.now.grid.sides.rows }
        ensures { IsMet self.now.grid.literals result (in_line (row_of self.now.grid.sides.columns) row) }
    {
        Stride {
            from: row * self.grid.sides.columns,
            step: 1,
            count: self.grid.sides.columns,
        }
    }

    /// The places of a column.
    fn down(&self, column: usize) -> Stride
        requires { column < self.now.grid.sides.columns }
        ensures { IsMet self.now.grid.literals result (in_line (column_of self.now.grid.sides.columns) column) }
    {
        Stride {
            from: column,
            step: self.grid.sides.columns,
            count: self.grid.sides.rows,
        }
    }

    // Adds the literal at a place with the coefficient 1, if there is one.
    fn push_at(&self, terms: &mut Vec<Term>, place: usize) -> Result<(), AllocError>
        ensures out { IfOk result (λ _. source_size self.now.grid.literals ≤ place → weights terms.new.items ≡ weights terms.old.items) }
        ensures kept { let s = self.now.grid.literals in IfOk result (λ _. place < source_size s → weights terms.new.items ≡ weights terms.old.items ++ unit_at s place ∷ []) }
    {
        if place >= self.grid.literals.len() {
            return Ok(());
        }
        let lit = self.grid.literals.at(place);
        terms.push(Term { coef: 1, lit })?;
        Ok(())
    }

    /// The literals at the places, with the coefficient 1.
    fn gather(&self, alloc: Global, stride: Stride) -> Result<Vec<Term>, AllocError>
        ensures met { IfOk result (λ v. (p : ℕ → Bool) → IsMet self.now.grid.literals stride p → weights v.items ≡ passed self.now.grid.literals p) }
        ensures light { IfOk result (λ v. weight (weights v.items) ≤ stride.count) }
    {
        let mut terms = Vec::new(alloc);
        for turn in 0..stride.count {
            self.push_at(&mut terms, stride.from + turn * stride.step)?;
        }
        Ok(terms)
    }

    /// That a variable is true where some literal at the places is.
    fn derive_line<T: StepSink>(
        &self,
        alloc: Global,
        stride: Stride,
        var: Var,
        sink: &mut T,
    ) -> SinkResult
        requires room { (T.state sink.old).next + 1 < 2 ^ 62 }
        ensures { let s = self.now.grid.literals in (p : ℕ → Bool) → IsMet s stride p → HandsFrom (line_steps s var p) result (T.state sink.old) (T.state sink.new) }
    {
        let terms = self.gather(alloc, stride)?;
        derive_reification(alloc, var, &terms, 1, sink)
    }
}

impl Pieces for Lines<'_> {
    ghost use Rattle.std.specs.Prelude.{◌+◌, [], ◌∷◌};
    ghost use Rattle.pb_derive.specs.Reifications.{reification_steps};
    ghost use Rattle.pb_family.proofs.Sequence.{reification_ids};
    ghost use Rattle.pb_amo.specs.inner.GridOrder.{line_at};
    ghost use Rattle.pb_amo.specs.inner.Source.{source_literals};

    ghost piece_count = { λ l. l.grid.sides.rows + l.grid.sides.columns };

    ghost piece_ids = { λ _. 2 };

    ghost piece = { λ l next k. reification_steps next (line_at (source_literals l.grid.literals) l.grid.first l.grid.sides.rows l.grid.sides.columns k ∷ []) };

    fn count(&self) -> usize {
        self.grid.sides.rows + self.grid.sides.columns
    }

    fn derive_one<T: StepSink>(&self, alloc: Global, number: usize, sink: &mut T) -> SinkResult {
        let var = fresh_at(self.grid.first, number).var;
        let rows = self.grid.sides.rows;
        if number < rows {
            self.derive_line(alloc, self.across(number), var, sink)
        } else {
            self.derive_line(alloc, self.down(number - rows), var, sink)
        }
    }

    ghost takes = { λ l next k. reification_ids next (line_at (source_literals l.grid.literals) l.grid.first l.grid.sides.rows l.grid.sides.columns k) };
}
