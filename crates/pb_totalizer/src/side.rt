//! The outputs of a part of a totalizer, as a derivation goes over them.
ghost use Rattle.std.specs.Prelude.{◌≡◌, ◌<◌, ◌+◌, ◌^◌, [], ◌∷◌, ◌++◌, map, OnOk};
ghost use Rattle.pb_steps.specs.declared.op.PolOp.TheVariants.{Axiom, Weaken};
ghost use Rattle.pb_steps.specs.declared.step.Step.TheVariants.{Pol};
ghost use Rattle.pb_family.specs.StepSinks.{HandsSteps};
ghost use Rattle.pb_totalizer.specs.inner.Sides.{leaf_lines, row_lits, side_gives, side_lits};
ghost use Rattle.pb_totalizer.specs.laws.UnitTerms.{unit_term};

use crate::block_parts::derive_block_lines;
use crate::fresh_row::FreshRow;
use crate::row_lines::derive_row;
use pb_base::{Lit, Term};
use pb_family::{SinkResult, StepSink, derive_line};
use pb_steps::PolOp;
use std::alloc::{AllocError, Global};

/// A leaf's literal, or a node's fresh variables.
#[derive(Clone, Copy)]
pub enum Side {
    Leaf(Lit),
    Node(FreshRow),
}

// Hands over that a literal is at least 0.
fn derive_itself<T: StepSink>(alloc: Global, lit: &Lit, sink: &mut T) -> SinkResult
    requires few { (T.state sink.old).next < 2 ^ 62 }
    ensures { HandsSteps (Pol (Axiom lit.now ∷ []) ∷ []) result (T.state sink.old) (T.state sink.new) }
{
    derive_line(alloc, &[PolOp::Axiom(*lit)], sink)
}

// Hands over a line that says nothing.
fn derive_nothing<T: StepSink>(alloc: Global, lit: &Lit, sink: &mut T) -> SinkResult
    requires few { (T.state sink.old).next < 2 ^ 62 }
    ensures { HandsSteps (Pol (Axiom lit.now ∷ Weaken lit.now.var ∷ []) ∷ []) result (T.state sink.old) (T.state sink.new) }
{
    derive_line(alloc, &[PolOp::Axiom(*lit), PolOp::Weaken(lit.var)], sink)
}

// Hands over both lines about a leaf.
fn derive_leaf<T: StepSink>(alloc: Global, lit: &Lit, sink: &mut T) -> SinkResult
    requires few { (T.state sink.old).next + 1 < 2 ^ 62 }
    ensures { HandsSteps (leaf_lines lit.now) result (T.state sink.old) (T.state sink.new) }
{
    derive_itself(alloc, lit, sink)?;
    derive_nothing(alloc, lit, sink)
}

impl Side {
    ghost use Rattle.std.specs.Prelude.{◌≡◌, ◌<◌, ◌+◌, ◌^◌, IfOk};
    ghost use Rattle.pb_family.specs.StepSinks.{HandsFrom};
    ghost use Rattle.pb_totalizer.specs.inner.Sides.{side_count, side_lines, side_narrows, side_others, side_size, side_wide_lines, side_wide_others, side_wide_size};

    /// How many outputs there are.
    pub fn count(&self) -> u64
        ensures { result ≡ side_count self.now }
    {
        match self {
            Side::Leaf(_) => 1,
            Side::Node(row) => 1 + row.last,
        }
    }

    /// Hands over the lines about the outputs.
    pub fn derive_lines<T: StepSink>(&self, alloc: Global, sink: &mut T) -> SinkResult
        requires few { (T.state sink.old).next + side_size self.now < 2 ^ 62 }
        ensures hands { HandsFrom (side_lines self.now) result (T.state sink.old) (T.state sink.new) }
        ensures next { IfOk result (λ _. (T.state sink.new).next ≡ (T.state sink.old).next + side_size self.now) }
    {
        match self {
            Side::Leaf(lit) => derive_leaf(alloc, lit, sink),
            Side::Node(row) => derive_row(alloc, *row, sink),
        }
    }

    /// The id of the line for a clause with no output, where the lines have the ids from `next` on.
    pub fn others(&self, next: u64) -> u64
        requires { next + side_size self.now < 2 ^ 62 }
        ensures { result ≡ side_others self.now next }
    {
        match self {
            Side::Leaf(_) => next,
            Side::Node(row) => next + (1 + row.last) + (1 + row.last),
        }
    }

    /// Hands over the lines about blocks of the outputs.
    pub fn derive_blocks<T: StepSink>(&self, alloc: Global, sink: &mut T) -> SinkResult
        requires few { (T.state sink.old).next + side_wide_size self.now < 2 ^ 62 }
        ensures hands { HandsFrom (side_wide_lines self.now) result (T.state sink.old) (T.state sink.new) }
        ensures next { IfOk result (λ _. (T.state sink.new).next ≡ (T.state sink.old).next + side_wide_size self.now) }
    {
        match self {
            Side::Leaf(lit) => derive_leaf(alloc, lit, sink),
            Side::Node(row) => derive_block_lines(alloc, *row, sink),
        }
    }

    /// The id of the line about a block for a clause with no output, where the lines about blocks have the ids from `next` on.
    pub fn block_others(&self, next: u64) -> u64
        requires { next + side_wide_size self.now < 2 ^ 62 }
        ensures { result ≡ side_wide_others self.now next }
    {
        match self {
            Side::Leaf(_) => next,
            Side::Node(row) => {
                next + (1 + row.last) + (2 + row.last) + (1 + row.last) + (1 + row.last)
            }
        }
    }

    /// The id of the line about all outside the first block.
    pub fn narrows(&self, next: u64) -> u64
        requires { next + side_wide_size self.now < 2 ^ 62 }
        ensures { result ≡ side_narrows self.now next }
    {
        match self {
            Side::Leaf(_) => next + 1,
            Side::Node(row) => self.block_others(next) + (2 + row.last),
        }
    }
}

// Adds fresh variables in a row, each once.
fn push_row(terms: &mut Vec<Term>, row: &FreshRow) -> Result<(), AllocError>
    ensures { OnOk result (terms.new.items ≡ terms.old.items ++ map unit_term (row_lits row.now)) }
{
    for place in 0..1 + row.last {
        terms.push(Term {
            coef: 1,
            lit: row.bit(place),
        })?;
    }
    Ok(())
}

/// Adds the outputs, each once.
pub fn push_outputs(terms: &mut Vec<Term>, side: &Side) -> Result<(), AllocError>
    ensures { OnOk result (terms.new.items ≡ terms.old.items ++ map unit_term (side_lits side.now)) }
{
    match side {
        Side::Leaf(lit) => terms.extend_from_slice(&[Term { coef: 1, lit: *lit }]),
        Side::Node(row) => push_row(terms, row),
    }
}

/// Adds the operations by which the outputs give way to the leaves, by the line with an id; a leaf is its own output.
pub fn push_giving(ops: &mut Vec<PolOp>, side: &Side, id: u64) -> Result<(), AllocError>
    ensures { OnOk result (ops.new.items ≡ ops.old.items ++ side_gives side.now id) }
{
    match side {
        Side::Leaf(_) => Ok(()),
        Side::Node(_) => ops.extend_from_slice(&[PolOp::Push(id), PolOp::Add]),
    }
}
