//! What the outputs of a node of a totalizer mean.
ghost use Rattle.std.specs.Prelude.{◌≡◌, ◌≤◌, ◌<◌, ◌+◌, ◌*◌, ◌^◌, ◌++◌, suc, map, IfOk};
ghost use Rattle.pb_norm.specs.Constraints.{weight, weights};
ghost use Rattle.pb_derive.specs.Reifications.{reification_steps};
ghost use Rattle.pb_family.specs.StepSinks.{HandsFrom};
ghost use Rattle.pb_totalizer.specs.inner.Joints.{joint_meanings};
ghost use Rattle.pb_totalizer.specs.inner.Sides.{side_lits};
ghost use Rattle.pb_totalizer.specs.laws.UnitTerms.{unit_term};

use crate::fresh_row::FreshRow;
use crate::joint::Joint;
use crate::side::push_outputs;
use pb_base::Term;
use pb_family::{Pieces, SinkResult, StepSink, derive_pieces, derive_reification};
use std::alloc::{AllocError, Global};

// The outputs of both parts, each once.
fn inputs(alloc: Global, node: &Joint) -> Result<Vec<Term>, AllocError>
    ensures { IfOk result (λ v. v.items ≡ map unit_term (side_lits node.now.left) ++ map unit_term (side_lits node.now.right)) }
{
    let mut terms = Vec::new(alloc);
    push_outputs(&mut terms, &node.left)?;
    push_outputs(&mut terms, &node.right)?;
    Ok(terms)
}

// The outputs of a node, which count the true ones of some literals.
#[derive(Clone, Copy)]
struct Meanings<'a> {
    row: FreshRow,
    inputs: &'a [Term],
    ghost few: { weight (weights inputs.now) ≤ 2 ^ 32 },
}

impl<'a> Pieces for Meanings<'a> {
    ghost use Rattle.std.specs.Prelude.{◌∷◌, [], suc};
    ghost use Rattle.pb_norm.specs.Constraints.{weights};
    ghost use Rattle.pb_derive.specs.Reifications.{reification_steps};
    ghost use Rattle.pb_family.proofs.Sequence.{reification_ids};
    ghost use Rattle.pb_totalizer.specs.inner.Joints.{meaning_of};

    ghost piece_count = { λ m. suc m.row.last };

    ghost piece_ids = { λ m. 2 };

    ghost piece = { λ m next place. reification_steps next (meaning_of m.row.first (weights m.inputs.now) place ∷ []) };

    fn count(&self) -> usize {
        1 + self.row.last as usize
    }

    fn derive_one<T: StepSink>(&self, alloc: Global, number: usize, sink: &mut T) -> SinkResult {
        let var = self.row.bit(number as u64).var;
        derive_reification(alloc, var, self.inputs, number as u128 + 1, sink)
    }

    ghost takes = { λ m next place. reification_ids next (meaning_of m.row.first (weights m.inputs.now) place) };
}

/// Hands over what the outputs mean.
pub fn derive_meanings<T: StepSink>(alloc: Global, node: &Joint, sink: &mut T) -> SinkResult
    requires few { (T.state sink.old).next + 2 * suc node.now.row.last < 2 ^ 62 }
    ensures { HandsFrom (λ next. reification_steps next (joint_meanings node.now)) result (T.state sink.old) (T.state sink.new) }
{
    let inputs = inputs(alloc, node)?;
    let meanings = Meanings {
        row: node.row,
        inputs: inputs.as_slice(),
    };
    derive_pieces(alloc, &meanings, sink)
}
