//! What a line lists, each appended with the blank before it.
ghost use Rattle.std.specs.Prelude.{◌≡◌, ◌++◌, ◌∷◌, OnOk, OnErr};
ghost use Rattle.std.specs.Fmt.{signed_decimal};
ghost use Rattle.pb_steps.specs.StepText.{with_blanks};
ghost use Rattle.pb_steps.specs.StepGrammar.{op_symbols, term_symbols, set_symbols};
ghost use Rattle.pb_steps.specs.inner.Appending.{KeepsFront};

use crate::op::{PolOp, Set};
use crate::write_word::{
    push_coefficient, push_integer, push_literal, push_number, push_text, push_variable,
};
use pb_base::{Term, Var};
use std::alloc::AllocError;

// A number, and the mark that tells what it is.
fn push_factor(out: &mut Vec<u8>, n: i128, mark: &[u8]) -> Result<(), AllocError>
    ensures ok { OnOk result (out.new.items ≡ out.old.items ++ 32 ∷ signed_decimal n ++ mark.now) }
    ensures kept { OnErr result (KeepsFront out.old.items out.new.items) }
{
    push_integer(out, n)?;
    push_text(out, mark)
}

// A variable that is weakened.
fn push_weaken(out: &mut Vec<u8>, var: Var) -> Result<(), AllocError>
    ensures ok { OnOk result (out.new.items ≡ out.old.items ++ with_blanks (op_symbols (PolOp.Weaken var))) }
    ensures kept { OnErr result (KeepsFront out.old.items out.new.items) }
{
    push_variable(out, var)?;
    push_text(out, b" w")
}

/// Appends an operation.
pub(crate) fn push_op(out: &mut Vec<u8>, op: &PolOp) -> Result<(), AllocError>
    ensures ok { OnOk result (out.new.items ≡ out.old.items ++ with_blanks (op_symbols op.now)) }
    ensures kept { OnErr result (KeepsFront out.old.items out.new.items) }
{
    match op {
        PolOp::Push(id) => push_number(out, *id),
        PolOp::Axiom(lit) => push_literal(out, *lit),
        PolOp::Add => push_text(out, b" +"),
        PolOp::Mul(n) => push_factor(out, *n, b" *"),
        PolOp::Div(n) => push_factor(out, *n, b" d"),
        PolOp::Saturate => push_text(out, b" s"),
        PolOp::Weaken(var) => push_weaken(out, *var),
    }
}

/// Appends a term.
pub(crate) fn push_term(out: &mut Vec<u8>, term: &Term) -> Result<(), AllocError>
    ensures ok { OnOk result (out.new.items ≡ out.old.items ++ with_blanks (term_symbols term.now)) }
    ensures kept { OnErr result (KeepsFront out.old.items out.new.items) }
{
    push_coefficient(out, term.coef)?;
    push_literal(out, term.lit)
}

/// Appends a variable and its value.
pub(crate) fn push_set(out: &mut Vec<u8>, set: &Set) -> Result<(), AllocError>
    ensures ok { OnOk result (out.new.items ≡ out.old.items ++ with_blanks (set_symbols set.now)) }
    ensures kept { OnErr result (KeepsFront out.old.items out.new.items) }
{
    push_variable(out, set.var)?;
    push_text(out, if set.value { b" -> 1" } else { b" -> 0" })
}
