//! The text of a solution.
ghost use Rattle.std.specs.Prelude.{◌≡◌, ◌≤ℤ◌, neg_ℤ, pos, ◌+◌, ◌<◌, ◌≤◌, ◌^◌, ◌++◌, OnOk, OnErr, length, take, Some};
ghost use Rattle.pb_base.specs.Literals.{assigned_by};
ghost use Rattle.pb_base.specs.Problems.{magnitude, objective_terms, sum_value, widened, IsWithinLimits};
ghost use Rattle.pb_model.specs.Decoding.{AreVarsWithin};
ghost use Rattle.pb_model.specs.SolutionText.{objective_line, value_word, value_words, values_line, optimum_text, solution_text, text_under};

use crate::appending::whole_or_none;
use crate::decoding::sum_of;
use crate::naming::push_name;
use crate::widened::Widened;
use itoa::Buffer;
use pb_base::{Bits, NoMemory, Problem, Term};
use std::alloc::{AllocError, Global};

// Appends the value of a sum.
fn push_sum(out: &mut Vec<u8>, terms: &[Term], values: &Widened) -> Result<(), AllocError>
    requires vars { AreVarsWithin (length values.now) terms.now }
    requires numbers { magnitude terms.now < 2 ^ 100 }
    ensures ok { OnOk result (out.new.items ≡ out.old.items ++ objective_line (assigned_by values.now) (Some terms.now)) }
    ensures before { take (length out.old.items) out.new.items ≡ out.old.items }
{
    out.extend_from_slice(b"o ")?;
    out.extend_from_slice(Buffer::new().format(sum_of(values, terms)).as_bytes())?;
    out.extend_from_slice(b"\n")
}

// Appends a variable and its value.
fn push_value(
    out: &mut Vec<u8>,
    problem: &Problem,
    variable: u64,
    value: bool,
) -> Result<(), AllocError>
    requires { variable ≤ problem.now.numbered + length problem.now.names }
    ensures ok { OnOk result (out.new.items ≡ out.old.items ++ value_word problem.now variable value) }
    ensures before { take (length out.old.items) out.new.items ≡ out.old.items }
{
    out.extend_from_slice(if value { b" " } else { b" -" })?;
    push_name(out, problem, variable)
}

/// Returns the value of the objective; 0 if there is none.
pub fn objective_of(problem: &Problem, values: &Bits) -> i128
    requires within { IsWithinLimits problem.now }
    requires covers { length values.now ≡ problem.now.vars }
    // The value of the objective under the values, and 0 if there is none.
    ensures value { result ≡ sum_value (assigned_by (widened problem.now values.now)) (objective_terms problem.now) }
    ensures low { neg_ℤ (pos (magnitude (objective_terms problem.now))) ≤ℤ result }
    ensures high { result ≤ℤ pos (magnitude (objective_terms problem.now)) }
{
    match &problem.objective {
        None => 0,
        Some(terms) => sum_of(&Widened::new(problem, values.as_slice()), terms.as_slice()),
    }
}

// Appends the values of all variables.
fn push_values(out: &mut Vec<u8>, problem: &Problem, values: &[bool]) -> Result<(), AllocError>
    requires within { IsWithinLimits problem.now }
    requires covers { length values.now ≡ problem.now.vars }
    ensures ok { OnOk result (out.new.items ≡ out.old.items ++ value_words problem.now 1 values.now) }
    ensures before { take (length out.old.items) out.new.items ≡ out.old.items }
{
    for (place, value) in values.iter().enumerate() {
        push_value(out, problem, place as u64 + 1, *value)?;
    }
    Ok(())
}

// Appends the value of the objective, if there is one.
fn push_objective(out: &mut Vec<u8>, problem: &Problem, values: &[bool]) -> Result<(), AllocError>
    requires within { IsWithinLimits problem.now }
    requires covers { length values.now ≡ problem.now.vars }
    ensures ok { OnOk result (out.new.items ≡ out.old.items ++ objective_line (assigned_by (widened problem.now values.now)) problem.now.objective) }
    ensures before { take (length out.old.items) out.new.items ≡ out.old.items }
{
    match &problem.objective {
        None => Ok(()),
        Some(terms) => push_sum(out, terms.as_slice(), &Widened::new(problem, values)),
    }
}

// Appends the line of the values.
fn push_values_line(out: &mut Vec<u8>, problem: &Problem, values: &[bool]) -> Result<(), AllocError>
    requires within { IsWithinLimits problem.now }
    requires covers { length values.now ≡ problem.now.vars }
    ensures ok { OnOk result (out.new.items ≡ out.old.items ++ values_line problem.now values.now) }
    ensures before { take (length out.old.items) out.new.items ≡ out.old.items }
{
    out.extend_from_slice(b"v")?;
    push_values(out, problem, values)?;
    out.extend_from_slice(b"\n")
}

// Appends the value of the objective, a status and the values, or a part of that.
fn push_text(
    out: &mut Vec<u8>,
    status: &[u8],
    problem: &Problem,
    values: &[bool],
) -> Result<(), AllocError>
    requires within { IsWithinLimits problem.now }
    requires covers { length values.now ≡ problem.now.vars }
    ensures ok { OnOk result (out.new.items ≡ out.old.items ++ text_under status.now problem.now values.now) }
    ensures before { take (length out.old.items) out.new.items ≡ out.old.items }
{
    push_objective(out, problem, values)?;
    out.extend_from_slice(status)?;
    push_values_line(out, problem, values)
}

// Appends the value of the objective, a status and the values. If memory runs out, the bytes are as they were.
fn write_text(
    out: &mut Vec<u8>,
    status: &[u8],
    problem: &Problem,
    values: &Bits,
) -> Result<(), NoMemory>
    requires within { IsWithinLimits problem.now }
    requires covers { length values.now ≡ problem.now.vars }
    ensures ok { OnOk result (out.new.items ≡ out.old.items ++ text_under status.now problem.now values.now) }
    ensures err { OnErr result (out.new.items ≡ out.old.items) }
{
    let before = out.len();
    let appended = push_text(out, status, problem, values.as_slice());
    whole_or_none(out, before, appended)
}

/// Appends the text of a solution: the value of the objective, if there is one, that there is a solution, and the value of each
/// variable, by its name. If memory runs out, the bytes are as they were.
pub fn write_solution(
    _alloc: Global,
    problem: &Problem,
    values: &Bits,
    out: &mut Vec<u8>,
) -> Result<(), NoMemory>
    requires within { IsWithinLimits problem.now }
    requires covers { length values.now ≡ problem.now.vars }
    // On success the text of the solution was appended, with the exact value of the objective and each variable by its name.
    ensures ok { OnOk result (out.new.items ≡ out.old.items ++ solution_text problem.now values.now) }
    // After `NoMemory` the bytes are as they were.
    ensures err { OnErr result (out.new.items ≡ out.old.items) }
{
    write_text(out, b"s SATISFIABLE\n", problem, values)
}

/// Appends the text of a solution as an optimum: with the status that no solution has a smaller value. If memory runs out, the bytes are
/// as they were.
pub fn write_optimum(
    _alloc: Global,
    problem: &Problem,
    values: &Bits,
    out: &mut Vec<u8>,
) -> Result<(), NoMemory>
    requires within { IsWithinLimits problem.now }
    requires covers { length values.now ≡ problem.now.vars }
    // On success the text of the solution was appended, with the exact value of the objective, as an optimum.
    ensures ok { OnOk result (out.new.items ≡ out.old.items ++ optimum_text problem.now values.now) }
    // After `NoMemory` the bytes are as they were.
    ensures err { OnErr result (out.new.items ≡ out.old.items) }
{
    write_text(out, b"s OPTIMUM FOUND\n", problem, values)
}
