//! Statements under conditions, as statements with one more term.
ghost use Rattle.std.specs.Prelude.{◌≡◌, ◌≤◌, ◌<◌, ◌^◌, ◌∷◌, ◌++◌, [], ◌⊎◌, ◌↔◌, pos, All, IfOk, IsTrue, OnOk, length, map};
ghost use Rattle.std.specs.Int.RustNames.{unsigned_abs};
ghost use Rattle.pb_base.specs.Literals.{negated};
ghost use Rattle.pb_base.specs.Problems.{StaysBelow};
ghost use Rattle.pb_columns.specs.Conditions.{least_under, most_under, posed, posed_under};
ghost use Rattle.pb_columns.specs.Columns.{conditions_in, FindsStray, HasMorePosed, IsCondition};

use crate::literals::{is_below, literal_of};
use crate::parts::{shift_down, shift_up};
use crate::sum::PbcnfSum;
use pb_base::{Lit, NoMemory, Raw, Relation, Statements, StatementsLeft, Term};
use std::alloc::Global;

// True if the number is 0, which is no condition, or that of a literal whose variable is below the first fresh one.
fn is_condition(number: i32, first: u32) -> bool
    ensures { IsTrue result ↔ IsCondition first number }
{
    number == 0 || is_below(number, first)
}

/// Returns the number, from 1, of the first sum whose condition is no literal of a variable below the first fresh one.
pub(crate) fn first_stray(sums: &[PbcnfSum], first: u32) -> Option<u64>
    ensures { FindsStray first sums.now result }
{
    for place in 0..sums.len() {
        if !is_condition(sums[place].condition, first) {
            return Some(place as u64 + 1);
        }
    }
    None
}

// Returns a term of the opposite literal.
fn term_against(coef: i128, lit: &Lit) -> Term
    ensures { result ≡ record { coef = coef; lit = negated lit.now } }
{
    Term {
        coef,
        lit: lit.not(),
    }
}

// Adds a half of a statement, with one more term. The room is used again.
fn push_half(
    posed: &mut Statements,
    room: &mut Vec<Term>,
    statement: &Raw,
    relation: Relation,
    more: Term,
) -> Result<(), NoMemory>
    ensures { OnOk result (posed.new ≡ posed.old ++ record { terms = statement.now.terms ++ more ∷ []; relation = relation; right = statement.now.right } ∷ []) }
{
    room.clear();
    room.extend_from_slice(statement.terms.as_slice())?;
    room.push(more)?;
    posed.push(room.as_slice(), relation, statement.right)
}

// Adds the lower half under a condition.
fn push_least(
    posed: &mut Statements,
    room: &mut Vec<Term>,
    statement: &Raw,
    condition: &Lit,
) -> Result<(), NoMemory>
    requires { StaysBelow (2 ^ 100) statement.now }
    ensures { OnOk result (posed.new ≡ posed.old ++ least_under condition.now statement.now.terms statement.now.right ∷ []) }
{
    let more = term_against(shift_up(statement), condition);
    push_half(posed, room, statement, Relation::AtLeast, more)
}

// Adds the upper half under a condition.
fn push_most(
    posed: &mut Statements,
    room: &mut Vec<Term>,
    statement: &Raw,
    condition: &Lit,
) -> Result<(), NoMemory>
    requires { StaysBelow (2 ^ 100) statement.now }
    ensures { OnOk result (posed.new ≡ posed.old ++ most_under condition.now statement.now.terms statement.now.right ∷ []) }
{
    let more = term_against(shift_down(statement), condition);
    push_half(posed, room, statement, Relation::AtMost, more)
}

// Adds a statement, under the condition of a number unless that is 0.
fn pose_one(
    posed: &mut Statements,
    room: &mut Vec<Term>,
    statement: &Raw,
    condition: i32,
) -> Result<(), NoMemory>
    requires light { StaysBelow (2 ^ 100) statement.now }
    requires small { unsigned_abs condition < 2 ^ 31 }
    ensures { OnOk result (posed.new ≡ posed.old ++ posed_under condition statement.now) }
{
    if condition == 0 {
        return posed.push(
            statement.terms.as_slice(),
            statement.relation,
            statement.right,
        );
    }
    let lit = literal_of(condition);
    match statement.relation {
        Relation::AtLeast => push_least(posed, room, statement, &lit),
        Relation::AtMost => push_most(posed, room, statement, &lit),
        Relation::Equal => {
            push_least(posed, room, statement, &lit)?;
            push_most(posed, room, statement, &lit)
        }
    }
}

// Adds the next statement that is left, under the condition of a number. The rooms are used again.
fn pose_next(
    posed: &mut Statements,
    room: &mut Vec<Term>,
    statement: &mut Raw,
    left: &mut StatementsLeft<'_>,
    condition: i32,
) -> Result<(), NoMemory>
    requires some { 1 ≤ length left.old }
    requires light { All (StaysBelow (2 ^ 100)) left.old }
    requires small { unsigned_abs condition < 2 ^ 31 }
    ensures { OnOk result (HasMorePosed condition left.old left.new posed.old posed.new) }
{
    if left.next_into(statement)? {
        pose_one(posed, room, statement, condition)
    } else {
        Ok(())
    }
}

// Returns the statements under the conditions of their sums.
fn pose_all(
    alloc: Global,
    sums: &[PbcnfSum],
    statements: &Statements,
) -> Result<Statements, NoMemory>
    requires many { length statements.now ≡ length sums.now }
    requires light { All (StaysBelow (2 ^ 100)) statements.now }
    requires small { All (λ m. unsigned_abs m.condition < 2 ^ 31) sums.now }
    ensures { IfOk result (λ ss. ss ≡ posed (conditions_in sums.now) statements.now) }
{
    let mut posed = Statements::new(alloc);
    let mut left = statements.iter();
    let mut statement = Raw::empty(alloc);
    let mut room = Vec::new(alloc);
    for place in 0..sums.len() {
        pose_next(
            &mut posed,
            &mut room,
            &mut statement,
            &mut left,
            sums[place].condition,
        )?;
    }
    Ok(posed)
}

// True only if no sum has a condition.
fn are_plain(sums: &[PbcnfSum]) -> bool
    ensures { IsTrue result → All (λ m. m.condition ≡ pos 0) sums.now }
{
    for place in 0..sums.len() {
        if sums[place].condition != 0 {
            return false;
        }
    }
    true
}

/// Returns the statements of sums, each under its condition.
pub(crate) fn posed(
    alloc: Global,
    sums: &[PbcnfSum],
    statements: Statements,
) -> Result<Statements, NoMemory>
    requires many { length statements ≡ length sums.now }
    requires light { All (StaysBelow (2 ^ 100)) statements }
    requires small { All (λ m. unsigned_abs m.condition < 2 ^ 31) sums.now }
    ensures { IfOk result (λ ss. ss ≡ posed (conditions_in sums.now) statements) }
{
    if are_plain(sums) {
        return Ok(statements);
    }
    pose_all(alloc, sums, &statements)
}
