//! Operations on a stack of constraints.
ghost use Rattle.std.specs.Prelude.{◌≡◌, ◌≤◌, ◌<◌, ◌^◌, ℤ, [], List, Option, All, Some, None, IfSome, IfOk, IfErr, nat_lt, not, find, flat_map, length, reverse, take, unsigned_abs};
ghost use Rattle.pb_base.specs.declared.literal.Lit.{Lit};
ghost use Rattle.pb_steps.specs.declared.op.PolOp.TheVariants.{Push, Axiom, Add, Mul, Div, Saturate, Weaken};
ghost use Rattle.pb_steps.specs.declared.step.Step.TheVariants.{Pol};
ghost use Rattle.pb_steps.specs.Steps.{HasFactor, IsSpelled, ids_of_op, vars_of_op};
ghost use Rattle.pb_steps.specs.Operations.{IsNarrow};
ghost use Rattle.pb_steps.specs.Database.{Entry, is_live};
ghost use Rattle.pb_steps.specs.Stacks.{after_ops, height_after, is_stacked};
ghost use Rattle.pb_rules.specs.inner.Early.{early};
ghost use Rattle.pb_operations.specs.Room.{fitting};
ghost use Rattle.pb_rules.specs.Faults.{IsFault};
ghost use Rattle.pb_rules.specs.inner.Claims.{AllowsClaim};
ghost use Rattle.pb_rules.specs.inner.Tops.{topped, is_weakening, IsWeakening, IsRun, IsOutcome, IsOpOutcome, IsSoundConstraint, AreSoundConstraints};
ghost use Rattle.pb_database.specs.Sound.{IsDatabase};

use crate::fault::RuleFault;
use pb_base::{NoMemory, Var};
use pb_database::Database;
use pb_norm::Linear;
use pb_operations::{axiom, division, multiple, plus, saturation, weakening, weakenings};
use pb_steps::{Denied, PolOp};
use std::alloc::Global;

// ---- what the operations name

// Returns the variable of an operation, if it is above `vars`.
fn op_above(vars: u32, op: &PolOp) -> Option<Var>
    ensures { result ≡ find (λ v. nat_lt vars v) (vars_of_op op.now) }
{
    let var = match op {
        PolOp::Axiom(lit) => lit.var,
        PolOp::Weaken(var) => *var,
        _ => return None,
    };
    if var.index() > vars { Some(var) } else { None }
}

// Returns the first variable above `vars`.
fn var_above(vars: u32, ops: &[PolOp]) -> Option<Var>
    ensures { result ≡ find (λ v. nat_lt vars v) (flat_map vars_of_op ops.now) }
{
    for op in ops {
        if let Some(var) = op_above(vars, op) {
            return Some(var);
        }
    }
    None
}

// Returns the id of an operation, if no constraint is live under it.
fn op_gone(db: &Database, op: &PolOp) -> Option<u64>
    ensures { result ≡ find (λ id. not (is_live db.now.live id)) (ids_of_op op.now) }
{
    match op {
        PolOp::Push(id) if db.constraint_at(*id).is_none() => Some(*id),
        _ => None,
    }
}

// Returns the first id under which no constraint is live.
fn id_gone(db: &Database, ops: &[PolOp]) -> Option<u64>
    ensures { result ≡ find (λ id. not (is_live db.now.live id)) (flat_map ids_of_op ops.now) }
{
    for op in ops {
        if let Some(id) = op_gone(db, op) {
            return Some(id);
        }
    }
    None
}

// ---- how high the stack is

// The most constraints on a stack.
const DEPTH: u64 = 65536;

// Returns the height of the stack after an operation; `None` if an operand is missing, or the stack would pass 65,536.
fn height_after(op: &PolOp, height: u64) -> Option<u64>
    requires { height ≤ 65536 }
    ensures value { result ≡ height_after op.now height }
    ensures low { IfSome result (λ h. h ≤ 65536) }
{
    match op {
        PolOp::Push(_) | PolOp::Axiom(_) => {
            if height < DEPTH {
                Some(height + 1)
            } else {
                None
            }
        }
        PolOp::Add => { if height < 2 { None } else { Some(height - 1) } }
        _ => { if height < 1 { None } else { Some(height) } }
    }
}

// True if all operands are there, the stack never passes 65,536, and one constraint is left.
fn is_stacked(ops: &[PolOp]) -> bool
    ensures { result ≡ is_stacked ops.now }
{
    let mut height = 0;
    for op in ops {
        match height_after(op, height) {
            Some(next) => height = next,
            None => return false,
        }
    }
    height == 1
}

// ---- what is on it

// Sums of coefficients and degrees stay below this.
const LIMIT: u128 = 1 << 126;

// Returns the constraint, if the sum of its coefficients and its degree are each below 2^126.
fn fitting(made: Linear) -> Option<Linear>
    ensures { result ≡ fitting made }
{
    if made.weight() < LIMIT && made.degree() < LIMIT {
        Some(made)
    } else {
        None
    }
}

// Pushes a constraint, if there is one, and returns whether there was.
fn push_onto(stack: &mut Vec<Linear>, made: Option<Linear>) -> Result<bool, NoMemory>
    ensures { IfOk result (λ done. IsOutcome done (topped made (reverse stack.old.items)) (reverse stack.new.items)) }
{
    match made {
        Some(constraint) => {
            stack.push(constraint)?;
            Ok(true)
        }
        None => Ok(false),
    }
}

// Replaces the two topmost constraints by their sum. False if the sum is too great.
fn add_top(alloc: Global, stack: &mut Vec<Linear>) -> Result<bool, NoMemory>
    requires { All IsNarrow (reverse stack.old.items) }
    ensures { IfOk result (IsOpOutcome [] Add stack.old.items stack.new.items) }
{
    let Some(d) = stack.pop() else {
        return Ok(false)
    };
    let Some(c) = stack.pop() else {
        return Ok(false)
    };
    let sum = plus(alloc, &c, &d)?;
    push_onto(stack, sum)
}

// Multiplies the topmost constraint. False if the product is too great.
fn multiply_top(alloc: Global, factor: u128, stack: &mut Vec<Linear>) -> Result<bool, NoMemory>
    requires { 0 < factor }
    ensures { (n : ℤ) → unsigned_abs n ≡ factor → IfOk result (IsOpOutcome [] (Mul n) stack.old.items stack.new.items) }
{
    let Some(c) = stack.pop() else {
        return Ok(false)
    };
    let made = multiple(alloc, &c, factor)?;
    push_onto(stack, made)
}

// Divides the topmost constraint, and rounds up.
fn divide_top(alloc: Global, divisor: u128, stack: &mut Vec<Linear>) -> Result<bool, NoMemory>
    requires some { 0 < divisor }
    requires small { divisor ≤ 2 ^ 127 }
    ensures { (n : ℤ) → unsigned_abs n ≡ divisor → IfOk result (IsOpOutcome [] (Div n) stack.old.items stack.new.items) }
{
    let Some(c) = stack.pop() else {
        return Ok(false)
    };
    let made = fitting(division(alloc, &c, divisor)?);
    push_onto(stack, made)
}

// Saturates the topmost constraint.
fn saturate_top(alloc: Global, stack: &mut Vec<Linear>) -> Result<bool, NoMemory>
    ensures { IfOk result (IsOpOutcome [] Saturate stack.old.items stack.new.items) }
{
    let Some(c) = stack.pop() else {
        return Ok(false)
    };
    let made = fitting(saturation(alloc, &c)?);
    push_onto(stack, made)
}

// Weakens a variable of the topmost constraint away, in place.
fn weaken_top(var: Var, stack: &mut Vec<Linear>) -> Result<bool, NoMemory>
    requires { All IsNarrow (reverse stack.old.items) }
    ensures { IfOk result (IsOpOutcome [] (Weaken var) stack.old.items stack.new.items) }
{
    let Some(c) = stack.pop() else {
        return Ok(false)
    };
    push_onto(stack, Some(weakening(c, var)))
}

// Pushes the constraint with an id.
fn push_at(db: &Database, id: u64, stack: &mut Vec<Linear>) -> Result<bool, NoMemory>
    ensures { IfOk result (IsOpOutcome db.now.live (Push id) stack.old.items stack.new.items) }
{
    let Some(found) = db.constraint_at(id) else {
        return Ok(false)
    };
    let copy = found.read(db.alloc())?;
    push_onto(stack, Some(copy))
}

// Applies an operation. False if it cannot be applied.
fn apply_op(db: &Database, op: &PolOp, stack: &mut Vec<Linear>) -> Result<bool, NoMemory>
    requires factor { HasFactor op.now }
    requires narrow { All IsNarrow (reverse stack.old.items) }
    ensures { IfOk result (IsOpOutcome db.now.live op.now stack.old.items stack.new.items) }
{
    let alloc = db.alloc();
    match op {
        PolOp::Push(id) => push_at(db, *id, stack),
        PolOp::Axiom(lit) => {
            let made = fitting(axiom(alloc, *lit)?);
            push_onto(stack, made)
        }
        PolOp::Add => add_top(alloc, stack),
        PolOp::Mul(factor) => multiply_top(alloc, factor.unsigned_abs(), stack),
        PolOp::Div(divisor) => divide_top(alloc, divisor.unsigned_abs(), stack),
        PolOp::Saturate => saturate_top(alloc, stack),
        PolOp::Weaken(var) => weaken_top(*var, stack),
    }
}

// True if the operation weakens.
fn weakens(op: &PolOp) -> bool
    ensures { result ≡ is_weakening op.now }
{
    matches!(op, PolOp::Weaken(_))
}

// Returns the number of operations at the front that weaken.
fn weakenings_in_front(ops: &[PolOp]) -> usize
    ensures within { result ≤ length ops.now }
    ensures weaken { All IsWeakening (take result ops.now) }
{
    for place in 0..ops.len() {
        if !weakens(&ops[place]) {
            return place;
        }
    }
    ops.len()
}

// Returns the number of operations at the front that are applied at once: those that weaken, or one.
fn run_in_front(ops: &[PolOp]) -> usize
    requires { 1 ≤ length ops.now }
    ensures some { 1 ≤ result }
    ensures within { result ≤ length ops.now }
    ensures run { IsRun (take result ops.now) }
{
    let count = weakenings_in_front(ops);
    if count > 1 { count } else { 1 }
}

// Weakens the topmost constraint by operations that all weaken.
fn weaken_by(run: &[PolOp], stack: &mut Vec<Linear>) -> Result<bool, NoMemory>
    requires some { 1 ≤ length run.now }
    requires weaken { All IsWeakening run.now }
    requires narrow { All IsNarrow (reverse stack.old.items) }
    ensures { (live : List Entry) → IfOk result (λ done. IsOutcome done (after_ops live run.now (reverse stack.old.items)) (reverse stack.new.items)) }
{
    let Some(c) = stack.pop() else {
        return Ok(false)
    };
    push_onto(stack, Some(weakenings(c, run)))
}

// Applies operations that are applied at once: one, or those that weaken. False if one cannot be applied.
fn apply_run(db: &Database, run: &[PolOp], stack: &mut Vec<Linear>) -> Result<bool, NoMemory>
    requires some { 1 ≤ length run.now }
    requires run { IsRun run.now }
    requires factors { All HasFactor run.now }
    requires narrow { All IsNarrow (reverse stack.old.items) }
    ensures { IfOk result (λ done. IsOutcome done (after_ops db.now.live run.now (reverse stack.old.items)) (reverse stack.new.items)) }
{
    if run.len() > 1 {
        weaken_by(run, stack)
    } else {
        apply_op(db, &run[0], stack)
    }
}

// Applies operations in order, those that weaken together at once, until one cannot be applied.
fn apply_ops(db: &Database, ops: &[PolOp], stack: &mut Vec<Linear>) -> Result<bool, NoMemory>
    requires sound { IsDatabase db.now }
    requires factors { All HasFactor ops.now }
    requires known { All (λ v. v ≤ db.now.vars) (flat_map vars_of_op ops.now) }
    requires fit { AreSoundConstraints db.now.vars (reverse stack.old.items) }
    ensures { IfOk result (λ done. IsOutcome done (after_ops db.now.live ops.now (reverse stack.old.items)) (reverse stack.new.items)) }
{
    let mut rest = ops;
    'applying: while !rest.is_empty() {
        let (run, others) = rest.split_at(run_in_front(rest));
        if !apply_run(db, run, stack)? {
            return Ok(false);
        }
        rest = others;
    }
    Ok(true)
}

// Returns the cause of a denial that is seen before the operations are applied.
fn early_denial(db: &Database, ops: &[PolOp]) -> Option<Denied>
    ensures value { result ≡ early db.now ops.now }
    ensures sound { IsDatabase db.now }
{
    if let Some(var) = var_above(db.vars(), ops) {
        return Some(Denied::UnknownVar { var });
    }
    if let Some(id) = id_gone(db, ops) {
        return Some(Denied::UnknownId { id });
    }
    if !is_stacked(ops) {
        return Some(Denied::Stack);
    }
    None
}

/// Returns the constraint that the operations make, or why the step is denied.
pub(crate) fn sum_of(db: &Database, ops: &[PolOp]) -> Result<Linear, RuleFault>
    requires { IsSpelled (Pol ops.now) }
    ensures fit { IfOk result (IsSoundConstraint db.now.vars) }
    ensures allowed { IfOk result (AllowsClaim db.now (Pol ops.now)) }
    ensures fault { (clause : Option (List Lit)) → IfErr result (IsFault db.now (Pol ops.now) clause) }
{
    if let Some(denied) = early_denial(db, ops) {
        return Err(RuleFault::Denied(denied));
    }
    let mut stack = Vec::new(db.alloc());
    if !apply_ops(db, ops, &mut stack)? {
        return Err(RuleFault::Denied(Denied::Width));
    }
    match stack.pop() {
        Some(made) => Ok(made),
        None => Err(RuleFault::Denied(Denied::Width)),
    }
}
