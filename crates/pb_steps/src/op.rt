//! Operations on a stack of constraints, and substitutions.
use pb_base::{Lit, Var};

/// An operation on a stack of constraints in postfix notation (cutting planes as in Gocht et al. 2022).
#[derive(Clone, Copy)]
pub enum PolOp {
    /// Pushes the live constraint with an id.
    Push(u64),
    /// Pushes that a literal is at least 0.
    Axiom(Lit),
    /// Adds the two topmost constraints.
    Add,
    /// Multiplies the topmost constraint by a factor from 1 on.
    Mul(i128),
    /// Divides the topmost constraint by a factor from 1 on, rounding up.
    Div(i128),
    /// Cuts the coefficients of the topmost constraint to its degree.
    Saturate,
    /// Takes a variable out of the topmost constraint.
    Weaken(Var),
}

/// A variable, and the value that a substitution gives it (Gocht and Nordström 2021).
#[derive(Clone, Copy)]
pub struct Set {
    pub var: Var,
    pub value: bool,
}
