//! Whether the values of a model are a solution.
ghost use Rattle.std.specs.Prelude.{◌≡◌, ◌<◌, ◌≤◌, ◌+◌, ◌^◌, ◌↔◌, IsTrue, All, length};
ghost use Rattle.pb_base.specs.Literals.{assigned_by};
ghost use Rattle.pb_base.specs.Problems.{magnitude, written_value, sum_value, Satisfies, StaysBelow, IsWithinLimits};
ghost use Rattle.pb_base.specs.Statements.{raw_of};
ghost use Rattle.pb_model.specs.Decoding.{FindsViolated, IsDecoded, AreVarsWithin};

use crate::model::{Model, Says};
use crate::widened::Widened;
use pb_base::{Problem, Relation, Statement, Statements, Term, TermsLeft};

/// The result of testing a model against a problem.
#[derive(Clone, Copy)]
pub enum Decoded {
    /// The solver does not say that there is a model.
    NoModel,
    /// The values violate a statement, counted from 1, as the first.
    Violates { statement: u64 },
    /// The values are a solution.
    Solution,
}

// Returns the coefficient of a term if its literal is true, and else 0.
fn term_value(values: &Widened, term: &Term) -> i128
    requires { term.now.lit.var ≤ length values.now }
    ensures { result ≡ written_value (assigned_by values.now) term.now }
{
    if values.is_true(term.lit) {
        term.coef
    } else {
        0
    }
}

/// Returns the sum of the coefficients of the true terms.
pub(crate) fn sum_of(values: &Widened, terms: &[Term]) -> i128
    requires vars { AreVarsWithin (length values.now) terms.now }
    requires numbers { magnitude terms.now < 2 ^ 100 }
    ensures { result ≡ sum_value (assigned_by values.now) terms.now }
{
    let mut sum: i128 = 0;
    for term in terms {
        sum += term_value(values, term);
    }
    sum
}

// Returns the sum of the coefficients of the true terms of a statement that is read from its stored form.
fn sum_left(values: &Widened, terms: TermsLeft<'_>) -> i128
    requires vars { AreVarsWithin (length values.now) terms }
    requires numbers { magnitude terms < 2 ^ 100 }
    ensures { result ≡ sum_value (assigned_by values.now) terms.entry }
{
    let mut sum: i128 = 0;
    for term in terms {
        sum += term_value(values, &term);
    }
    sum
}

// True if the statement holds under the values.
fn satisfies(values: &Widened, statement: Statement<'_>) -> bool
    requires vars { AreVarsWithin (length values.now) statement.terms }
    requires numbers { magnitude statement.terms < 2 ^ 100 }
    ensures { IsTrue result ↔ Satisfies (assigned_by values.now) (raw_of statement.entry) }
{
    let sum = sum_left(values, statement.terms);
    match statement.relation {
        Relation::AtLeast => sum >= statement.right,
        Relation::AtMost => sum <= statement.right,
        Relation::Equal => sum == statement.right,
    }
}

// Returns the position, from 0, of the first statement that does not hold.
fn first_violated(values: &Widened, statements: &Statements) -> Option<u64>
    requires few { length statements.now ≤ 2 ^ 24 + 1 }
    requires vars { All (λ s. AreVarsWithin (length values.now) s.terms) statements.now }
    requires numbers { All (StaysBelow (2 ^ 100)) statements.now }
    ensures { FindsViolated (assigned_by values.now) statements.now result }
{
    let mut place = 0;
    for statement in statements.iter() {
        if !satisfies(values, statement) {
            return Some(place);
        }
        place += 1;
    }
    None
}

/// Tests the values of a model, one for each variable of the problem, against each statement. Products have the values that follow. A
/// model text that does not say `SATISFIABLE` gives `NoModel`.
pub fn decode(problem: &Problem, model: &Model) -> Decoded
    requires within { IsWithinLimits problem.now }
    requires covers { length model.now.values ≡ problem.now.vars }
    // The answer is no model iff the text does not say that there is one; else the first statement that the values violate, counted from
    // 1; else the values, which are a solution.
    ensures { IsDecoded problem.now model.now result }
{
    let Says::Satisfiable = model.says else {
        return Decoded::NoModel;
    };
    let values = Widened::new(problem, model.values.as_slice());
    match first_violated(&values, &problem.statements) {
        None => Decoded::Solution,
        Some(place) => Decoded::Violates {
            statement: place + 1,
        },
    }
}
