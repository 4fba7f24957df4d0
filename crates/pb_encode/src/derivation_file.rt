//! The file of a problem's derivation.
ghost use Rattle.std.specs.Prelude.{◌≡◌, ◌≤◌, ◌<◌, ◌^◌, ◌+◌, All, length};
ghost use Rattle.pb_base.specs.Problems.{IsWithinLimits};
ghost use Rattle.pb_base.specs.Statements.{raw_of};
ghost use Rattle.pb_norm.specs.Halves.{constraints_of, loaded};
ghost use Rattle.pb_norm.specs.Products.{defining, loaded_of};

use crate::encodable::Encodable;
use crate::file::FileText;
use crate::whole::stream_told_steps;
use pb_base::{Lits, Problem, Statement, Statements};
use pb_desk::Desk;
use pb_dimacs::{StepWriter, WriteBuffer, finish};
use pb_family::SinkResult;
use pb_norm::halves_of;
use std::alloc::Global;

// Returns the number of constraints of a statement in normal form: 2 of an equality, else 1.
fn count_of(statement: &Statement<'_>) -> u64
    ensures count { result ≡ length (constraints_of (raw_of statement.now)) }
    ensures few { result ≤ 2 }
{
    halves_of(statement.relation).len() as u64
}

// Returns the number of constraints of all statements in normal form.
fn count_statements(statements: &Statements) -> u64
    requires few { length statements.now ≤ 2 ^ 24 + 1 }
    ensures count { result ≡ length (loaded statements.now) }
    ensures few { result ≤ 2 ^ 25 + 2 }
{
    let mut count = 0_u64;
    for statement in statements.iter() {
        count += count_of(&statement);
    }
    count
}

// Returns the number of constraints that define products: one for each literal, and one more for each product.
fn count_products(vars: u32, products: &[Lits]) -> u64
    requires vars { vars + length products.now < 2 ^ 31 }
    requires few { All (λ ls. length ls ≤ 2 ^ 20) products.now }
    ensures count { result ≡ length (defining (vars + 1) products.now) }
    ensures few { result ≤ 2 ^ 52 }
{
    let mut count = 0_u64;
    for literals in products {
        count += literals.len() as u64 + 1;
    }
    count
}

/// Returns the number of loaded constraints of a problem, which its derivation begins with and its line `f N` states.
///
/// ```text
/// +1 x1 +1 x2 >= 1 ;     1 constraint
/// +1 x1 +1 x2  = 1 ;     2, one for each half
/// ```
pub fn count_loaded(problem: &Problem) -> u64
    requires within { IsWithinLimits problem.now }
    ensures count { result ≡ length (loaded_of problem.now) }
    ensures few { result ≤ 2 ^ 53 }
{
    count_products(problem.vars, problem.products.as_slice())
        + count_statements(&problem.statements)
}

// The derivation of a problem's clauses, as a text.
impl FileText for Encodable<'_> {
    ghost use Rattle.pb_encode.specs.Encodings.{derivation_text};

    ghost text = { λ e. derivation_text e.options.now e.problem.now };

    // Emits the derivation to the slot: the two lines of its head, the steps, and `end`.
    fn send<D: Desk>(&self, alloc: Global, desk: &mut D, slot: u8) -> SinkResult {
        let next = count_loaded(self.problem) + 1;
        let mut outbox = WriteBuffer::new(alloc)?;
        let mut line = Vec::new(alloc);
        let handed = {
            let mut writer = StepWriter::new(alloc, desk, slot, &mut outbox, &mut line, next);
            stream_told_steps(alloc, self, &mut writer)
        };
        finish(desk, slot, &mut outbox, handed)
    }
}
