//! Generating a problem.
ghost use Rattle.std.specs.Prelude.{◌≡◌, ◌≤◌, ◌<◌, ◌+◌, ◌*◌, ◌++◌, IfOk, OnOk};
ghost use Rattle.std.specs.List.{flat_map};
ghost use Rattle.pb_base.specs.Problems.{magnitude};
ghost use Rattle.pb_gen.specs.Draws.{state_after};
ghost use Rattle.pb_gen.specs.Drawn.{drawn_statement, drawn_terms, is_weighted, statement_draws, term_draws};
ghost use Rattle.pb_gen.specs.Generated.{generated, statement_text, term_text};

use crate::drawn::{draw_count, draw_kind, draw_literal, draw_right, draw_weight};
use crate::draws::Draws;
use crate::printing::{push_end, push_header, push_term};
use pb_base::{Bytes, NoMemory};
use std::alloc::{AllocError, Global};

// Appends so many terms, and gives the sum of their coefficients.
fn push_terms(
    out: &mut Vec<u8>,
    draws: &mut Draws,
    vars: u64,
    weighted: bool,
    count: u32,
) -> Result<u32, AllocError>
    requires vars { 1 ≤ vars }
    requires few { count ≤ 11 }
    ensures sum { IfOk result (λ sum. sum ≡ magnitude (drawn_terms vars weighted count draws.old.state)) }
    ensures small { IfOk result (λ sum. sum ≤ 220) }
    ensures state { OnOk result (draws.new.state ≡ state_after (count * term_draws weighted) draws.old.state) }
    ensures text { OnOk result (out.new.items ≡ out.old.items ++ flat_map term_text (drawn_terms vars weighted count draws.old.state)) }
{
    let mut sum = 0;
    for _i in 0..count {
        let weight = draw_weight(draws, weighted);
        let lit = draw_literal(draws, vars);
        push_term(out, weight, lit)?;
        sum += weight;
    }
    Ok(sum)
}

// Appends a statement.
fn push_statement(out: &mut Vec<u8>, draws: &mut Draws, vars: u64) -> Result<(), AllocError>
    requires { 1 ≤ vars }
    ensures state { OnOk result (draws.new.state ≡ state_after (statement_draws draws.old.state) draws.old.state) }
    ensures text { OnOk result (out.new.items ≡ out.old.items ++ statement_text (drawn_statement vars draws.old.state)) }
{
    let count = draw_count(draws);
    let kind = draw_kind(draws);
    let sum = push_terms(out, draws, vars, kind.is_weighted(), count)?;
    let right = draw_right(draws, kind, count, sum);
    push_end(out, kind.relation(), right)?;
    Ok(())
}

/// Returns the text of the problem that is generated with a seed: `n` statements, over `n + 10` variables.
///
/// The text is in the format that `pb_opb` reads. Its first line declares both numbers.
pub fn generate(alloc: Global, n: u32, seed: u32) -> Result<Bytes, NoMemory>
    // The text is exactly the one that the number of statements and the seed define.
    ensures { IfOk result (λ text. text ≡ generated n seed) }
{
    let vars = u64::from(n) + 10;
    let mut out = Vec::new(alloc);
    let mut draws = Draws::new(seed);
    push_header(&mut out, vars, u64::from(n))?;
    for _i in 0..n {
        push_statement(&mut out, &mut draws, vars)?;
    }
    Ok(Bytes::from_vec(out))
}
