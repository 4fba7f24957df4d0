//! Statements by their draws.
ghost use Rattle.std.specs.Prelude.{◌≡◌, ◌≤◌, ◌<◌, ◌^◌, ◌-◌};
ghost use Rattle.pb_gen.specs.Draws.{draw, state_after};
ghost use Rattle.pb_gen.specs.Drawn.{drawn_count, drawn_literal, drawn_right, drawn_weight, is_weighted, kind_by, relation_of, weight_draws};

use crate::draws::Draws;
use pb_base::{Lit, Relation, Var};

/// The form of a generated statement: a relation, and how its right side is drawn.
#[derive(Clone, Copy)]
pub enum Kind {
    /// All literals but one.
    AllButOne,
    /// Half of the literals.
    Half,
    /// A weight.
    AtLeast,
    /// No more than a weight.
    AtMost,
}

// Returns the form of a statement for a draw, by its remainder modulo 4.
fn kind_by(draw: u32) -> Kind
    ensures { result ≡ kind_by draw }
{
    match draw % 4 {
        0 => Kind::AllButOne,
        1 => Kind::Half,
        2 => Kind::AtLeast,
        _ => Kind::AtMost,
    }
}

impl Kind {
    /// True if coefficients and the right side are drawn; else all coefficients are 1.
    pub fn is_weighted(self) -> bool
        ensures { result ≡ is_weighted self }
    {
        match self {
            Kind::AllButOne | Kind::Half => false,
            Kind::AtLeast | Kind::AtMost => true,
        }
    }

    /// Returns the relation of statements of this form.
    pub fn relation(self) -> Relation
        ensures { result ≡ relation_of self }
    {
        match self {
            Kind::AllButOne | Kind::Half | Kind::AtLeast => Relation::AtLeast,
            Kind::AtMost => Relation::AtMost,
        }
    }
}

/// Draws the number of terms of a statement, from 2 to 11.
pub fn draw_count(draws: &mut Draws) -> u32
    ensures count { result ≡ drawn_count draws.old.state }
    ensures least { 2 ≤ result }
    ensures most { result ≤ 11 }
    ensures state { draws.new.state ≡ state_after 1 draws.old.state }
{
    2 + draws.take() % 10
}

/// Draws the form of a statement.
pub fn draw_kind(draws: &mut Draws) -> Kind
    ensures kind { result ≡ kind_by (draw draws.old.state 0) }
    ensures state { draws.new.state ≡ state_after 1 draws.old.state }
{
    kind_by(draws.take())
}

/// Draws a coefficient from 1 to 20; without weights it is 1, and nothing is drawn.
pub fn draw_weight(draws: &mut Draws, weighted: bool) -> u32
    ensures weight { result ≡ drawn_weight weighted draws.old.state }
    ensures least { 1 ≤ result }
    ensures most { result ≤ 20 }
    ensures state { draws.new.state ≡ state_after (weight_draws weighted) draws.old.state }
{
    if weighted { 1 + draws.take() % 20 } else { 1 }
}

/// Draws a literal over so many variables: first the variable, then the sign.
pub fn draw_literal(draws: &mut Draws, vars: u64) -> Lit
    requires { 1 ≤ vars }
    ensures literal { result ≡ drawn_literal vars draws.old.state }
    ensures state { draws.new.state ≡ state_after 2 draws.old.state }
{
    let index = 1 + u64::from(draws.take()) % vars;
    let negated = draws.take() % 2 == 1;
    Lit {
        var: Var::new(index as u32),
        positive: !negated,
    }
}

/// Draws the right side of a statement with so many terms, whose coefficients add up to this sum.
pub fn draw_right(draws: &mut Draws, kind: Kind, count: u32, sum: u32) -> u32
    requires least { 1 ≤ count }
    requires most { count < 2 ^ 16 }
    requires sum { sum < 2 ^ 16 }
    ensures right { result ≡ drawn_right kind count sum draws.old.state }
    ensures state { draws.new.state ≡ state_after (weight_draws (is_weighted kind)) draws.old.state }
{
    match kind {
        Kind::AllButOne => count - 1,
        Kind::Half => (count + 1) / 2,
        Kind::AtLeast | Kind::AtMost => draws.take() % (sum + 1),
    }
}
