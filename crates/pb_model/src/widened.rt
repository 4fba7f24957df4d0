//! The values of all variables, where those of a problem's variables are given.
ghost use Rattle.std.specs.Prelude.{◌≡◌, ◌≤◌, ◌<◌, All, false, length, slice_index_or};
ghost use Rattle.pb_base.specs.Literals.{assigned_by, lit_value};
ghost use Rattle.pb_base.specs.Problems.{product_value, widened, IsWithinLimits};
ghost use Rattle.pb_model.specs.inner.Widened.{AreOver};

use pb_base::{Lit, Lits, Problem};
use std::marker::Model;

/// The values of a problem's variables, and after them those of its products, which are not stored: each is true iff its literals are.
#[derive(Drop)]
pub struct Widened<'a> {
    values: &'a [bool],
    products: &'a [Lits],
}

impl<'a> Model for Widened<'a> {
    ghost use Rattle.std.specs.Prelude.{Bool, List, ◌++◌, length, map};
    ghost use Rattle.pb_base.specs.Literals.{assigned_by};
    ghost use Rattle.pb_base.specs.Problems.{product_value};
    ghost use Rattle.pb_model.specs.inner.Widened.{AreOver};

    ghost Value = { List Bool };

    ghost view = { λ w. w.values.now ++ map (product_value (assigned_by w.values.now)) w.products.now };

    ghost invariant = { λ w. AreOver (length w.values.now) w.products.now };
}

// True if a literal of the problem's own variables is true.
fn is_true(values: &[bool], lit: &Lit) -> bool
    requires { lit.now.var ≤ length values.now }
    ensures { result ≡ lit_value (assigned_by values.now) lit.now }
{
    let value = values[lit.index() as usize - 1];
    if lit.positive { value } else { !value }
}

// True if all literals of a product are true.
fn is_product_true(values: &[bool], literals: &[Lit]) -> bool
    requires { All (λ l. l.var ≤ length values.now) literals.now }
    ensures { result ≡ product_value (assigned_by values.now) literals.now }
{
    literals.iter().all(|lit| is_true(values, lit))
}

impl<'a> Widened<'a> {
    /// Widens the values of a problem's variables to its products.
    pub fn new(problem: &'a Problem, values: &'a [bool]) -> Self
        requires within { IsWithinLimits problem.now }
        requires covers { length values.now ≡ problem.now.vars }
        ensures { result ≡ widened problem.now values.now }
    {
        Widened {
            values,
            products: problem.products.as_slice(),
        }
    }

    // Returns the value of the variable at a position, from 0; after the problem's variables come its products.
    fn value_at(&self, place: usize) -> bool
        requires { place < length self.now }
        ensures { result ≡ slice_index_or self.now place false }
    {
        match self.values.get(place) {
            Some(value) => *value,
            None => is_product_true(
                self.values,
                self.products[place - self.values.len()].as_slice(),
            ),
        }
    }

    /// True if a literal is true, of a variable or of a product.
    pub fn is_true(&self, lit: Lit) -> bool
        requires { lit.var ≤ length self.now }
        ensures { result ≡ lit_value (assigned_by self.now) lit }
    {
        let value = self.value_at(lit.index() as usize - 1);
        if lit.positive { value } else { !value }
    }
}
