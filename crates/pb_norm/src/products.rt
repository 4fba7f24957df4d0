//! Variables that stand for products of literals.
ghost use Rattle.std.specs.Prelude.{◌≡◌, [], ◌+◌, ◌<◌, ◌≤◌, ◌++◌, ◌^◌, IfOk, OnOk, All, length, slice_index_or};
ghost use Rattle.pb_norm.specs.ClauseForm.{clause_form};
ghost use Rattle.pb_norm.specs.Products.{plain, implied, implying, product_clauses, product_constraints, defining};

use crate::clause::clause_form;
use crate::linear::Linear;
use pb_base::{Clause, Lit, Lits, NoMemory, Var};
use std::alloc::Global;

/// The variable of the product at a place, where so many variables come before those of products.
pub fn product_variable(vars: u32, place: usize) -> Lit
    requires { vars + place + 1 < 2 ^ 31 }
    // The variable is the one after the problem's and those of the products before this one.
    ensures { result ≡ plain (vars + 1 + place) }
{
    Lit {
        var: Var::new(vars + 1 + place as u32),
        positive: true,
    }
}

// That a product implies one of its literals.
fn product_implies(alloc: Global, product: &Lit, lit: &Lit) -> Result<Clause, NoMemory>
    ensures { IfOk result (λ clause. clause ≡ implied product.now lit.now) }
{
    let mut clause = Clause::new(alloc);
    clause.push(*lit)?;
    clause.push(product.not())?;
    Ok(clause)
}

// That all its literals imply a product.
fn literals_imply(alloc: Global, product: &Lit, literals: &[Lit]) -> Result<Clause, NoMemory>
    ensures { IfOk result (λ clause. clause ≡ implying product.now literals.now) }
{
    let mut clause = Clause::new(alloc);
    clause.push(*product)?;
    for lit in literals {
        clause.push(lit.not())?;
    }
    Ok(clause)
}

// One of the clauses under which a variable is a product.
fn product_clause(
    alloc: Global,
    product: &Lit,
    literals: &[Lit],
    place: usize,
) -> Result<Clause, NoMemory>
    requires { place ≤ length literals.now }
    ensures { IfOk result (λ clause. clause ≡ slice_index_or (product_clauses product.now literals.now) place []) }
{
    match literals.get(place) {
        Some(lit) => product_implies(alloc, product, lit),
        None => literals_imply(alloc, product, literals),
    }
}

/// One of the constraints under which a variable is a product: at the place of a literal, that the product implies it, and
/// behind these, that all literals imply the product.
pub fn product_constraint(
    alloc: Global,
    product: &Lit,
    literals: &[Lit],
    place: usize,
) -> Result<Linear, NoMemory>
    requires { place ≤ length literals.now }
    // The constraint is the form of the clause with this number among those that say what the product is.
    ensures { IfOk result (λ c. c ≡ clause_form (slice_index_or (product_clauses product.now literals.now) place [])) }
{
    let clause = product_clause(alloc, product, literals, place)?;
    clause_form(alloc, &clause)
}

// Adds the constraints of a product to a list.
fn load_product(
    alloc: Global,
    product: &Lit,
    literals: &[Lit],
    list: &mut Vec<Linear>,
) -> Result<(), NoMemory>
    requires { length literals.now ≤ 2 ^ 20 }
    ensures { OnOk result (list.new.items ≡ list.old.items ++ product_constraints product.now literals.now) }
{
    for place in 0..literals.len() + 1 {
        let constraint = product_constraint(alloc, product, literals, place)?;
        list.push(constraint)?;
    }
    Ok(())
}

// Adds the constraints of all products to a list.
pub(crate) fn load_products(
    alloc: Global,
    vars: u32,
    products: &[Lits],
    list: &mut Vec<Linear>,
) -> Result<(), NoMemory>
    requires vars { vars + length products.now < 2 ^ 31 }
    requires short { All (λ ls. length ls ≤ 2 ^ 20) products.now }
    ensures { OnOk result (list.new.items ≡ list.old.items ++ defining (vars + 1) products.now) }
{
    for (place, literals) in products.iter().enumerate() {
        let product = product_variable(vars, place);
        load_product(alloc, &product, literals.as_slice(), list)?;
    }
    Ok(())
}
