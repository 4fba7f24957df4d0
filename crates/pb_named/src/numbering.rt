//! The numbers of named variables.
ghost use Rattle.std.specs.Prelude.{[], ◌≡◌, ◌<◌, ◌≤◌, ◌^◌, IfOk, OnOk, IsErrOf, All};
ghost use Rattle.std.specs.Option.{option_map, unwrap_or};
ghost use Rattle.std.specs.List.{flat_map};
ghost use Rattle.pb_base.specs.Firsts.{firsts_behind};
ghost use Rattle.pb_base.specs.Problems.{originals};
ghost use Rattle.pb_named.specs.declared.numbering.NumberFault.TheVariants.{NoMemory as WantsMemory, Variables as HasTooMany};
ghost use Rattle.pb_named.specs.NamedProblems.{names_of, all_names, size, products_in, terms_of, by_table, problem_of};
ghost use Rattle.pb_named.specs.Products.{same_product};
ghost use Rattle.pb_named.specs.inner.Kept.{body_terms};
ghost use Rattle.pb_named.specs.inner.Numbering.{place_in, StartsWith, Gives, AreKnown, IsOver, IsFew, statements_from};

use crate::named::{NamedProblem, NamedTerm, NamedTerms};
use crate::noting::{note_problem, terms_in};
use crate::places::Places;
use crate::products::ProductTable;
use crate::statements::{Body, NamedStatements, write_named};
use crate::sums::terms_of;
use crate::table::Table;
use pb_base::{MAX_VARIABLES, NoMemory, Problem, Seq, Statements, Terms};
use std::alloc::{AllocError, Global};
use thiserror::Error;

/// Why a problem's variables were not numbered.
#[derive(Clone, Copy, Debug, Error)]
pub enum NumberFault {
    /// There are 2^31 or more.
    #[error("there are too many variables")]
    Variables,
    /// Memory was refused.
    #[error("out of memory")]
    NoMemory,
}

impl From<NoMemory> for NumberFault {
    ghost from_gives = { λ _ e. e ≡ WantsMemory };

    fn from(_e: NoMemory) -> NumberFault {
        NumberFault::NoMemory
    }
}

impl From<AllocError> for NumberFault {
    ghost from_gives = { λ _ e. e ≡ WantsMemory };

    fn from(_e: AllocError) -> NumberFault {
        NumberFault::NoMemory
    }
}

// The terms of a statement in numbers.
fn body_of<'a>(
    alloc: Global,
    table: &Table<'_>,
    products: &mut ProductTable,
    places: &mut Places<'_>,
    body: Body<'_, 'a>,
    room: &mut Vec<NamedTerm<'a>>,
) -> Result<Terms, NumberFault>
    requires places { StartsWith (place_in table.now) places.old (names_of (body_terms body)) }
    requires known { AreKnown table.now (body_terms body) }
    requires few { IsFew table.now products.old }
    ensures few { OnOk result (IsFew table.now products.new) }
    ensures places { OnOk result (Gives (place_in table.now) places.old (names_of (body_terms body.entry)) places.new) }
    ensures noted { OnOk result (products.new ≡ firsts_behind same_product products.old (products_in table.now (body_terms body.entry))) }
    ensures terms { IfOk result (λ ts. ts ≡ terms_of table.now (firsts_behind same_product products.old (products_in table.now (body_terms body.entry))) (body_terms body.entry)) }
    ensures many { IsErrOf result HasTooMany → IsOver table.now (firsts_behind same_product products.old (products_in table.now (body_terms body.entry))) }
{
    match body {
        Body::Plain(terms) => {
            write_named(terms, room)?;
            terms_of(alloc, table, products, places, room.as_slice())
        }
        Body::Whole(terms) => terms_of(alloc, table, products, places, terms),
    }
}

// Statements in numbers, one after another.
fn each_of(
    alloc: Global,
    table: &Table<'_>,
    products: &mut ProductTable,
    places: &mut Places<'_>,
    statements: &NamedStatements<'_>,
) -> Result<Statements, NumberFault>
    requires places { StartsWith (place_in table.now) places.old (flat_map (λ s. names_of s.terms) statements.now) }
    requires known { All (λ s. AreKnown table.now s.terms) statements.now }
    requires few { IsFew table.now products.old }
    ensures few { OnOk result (IsFew table.now products.new) }
    ensures noted { OnOk result (products.new ≡ firsts_behind same_product products.old (products_in table.now (flat_map (λ s. s.terms) statements.now))) }
    ensures statements { IfOk result (λ ss. ss ≡ statements_from table.now products.old statements.now) }
    ensures many { IsErrOf result HasTooMany → IsOver table.now (firsts_behind same_product products.old (products_in table.now (flat_map (λ s. s.terms) statements.now))) }
{
    let mut list = Statements::new(alloc);
    let mut room = Vec::new(alloc);
    for next in statements.iter() {
        let terms = body_of(alloc, table, products, places, next.body, &mut room)?;
        list.push(terms.as_slice(), next.relation, next.right)?;
    }
    Ok(list)
}

// Statements in numbers. Where all are over numbered variables alone, they are so already.
fn statements_of(
    alloc: Global,
    table: &Table<'_>,
    products: &mut ProductTable,
    places: &mut Places<'_>,
    statements: NamedStatements<'_>,
) -> Result<Statements, NumberFault>
    requires places { StartsWith (place_in table.now) places.old (flat_map (λ s. names_of s.terms) statements) }
    requires known { All (λ s. AreKnown table.now s.terms) statements }
    requires few { IsFew table.now products.old }
    ensures few { OnOk result (IsFew table.now products.new) }
    ensures noted { OnOk result (products.new ≡ firsts_behind same_product products.old (products_in table.now (flat_map (λ s. s.terms) statements.entry))) }
    ensures statements { IfOk result (λ ss. ss ≡ statements_from table.now products.old statements.entry) }
    ensures many { IsErrOf result HasTooMany → IsOver table.now (firsts_behind same_product products.old (products_in table.now (flat_map (λ s. s.terms) statements.entry))) }
{
    match statements.into_plain() {
        Ok(list) => Ok(list),
        Err(rest) => each_of(alloc, table, products, places, &rest),
    }
}

// An objective in numbers.
fn objective_of(
    alloc: Global,
    table: &Table<'_>,
    products: &mut ProductTable,
    places: &mut Places<'_>,
    objective: &Option<NamedTerms<'_>>,
) -> Result<Option<Terms>, NumberFault>
    requires places { StartsWith (place_in table.now) places.old (names_of (unwrap_or objective.now [])) }
    requires known { AreKnown table.now (unwrap_or objective.now []) }
    requires few { IsFew table.now products.old }
    ensures few { OnOk result (IsFew table.now products.new) }
    ensures places { OnOk result (Gives (place_in table.now) places.old (names_of (unwrap_or objective.now [])) places.new) }
    ensures noted { OnOk result (products.new ≡ firsts_behind same_product products.old (products_in table.now (unwrap_or objective.now []))) }
    ensures objective { IfOk result (λ o. o ≡ option_map (terms_of table.now (firsts_behind same_product products.old (products_in table.now (unwrap_or objective.now [])))) objective.now) }
    ensures many { IsErrOf result HasTooMany → IsOver table.now (firsts_behind same_product products.old (products_in table.now (unwrap_or objective.now []))) }
{
    match objective {
        None => Ok(None),
        Some(terms) => Ok(Some(terms_of(alloc, table, products, places, terms.as_slice())?)),
    }
}

// A problem of its sums in numbers, with the lists of its free names and its products.
fn with_lists(
    alloc: Global,
    table: &Table<'_>,
    products: &ProductTable,
    objective: Option<Terms>,
    statements: Statements,
) -> Result<Problem, NoMemory>
    requires few { size table.now < 2 ^ 31 }
    ensures { IfOk result (λ p. p ≡ record { vars = size table.now; numbered = table.now.numbered; names = table.now.names; products = products.now; objective = objective; statements = statements }) }
{
    let names = table.names(alloc)?;
    Ok(Problem {
        vars: table.size(),
        numbered: table.numbered_count(),
        names,
        products: products.products(alloc)?,
        objective,
        statements,
    })
}

// A problem in numbers, where no product was noted yet.
fn in_numbers(
    alloc: Global,
    table: &Table<'_>,
    products: &mut ProductTable,
    places: &mut Places<'_>,
    problem: NamedProblem<'_>,
) -> Result<Problem, NumberFault>
    requires fresh { products.old ≡ [] }
    requires places { places.old ≡ flat_map (place_in table.now) (all_names problem) }
    requires objective { AreKnown table.now (unwrap_or problem.objective []) }
    requires statements { All (λ s. AreKnown table.now s.terms) problem.statements }
    requires few { size table.now < 2 ^ 31 }
    ensures ok { IfOk result (λ p. p ≡ by_table table.now problem.entry) }
    ensures few { IfOk result (λ p. originals p < 2 ^ 31) }
    ensures many { IsErrOf result HasTooMany → 2 ^ 31 ≤ originals (by_table table.now problem.entry) }
{
    let objective = objective_of(alloc, table, products, places, &problem.objective)?;
    let statements = statements_of(alloc, table, products, places, problem.statements)?;
    Ok(with_lists(alloc, table, products, objective, statements)?)
}

// A problem in numbers, where the places of its names are told.
fn by_table(
    alloc: Global,
    table: &Table<'_>,
    places: &[u32],
    problem: NamedProblem<'_>,
) -> Result<Problem, NumberFault>
    requires places { places.now ≡ flat_map (place_in table.now) (all_names problem) }
    requires objective { AreKnown table.now (unwrap_or problem.objective []) }
    requires statements { All (λ s. AreKnown table.now s.terms) problem.statements }
    ensures ok { IfOk result (λ p. p ≡ by_table table.now problem.entry) }
    ensures few { IfOk result (λ p. originals p < 2 ^ 31) }
    ensures many { IsErrOf result HasTooMany → 2 ^ 31 ≤ originals (by_table table.now problem.entry) }
{
    if table.free() > (MAX_VARIABLES - table.numbered_count()) as usize {
        return Err(NumberFault::Variables);
    }
    let mut products = ProductTable::new(alloc);
    in_numbers(
        alloc,
        table,
        &mut products,
        &mut Places::of(places),
        problem,
    )
}

// A problem in numbers by a table that has no name yet.
fn by_names<'a>(
    alloc: Global,
    table: &mut Table<'a>,
    problem: NamedProblem<'a>,
) -> Result<Problem, NumberFault>
    requires { table.old.names ≡ [] }
    ensures ok { IfOk result (λ p. p ≡ problem_of table.old.numbered problem.entry) }
    ensures few { IfOk result (λ p. originals p < 2 ^ 31) }
    ensures many { IsErrOf result HasTooMany → 2 ^ 31 ≤ originals (problem_of table.old.numbered problem.entry) }
{
    let mut places = Seq::new(alloc);
    note_problem(table, &mut places, &problem)?;
    by_table(alloc, table, places.as_slice(), problem)
}

/// The problem in numbers, where the first line of its text tells a number of variables.
///
/// Free names are numbered behind the told number and all indices, in the order in which the
/// problem first has them, and products of two or more literals behind these.
pub fn number(alloc: Global, told: u32, problem: NamedProblem<'_>) -> Result<Problem, NumberFault>
    requires { told < 2 ^ 31 }
    // The problem in numbers is the defined one: numbered variables first, then free names in the order in which they occur, then a
    // variable for each product of two or more literals.
    ensures ok { IfOk result (λ p. p ≡ problem_of told problem.entry) }
    // It has fewer than 2^31 variables, those of products included.
    ensures few { IfOk result (λ p. originals p < 2 ^ 31) }
    // `Variables` is answered only if it would have 2^31 or more.
    ensures many { IsErrOf result NumberFault.Variables → 2 ^ 31 ≤ originals (problem_of told problem.entry) }
{
    let mut table = Table::new(alloc, told);
    by_names(alloc, &mut table, problem)
}
