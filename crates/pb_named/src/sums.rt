//! Sums in numbers, and the products that they note.
ghost use Rattle.std.specs.Prelude.{◌≡◌, ◌++◌, ◌+◌, ◌<◌, ◌^◌, IfOk, OnOk, IsErrOf, map, All};
ghost use Rattle.pb_base.specs.Firsts.{with_item, firsts_behind};
ghost use Rattle.pb_named.specs.declared.numbering.NumberFault.TheVariants.{Variables as HasTooMany};
ghost use Rattle.pb_named.specs.NamedProblems.{term_names, names_of, size, lit_of, factor, products_in, product_lit, terms_by, terms_of};
ghost use Rattle.pb_named.specs.NamedTerms.{lits_of};
ghost use Rattle.pb_named.specs.Products.{product_in, same_product};
ghost use Rattle.pb_named.specs.inner.Numbering.{place_in, StartsWith, Gives, IsKnown, IsTermKnown, AreKnown, IsOver, IsFew};
ghost use Rattle.pb_named.specs.inner.Columns.{listed};

use crate::named::{NamedLit, NamedTerm};
use crate::numbering::NumberFault;
use crate::places::Places;
use crate::products::{Factor, ProductTable, factor_of};
use crate::table::Table;
use pb_base::{Lit, Lits, MAX_VARIABLES, NoMemory, Term, Terms, Var};
use std::alloc::Global;

// Puts literals in numbers at the end.
fn push_lits(
    table: &Table<'_>,
    places: &mut Places<'_>,
    list: &mut Lits,
    lits: &[NamedLit<'_>],
) -> Result<(), NoMemory>
    requires places { StartsWith (place_in table.now) places.old (map (λ l. l.name) lits.now) }
    requires known { All (λ l. IsKnown table.now l.name) lits.now }
    requires few { size table.now < 2 ^ 31 }
    ensures places { OnOk result (Gives (place_in table.now) places.old (map (λ l. l.name) lits.now) places.new) }
    ensures lits { OnOk result (list.new ≡ list.old ++ map (lit_of table.now) lits.now) }
{
    for lit in lits {
        list.push(table.lit_of(lit, places))?;
    }
    Ok(())
}

// The literals of a term in numbers.
fn lits_of(
    alloc: Global,
    table: &Table<'_>,
    places: &mut Places<'_>,
    term: &NamedTerm<'_>,
) -> Result<Lits, NoMemory>
    requires places { StartsWith (place_in table.now) places.old (term_names term.now) }
    requires known { IsTermKnown table.now term.now }
    requires few { size table.now < 2 ^ 31 }
    ensures places { OnOk result (Gives (place_in table.now) places.old (term_names term.now) places.new) }
    ensures lits { IfOk result (λ ls. ls ≡ map (lit_of table.now) (lits_of term.now)) }
{
    let mut lits = Lits::new(alloc);
    lits.push(table.lit_of(term.lit(), places))?;
    push_lits(table, places, &mut lits, term.more())?;
    Ok(lits)
}

// The literal of a product's variable.
fn product_lit(
    table: &Table<'_>,
    products: &mut ProductTable,
    set: Lits,
) -> Result<Lit, NumberFault>
    requires few { IsFew table.now products.old }
    ensures few { OnOk result (IsFew table.now products.new) }
    ensures noted { OnOk result (products.new ≡ with_item same_product products.old set) }
    ensures lit { IfOk result (λ l. l ≡ product_lit table.now (with_item same_product products.old set) set) }
    ensures many { IsErrOf result HasTooMany → IsOver table.now (with_item same_product products.old set) }
{
    let place = products.note(set)?;
    if products.len() > (MAX_VARIABLES - table.size()) as usize {
        return Err(NumberFault::Variables);
    }
    Ok(Lit {
        var: Var::new(table.size() + 1 + place as u32),
        positive: true,
    })
}

// A term by what its literals come to.
fn by_factor(
    table: &Table<'_>,
    products: &mut ProductTable,
    coef: i128,
    factor: Factor,
) -> Result<Option<Term>, NumberFault>
    requires few { IsFew table.now products.old }
    ensures few { OnOk result (IsFew table.now products.new) }
    ensures noted { OnOk result (products.new ≡ firsts_behind same_product products.old (product_in factor)) }
    ensures term { IfOk result (λ o. listed o ≡ terms_by table.now (firsts_behind same_product products.old (product_in factor)) coef factor) }
    ensures many { IsErrOf result HasTooMany → IsOver table.now (firsts_behind same_product products.old (product_in factor)) }
{
    match factor {
        Factor::Nought => Ok(None),
        Factor::Single(lit) => Ok(Some(Term { coef, lit })),
        Factor::Product(set) => {
            let lit = product_lit(table, products, set)?;
            Ok(Some(Term { coef, lit }))
        }
    }
}

// What the literals of a term come to.
fn factor_in(
    alloc: Global,
    table: &Table<'_>,
    places: &mut Places<'_>,
    term: &NamedTerm<'_>,
) -> Result<Factor, NoMemory>
    requires places { StartsWith (place_in table.now) places.old (term_names term.now) }
    requires known { IsTermKnown table.now term.now }
    requires few { size table.now < 2 ^ 31 }
    ensures places { OnOk result (Gives (place_in table.now) places.old (term_names term.now) places.new) }
    ensures factor { IfOk result (λ f. f ≡ factor table.now term.now) }
{
    if term.more().is_empty() {
        let lit = table.lit_of(term.lit(), places);
        return Ok(Factor::Single(lit));
    }
    let lits = lits_of(alloc, table, places, term)?;
    Ok(factor_of(lits))
}

// A term in numbers, unless it is dropped.
fn term_of(
    alloc: Global,
    table: &Table<'_>,
    products: &mut ProductTable,
    places: &mut Places<'_>,
    term: &NamedTerm<'_>,
) -> Result<Option<Term>, NumberFault>
    requires places { StartsWith (place_in table.now) places.old (term_names term.now) }
    requires known { IsTermKnown table.now term.now }
    requires few { IsFew table.now products.old }
    ensures few { OnOk result (IsFew table.now products.new) }
    ensures places { OnOk result (Gives (place_in table.now) places.old (term_names term.now) places.new) }
    ensures noted { OnOk result (products.new ≡ firsts_behind same_product products.old (product_in (factor table.now term.now))) }
    ensures term { IfOk result (λ o. listed o ≡ terms_by table.now (firsts_behind same_product products.old (product_in (factor table.now term.now))) term.now.coef (factor table.now term.now)) }
    ensures many { IsErrOf result HasTooMany → IsOver table.now (firsts_behind same_product products.old (product_in (factor table.now term.now))) }
{
    let factor = factor_in(alloc, table, places, term)?;
    by_factor(table, products, term.coef(), factor)
}

// Puts a term at the end, if there is one.
fn push_some(list: &mut Terms, term: Option<Term>) -> Result<(), NoMemory>
    ensures { OnOk result (list.new ≡ list.old ++ listed term) }
{
    match term {
        Some(term) => {
            list.push(term)?;
            Ok(())
        }
        None => Ok(()),
    }
}

// A sum in numbers.
pub(crate) fn terms_of(
    alloc: Global,
    table: &Table<'_>,
    products: &mut ProductTable,
    places: &mut Places<'_>,
    terms: &[NamedTerm<'_>],
) -> Result<Terms, NumberFault>
    requires places { StartsWith (place_in table.now) places.old (names_of terms.now) }
    requires known { AreKnown table.now terms.now }
    requires few { IsFew table.now products.old }
    ensures few { OnOk result (IsFew table.now products.new) }
    ensures places { OnOk result (Gives (place_in table.now) places.old (names_of terms.now) places.new) }
    ensures noted { OnOk result (products.new ≡ firsts_behind same_product products.old (products_in table.now terms.now)) }
    ensures terms { IfOk result (λ ts. ts ≡ terms_of table.now (firsts_behind same_product products.old (products_in table.now terms.now)) terms.now) }
    ensures many { IsErrOf result HasTooMany → IsOver table.now (firsts_behind same_product products.old (products_in table.now terms.now)) }
{
    let mut list = Terms::from_vec(Vec::with_capacity(alloc, terms.len())?);
    for term in terms {
        push_some(&mut list, term_of(alloc, table, products, places, term)?)?;
    }
    Ok(list)
}
