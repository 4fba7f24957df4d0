//! The names of a problem, noted in the order of its text, and their places.
ghost use Rattle.std.specs.Prelude.{[], ◌≡◌, ◌++◌, OnOk, map};
ghost use Rattle.std.specs.Option.{unwrap_or};
ghost use Rattle.std.specs.List.{flat_map};
ghost use Rattle.pb_named.specs.NamedProblems.{term_names, names_of, all_names};
ghost use Rattle.pb_named.specs.inner.Kept.{body_terms};
ghost use Rattle.pb_named.specs.inner.Numbering.{noted_all, places_from};

use crate::named::{NamedLit, NamedProblem, NamedTerm, NamedTerms};
use crate::statements::{Body, NamedStatements, PlainLeft};
use crate::table::Table;
use pb_base::{NoMemory, Seq};

// Notes the names of literals, and their places.
fn note_lits<'a>(
    table: &mut Table<'a>,
    places: &mut Seq<u32>,
    lits: &[NamedLit<'a>],
) -> Result<(), NoMemory>
    ensures noted { OnOk result (table.new ≡ noted_all table.old (map (λ l. l.name) lits.now)) }
    ensures places { OnOk result (places.new ≡ places.old ++ places_from table.old (map (λ l. l.name) lits.now)) }
{
    for lit in lits {
        table.note(places, &lit.name)?;
    }
    Ok(())
}

// Notes the names of a term, and their places.
fn note_term<'a>(
    table: &mut Table<'a>,
    places: &mut Seq<u32>,
    term: &NamedTerm<'a>,
) -> Result<(), NoMemory>
    ensures noted { OnOk result (table.new ≡ noted_all table.old (term_names term.now)) }
    ensures places { OnOk result (places.new ≡ places.old ++ places_from table.old (term_names term.now)) }
{
    table.note(places, &term.lit().name)?;
    note_lits(table, places, term.more())?;
    Ok(())
}

// Notes the names of a sum, and their places.
fn note_terms<'a>(
    table: &mut Table<'a>,
    places: &mut Seq<u32>,
    terms: &[NamedTerm<'a>],
) -> Result<(), NoMemory>
    ensures noted { OnOk result (table.new ≡ noted_all table.old (names_of terms.now)) }
    ensures places { OnOk result (places.new ≡ places.old ++ places_from table.old (names_of terms.now)) }
{
    for term in terms {
        note_term(table, places, term)?;
    }
    Ok(())
}

// Notes the names of terms that are read where they are kept, and their places.
fn note_plain<'a>(
    table: &mut Table<'a>,
    places: &mut Seq<u32>,
    terms: PlainLeft<'_, 'a>,
) -> Result<(), NoMemory>
    ensures noted { OnOk result (table.new ≡ noted_all table.old (names_of terms.entry)) }
    ensures places { OnOk result (places.new ≡ places.old ++ places_from table.old (names_of terms.entry)) }
{
    for term in terms {
        note_term(table, places, &term)?;
    }
    Ok(())
}

// Notes the names of a statement, and their places.
fn note_body<'a>(
    table: &mut Table<'a>,
    places: &mut Seq<u32>,
    body: Body<'_, 'a>,
) -> Result<(), NoMemory>
    ensures noted { OnOk result (table.new ≡ noted_all table.old (names_of (body_terms body.entry))) }
    ensures places { OnOk result (places.new ≡ places.old ++ places_from table.old (names_of (body_terms body.entry))) }
{
    match body {
        Body::Plain(terms) => note_plain(table, places, terms),
        Body::Whole(terms) => note_terms(table, places, terms),
    }
}

// Notes the names of statements, and their places.
fn note_statements<'a>(
    table: &mut Table<'a>,
    places: &mut Seq<u32>,
    statements: &NamedStatements<'a>,
) -> Result<(), NoMemory>
    ensures noted { OnOk result (table.new ≡ noted_all table.old (flat_map (λ s. names_of s.terms) statements.now)) }
    ensures places { OnOk result (places.new ≡ places.old ++ places_from table.old (flat_map (λ s. names_of s.terms) statements.now)) }
{
    for next in statements.iter() {
        note_body(table, places, next.body)?;
    }
    Ok(())
}

// The terms of an objective.
pub(crate) fn terms_in<'a, 'b>(objective: &'b Option<NamedTerms<'a>>) -> &'b [NamedTerm<'a>]
    ensures { result.now ≡ unwrap_or objective.now [] }
{
    match objective {
        None => &[],
        Some(terms) => terms.as_slice(),
    }
}

// Notes the names of a problem, and their places.
pub(crate) fn note_problem<'a>(
    table: &mut Table<'a>,
    places: &mut Seq<u32>,
    problem: &NamedProblem<'a>,
) -> Result<(), NoMemory>
    ensures noted { OnOk result (table.new ≡ noted_all table.old (all_names problem.now)) }
    ensures places { OnOk result (places.new ≡ places.old ++ places_from table.old (all_names problem.now)) }
{
    note_terms(table, places, terms_in(&problem.objective))?;
    note_statements(table, places, &problem.statements)?;
    Ok(())
}
