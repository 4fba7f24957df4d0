ghost use Rattle.std.specs.Prelude.{◌≡◌, ◌≤◌, ◌<◌, ◌+◌, ◌^◌};
ghost use Rattle.std.specs.Option.{IfSome};
ghost use Rattle.pb_family.specs.Budgets.{IfFits};
ghost use Rattle.pb_family.specs.Families.{VarsBelow};
ghost use Rattle.pb_gentot.specs.BoundTable.{table_fresh};

use crate::cases::assert_found;
use crate::samples::{at_most, lit_text};
use pb_base::{Lit, Term, Terms};
use pb_family::{Built, TextSink, are_below, is_light};
use pb_gentot::BoundTable;
use pb_norm::AtMost;
use std::alloc::Global;

fn listed(alloc: Global, terms: &[Term]) -> Option<Terms>
    ensures { IfSome result (λ ts. ts ≡ terms.now) }
{
    Some(Terms::from_vec(terms.to_vec(alloc).ok()?))
}

// Adds a row, a line.
fn push_row(alloc: Global, value: i128, lit: Lit, text: &mut String) -> Option<()> {
    let lit = lit_text(alloc, lit)?;
    let line = format!(in alloc; "{} {}\n", value, lit).ok()?;
    text.push_str(&line).ok()
}

// Adds the rows of a table, a line each.
fn push_rows(alloc: Global, table: &BoundTable, first: u32, text: &mut String) -> Option<()>
    requires original { VarsBelow first table.now }
    requires low { 1 ≤ first }
    requires fits { first + table_fresh table.now ≤ 2 ^ 31 }
{
    for i in 0..table.len().saturating_add(1) {
        if let Some((value, lit)) = table.row(first, i) {
            push_row(alloc, value, lit, text)?;
        }
    }
    Some(())
}

// The numbers and the clauses of a table.
fn clauses_text(alloc: Global, table: &BoundTable, first: u32) -> Option<String>
    requires original { VarsBelow first table.now }
    requires low { 1 ≤ first }
    requires fits { first + table_fresh table.now ≤ 2 ^ 31 }
{
    let mut sink = TextSink::new(alloc);
    table.emit(alloc, first, &mut sink).ok()?;
    let lines = str::from_utf8(sink.text()).ok()?;
    format!(in alloc; "{} {}\n{}", table.fresh(), table.clauses(), lines).ok()
}

// The same, and its rows.
fn table_text(alloc: Global, table: &BoundTable, first: u32) -> Option<String>
    requires { VarsBelow first table.now }
{
    if first < 1 || first > 1000 || table.fresh() > 1000 {
        return None;
    }
    let mut text = clauses_text(alloc, table, first)?;
    push_rows(alloc, table, first, &mut text)?;
    Some(text)
}

// The same of a table that fits its budget.
fn built_text(alloc: Global, built: &Built<BoundTable>, first: u32) -> Option<String>
    requires { IfFits (VarsBelow first) built.now }
{
    match built {
        Built::Fits(table) => table_text(alloc, table, first),
        Built::Over => "over".to_string(alloc).ok(),
    }
}

// The table of a sum, within a budget.
fn table_of(alloc: Global, of: &AtMost, budget: u64, first: u32) -> Option<String>
    requires { budget < 2 ^ 24 }
{
    if !is_light(of) || !are_below(of.terms(), first) {
        return None;
    }
    let terms = listed(alloc, of.terms())?;
    built_text(
        alloc,
        &BoundTable::build(alloc, &terms, budget).ok()?,
        first,
    )
}

// The table of the sum of what a statement leaves, within a budget.
fn bound_table(alloc: Global, text: &str, budget: u64, first: u32) -> Option<String>
    requires { budget < 2 ^ 24 }
{
    let of = at_most(alloc, text)?;
    table_of(alloc, &of, budget, first)
}

// The sum of 4, 3 and 2.
const SUM: &str = "4 ~x1 3 ~x2 2 ~x3 >= 4 ;";

#[test]
fn bound_tables(rt: HostRuntime) {
    // Each sum has a row.
    let found = bound_table(rt.alloc(), SUM, 10, 4);
    let expected = "10 16\n-2 5 0\n-3 4 0\n-2 -3 6 0\n-1 9 0\n-4 7 0\n-5 8 0\n-6 10 0\n\
-1 -4 11 0\n-1 -5 12 0\n-1 -6 13 0\n-8 7 0\n-9 8 0\n-10 9 0\n-11 10 0\n-12 11 0\n-13 12 0\n\
2 x7\n3 x8\n4 x9\n5 x10\n6 x11\n7 x12\n9 x13\n";
    assert_found(&rt, found, expected, SUM);
    // Nine are too few.
    let found = bound_table(rt.alloc(), SUM, 9, 4);
    assert_found(&rt, found, "over", SUM);
}
