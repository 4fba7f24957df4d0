//! What is said of an encoded problem, with the rows of its table of bounds.
ghost use Rattle.std.specs.Prelude.{◌≡◌, ◌≤◌, ◌<◌, ◌+◌, ◌++◌, ◌+ℤ◌, ◌^◌, IfOk, OnOk, codes, map};
ghost use Rattle.std.specs.Int.RustNames.{unsigned_abs};
ghost use Rattle.pb_base.specs.Problems.{IsWithinLimits};
ghost use Rattle.pb_norm.specs.Constraints.{weight};
ghost use Rattle.pb_family.specs.ClauseText.{literal_text};
ghost use Rattle.pb_family.specs.Families.{VarsBelow};
ghost use Rattle.pb_gentot.specs.BoundTable.{table_fresh, table_rows};
ghost use Rattle.pb_encode.specs.BoundLines.{bound_line, bounds_text, words_of};
ghost use Rattle.pb_encode.specs.Bounds.{bound_rows};
ghost use Rattle.pb_encode.specs.Summaries.{summary_of, IsEncodable};

use crate::objective::offset_of;
use crate::summary::{Summary, push_count, summary_text};
use crate::table::table_within;
use itoa::Buffer;
use pb_base::{Lit, NoMemory, Options, Problem};
use pb_gentot::BoundTable;
use std::alloc::{AllocError, Global};

// Appends a blank and a literal.
fn push_literal(out: &mut Vec<u8>, lit: &Lit) -> Result<(), AllocError>
    ensures { OnOk result (out.new.items ≡ out.old.items ++ (codes " " ++ literal_text lit.now)) }
{
    if lit.positive {
        push_count(out, b" ", u64::from(lit.index()))
    } else {
        push_count(out, b" -", u64::from(lit.index()))
    }
}

// Appends the line of a row.
fn push_row(out: &mut Vec<u8>, value: &i128, lit: &Lit) -> Result<(), AllocError>
    ensures { OnOk result (out.new.items ≡ out.old.items ++ bound_line (value.now, lit.now)) }
{
    out.extend_from_slice(b"bound ")?;
    out.extend_from_slice(Buffer::new().format(*value).as_bytes())?;
    push_literal(out, lit)?;
    out.push(b'\n')?;
    Ok(())
}

// Returns the value that is `above` more than the offset.
fn value_at(offset: &i128, above: &i128) -> i128
    requires offset { unsigned_abs offset.now < 2 ^ 126 }
    requires above { unsigned_abs above.now < 2 ^ 126 }
    ensures { result ≡ offset.now +ℤ above.now }
{
    *offset + *above
}

// Appends the lines of rows.
fn push_rows(out: &mut Vec<u8>, rows: &[(i128, Lit)]) -> Result<(), AllocError>
    ensures { OnOk result (out.new.items ≡ out.old.items ++ bounds_text rows.now) }
{
    for row in rows {
        push_row(out, &row.0, &row.1)?;
    }
    Ok(())
}

// Returns the rows of a table with an offset added to their values, ascending.
fn rows_at(
    alloc: Global,
    table: &BoundTable,
    first: u32,
    offset: &i128,
) -> Result<Vec<(i128, Lit)>, NoMemory>
    requires light { weight table.now < 2 ^ 100 }
    requires original { VarsBelow first table.now }
    requires low { 1 ≤ first }
    requires fits { first + table_fresh table.now ≤ 2 ^ 31 }
    requires offset { unsigned_abs offset.now < 2 ^ 126 }
    ensures { IfOk result (λ rows. rows.items ≡ map (λ r. (offset.now +ℤ r.0, r.1)) (table_rows table.now first)) }
{
    let mut rows = Vec::new(alloc);
    for place in 0..table.len() {
        let Some(row) = table.row(first, place) else {
            unreachable!();
        };
        rows.push((value_at(offset, &row.0), row.1))?;
    }
    Ok(rows)
}

/// Returns the rows of a problem's table of bounds, which is built anew, values ascending: a value that the objective may be below, and
/// the literal that is false just there. There are none if no table is requested. `NoMemory` is the only fault.
///
/// ```text
/// min: +2 x1 +3 x2 ; +1 x1 +1 x2 >= 1 ;     (2, x3), (3, x4), (5, x5)
/// ```
pub fn bound_rows(
    alloc: Global,
    problem: &Problem,
    options: &Options,
    summary: &Summary,
) -> Result<Vec<(i128, Lit)>, NoMemory>
    requires within { IsWithinLimits problem.now }
    requires encodable { IsEncodable options.now problem.now }
    requires summary { summary.now ≡ summary_of options.now problem.now }
    // The rows are those of the table of bounds on the objective, by ascending values, and none if no table is requested.
    ensures { IfOk result (λ rows. rows.items ≡ bound_rows options.now problem.now) }
{
    let Some(first) = summary.table else {
        return Ok(Vec::new(alloc));
    };
    let offset = offset_of(alloc, problem)?;
    let table = table_within(alloc, problem, options)?;
    rows_at(alloc, &table, first, &offset)
}

/// Returns the two lines of a summary and, if there is a table of bounds, a line `bound W L` for each row of a value W and a literal L.
/// `NoMemory` is the only fault.
pub fn words_of(
    alloc: Global,
    problem: &Problem,
    options: &Options,
    summary: &Summary,
) -> Result<Vec<u8>, NoMemory>
    requires within { IsWithinLimits problem.now }
    requires encodable { IsEncodable options.now problem.now }
    requires summary { summary.now ≡ summary_of options.now problem.now }
    // The text is the two lines of the summary and a line for each row of the table.
    ensures { IfOk result (λ text. text.items ≡ words_of options.now problem.now) }
{
    let mut text = summary_text(alloc, summary)?;
    let rows = bound_rows(alloc, problem, options, summary)?;
    push_rows(&mut text, rows.as_slice())?;
    Ok(text)
}
