//! The text of statements.
ghost use Rattle.std.specs.Prelude.{◌≡◌, ◌++◌, OnOk, pos, codes, decimal};
ghost use Rattle.std.specs.Fmt.{signed_decimal};
ghost use Rattle.pb_gen.specs.Generated.{header_text, relation_text, term_text};

use itoa::Buffer;
use pb_base::{Lit, Relation};
use std::alloc::AllocError;

// Appends certain bytes, and a number after them.
fn push_number(out: &mut Vec<u8>, before: &[u8], n: u64) -> Result<(), AllocError>
    ensures { OnOk result (out.new.items ≡ out.old.items ++ before.now ++ decimal n) }
{
    out.extend_from_slice(before)?;
    out.extend_from_slice(Buffer::new().format(n).as_bytes())?;
    Ok(())
}

/// Appends the first line.
pub fn push_header(out: &mut Vec<u8>, vars: u64, count: u64) -> Result<(), AllocError>
    ensures { OnOk result (out.new.items ≡ out.old.items ++ header_text vars count) }
{
    push_number(out, b"* #variable= ", vars)?;
    push_number(out, b" #constraint= ", count)?;
    out.push(b'\n')?;
    Ok(())
}

/// Appends a term and a blank.
pub fn push_term(out: &mut Vec<u8>, weight: u32, lit: Lit) -> Result<(), AllocError>
    ensures { OnOk result (out.new.items ≡ out.old.items ++ term_text (record { coef = pos weight; lit = lit })) }
{
    out.push(b'+')?;
    out.extend_from_slice(Buffer::new().format(weight).as_bytes())?;
    out.extend_from_slice(if lit.positive { b" x" } else { b" ~x" })?;
    out.extend_from_slice(Buffer::new().format(lit.index()).as_bytes())?;
    out.push(b' ')?;
    Ok(())
}

/// Appends the relation, the right side and the end of a statement.
pub fn push_end(out: &mut Vec<u8>, relation: Relation, right: u32) -> Result<(), AllocError>
    ensures { OnOk result (out.new.items ≡ out.old.items ++ relation_text relation ++ signed_decimal (pos right) ++ codes " ;\n") }
{
    out.extend_from_slice(match relation {
        Relation::AtLeast => b">= ",
        Relation::AtMost => b"<= ",
        Relation::Equal => b"= ",
    })?;
    out.extend_from_slice(Buffer::new().format(right).as_bytes())?;
    out.extend_from_slice(b" ;\n")?;
    Ok(())
}
