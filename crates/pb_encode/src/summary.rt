//! What is said of an encoded problem.
ghost use Rattle.std.specs.Prelude.{◌≡◌, ◌≤◌, ◌+◌, ◌++◌, IfOk, OnOk, decimal};
ghost use Rattle.pb_encode.specs.Summaries.{count_of_some, counts_line, simple_counts, sum_counts, summary_text, treatments_line};

use itoa::Buffer;
use std::alloc::{AllocError, Global};

/// The numbers of constraints that are encoded in each way; one that leaves nothing but units counts as `nothing`.
#[derive(Clone, Copy)]
pub struct Treatments {
    pub nothing: u64,
    pub empty: u64,
    pub clause: u64,
    pub pairwise: u64,
    pub ladder: u64,
    pub product: u64,
    pub counter: u64,
    pub totalizer: u64,
    pub diagram: u64,
    pub tree: u64,
    pub adder: u64,
    /// Two for each equality whose halves are encoded as one.
    pub joint: u64,
}

/// The size of an encoding.
#[derive(Clone, Copy)]
pub struct Summary {
    /// All variables.
    pub vars: u32,
    /// The variables of the problem.
    pub original: u32,
    /// The variables of products of literals, one for each product.
    pub products: u32,
    pub clauses: u64,
    pub treatments: Treatments,
    /// The number from which the table of bounds numbers its fresh variables, where a table is asked for; it may have none.
    pub table: Option<u32>,
}

/// Appends a name and a count.
pub fn push_count(out: &mut Vec<u8>, name: &[u8], count: u64) -> Result<(), AllocError>
    ensures { OnOk result (out.new.items ≡ out.old.items ++ name.now ++ decimal count) }
{
    out.extend_from_slice(name)?;
    out.extend_from_slice(Buffer::new().format(count).as_bytes())?;
    Ok(())
}

// Appends a name and a count, if it counts any.
fn push_some(out: &mut Vec<u8>, name: &[u8], count: u64) -> Result<(), AllocError>
    ensures { OnOk result (out.new.items ≡ out.old.items ++ count_of_some name.now count) }
{
    if count == 0 {
        return Ok(());
    }
    push_count(out, name, count)
}

// Appends the line of the sizes.
fn push_sizes(out: &mut Vec<u8>, summary: &Summary) -> Result<(), AllocError>
    requires { summary.now.original + summary.now.products ≤ summary.now.vars }
    ensures { OnOk result (out.new.items ≡ out.old.items ++ counts_line summary.now) }
{
    let fresh = summary.vars - (summary.original + summary.products);
    push_count(out, b"variables ", u64::from(summary.vars))?;
    push_count(out, b" original ", u64::from(summary.original))?;
    push_count(out, b" fresh ", u64::from(fresh))?;
    push_count(out, b" clauses ", summary.clauses)?;
    push_some(out, b" products ", u64::from(summary.products))?;
    out.push(b'\n')?;
    Ok(())
}

// Appends the counts of what has no family, or is of at most one literal.
fn push_simple(out: &mut Vec<u8>, treatments: &Treatments) -> Result<(), AllocError>
    ensures { OnOk result (out.new.items ≡ out.old.items ++ simple_counts treatments.now) }
{
    push_count(out, b"nothing ", treatments.nothing)?;
    push_count(out, b" empty ", treatments.empty)?;
    push_count(out, b" clause ", treatments.clause)?;
    push_count(out, b" pairwise ", treatments.pairwise)?;
    push_count(out, b" ladder ", treatments.ladder)?;
    push_count(out, b" product ", treatments.product)
}

// Appends the counts of the families for sums of several literals.
fn push_sums(out: &mut Vec<u8>, treatments: &Treatments) -> Result<(), AllocError>
    ensures { OnOk result (out.new.items ≡ out.old.items ++ sum_counts treatments.now) }
{
    push_count(out, b" counter ", treatments.counter)?;
    push_count(out, b" totalizer ", treatments.totalizer)?;
    push_count(out, b" diagram ", treatments.diagram)?;
    push_count(out, b" tree ", treatments.tree)?;
    push_count(out, b" adder ", treatments.adder)
}

// Appends the line of the treatments.
fn push_treatments(out: &mut Vec<u8>, treatments: &Treatments) -> Result<(), AllocError>
    ensures { OnOk result (out.new.items ≡ out.old.items ++ treatments_line treatments.now) }
{
    push_simple(out, treatments)?;
    push_sums(out, treatments)?;
    push_some(out, b" joint ", treatments.joint)?;
    out.push(b'\n')?;
    Ok(())
}

/// Returns the two lines that the program prints about an encoding.
///
/// ```text
/// variables 3 original 3 fresh 0 clauses 3
/// nothing 0 empty 0 clause 0 pairwise 1 ladder 0 product 0 counter 0 totalizer 0 diagram 0 tree 0 adder 0
/// ```
pub fn summary_text(alloc: Global, summary: &Summary) -> Result<Vec<u8>, AllocError>
    requires { summary.now.original + summary.now.products ≤ summary.now.vars }
    // The text is the two lines of a summary, the number of products at the end of the first if there is one, and of halves encoded as
    // one at the end of the second.
    ensures { IfOk result (λ text. text.items ≡ summary_text summary.now) }
{
    let mut text = Vec::new(alloc);
    push_sizes(&mut text, summary)?;
    push_treatments(&mut text, &summary.treatments)?;
    Ok(text)
}
