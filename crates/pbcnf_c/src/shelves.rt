//! Texts as files of a desk in memory.
ghost use Rattle.std.specs.Prelude.{◌≡◌, ◌∷◌, ◌++◌, [], IfOk, OnOk};
ghost use Rattle.pbcnf_c.specs.inner.Shelves.{checked_texts, file_of, refuted_texts};

use pb_base::{Bytes, NoMemory, Text};
use pb_desk::{Named, Shelf};
use std::alloc::{Alloc, Global};

/// The names of the texts. Nobody sees them.
pub const OPB: &str = "opb";

pub const CNF: &str = "cnf";

pub const PROOF: &str = "proof";

pub const LRAT: &str = "lrat";

// Adds a file of this name.
fn shelve(alloc: Global, shelf: &mut Shelf, name: &str, text: &[u8]) -> Result<(), NoMemory>
    ensures { OnOk result (shelf.new ≡ shelf.old ++ file_of name.now text.now ∷ []) }
{
    shelf.push(Named {
        name: Text::from_string(name.to_string(alloc)?),
        bytes: Bytes::from_vec(text.to_vec(alloc)?),
    })?;
    Ok(())
}

/// Returns the texts of a problem, of its CNF and of a derivation as files in memory.
pub fn checked_texts(alloc: Global, opb: &[u8], cnf: &[u8], proof: &[u8]) -> Result<Shelf, NoMemory>
    ensures { IfOk result (λ shelf. shelf ≡ checked_texts opb.now cnf.now proof.now) }
{
    let mut shelf = Shelf::new(alloc);
    shelve(alloc, &mut shelf, OPB, opb)?;
    shelve(alloc, &mut shelf, CNF, cnf)?;
    shelve(alloc, &mut shelf, PROOF, proof)?;
    Ok(shelf)
}

/// Returns the texts of a problem, of its CNF, of a derivation and of a refutation as files in memory.
pub fn refuted_texts(
    alloc: Global,
    opb: &[u8],
    cnf: &[u8],
    proof: &[u8],
    lrat: &[u8],
) -> Result<Shelf, NoMemory>
    ensures { IfOk result (λ shelf. shelf ≡ refuted_texts opb.now cnf.now proof.now lrat.now) }
{
    let mut shelf = checked_texts(alloc, opb, cnf, proof)?;
    shelve(alloc, &mut shelf, LRAT, lrat)?;
    Ok(shelf)
}
