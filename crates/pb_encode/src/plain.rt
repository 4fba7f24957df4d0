//! Statements that plainly are clauses: two literals or more, of a variable each and with the coefficient 1, are to reach 1.
//!
//! Most statements of real files are. Neither a constraint nor a plan is made of one: its literals are sorted in a room that serves
//! the next one too.
ghost use Rattle.std.specs.Prelude.{◌≡◌, ◌≤◌, length, map, IsTrue};
ghost use Rattle.std.specs.Bool.{OnTrue};
ghost use Rattle.std.specs.List.Sorted.{IsPermutation};
ghost use Rattle.pb_norm.specs.ClauseForm.{one_of};
ghost use Rattle.pb_norm.specs.Constraints.{IsAscending, weights};
ghost use Rattle.pb_encode.specs.inner.Plain.{IsPlain};

use pb_base::{Lit, Lits, Raw, Relation, Term};

/// Two literals or more, of which at least one is true.
#[derive(Drop)]
pub struct PlainClause {
    pub lits: Lits,
    ghost some: { 2 ≤ length lits },
}

// Writes the literals of terms over what a list had. False if one has a coefficient other than 1, or memory runs out.
fn lits_of_ones(terms: &[Term], lits: &mut Vec<Lit>) -> bool
    ensures { OnTrue result (terms.now ≡ map one_of lits.new.items) }
{
    lits.clear();
    for term in terms {
        if term.coef != 1 {
            return false;
        }
        let Ok(()) = lits.push(term.lit) else {
            return false;
        };
    }
    true
}

// Sorts literals by their variables. True only if each variable occurs once.
fn put_in_order(lits: &mut Vec<Lit>) -> bool
    ensures order { IsPermutation lits.old.items lits.new.items }
    ensures once { IsTrue result → IsAscending (weights (map one_of lits.new.items)) }
{
    lits.sort_unstable_by_key(|lit| lit.var);
    lits.is_sorted_by(|lit, next| lit.var < next.var)
}

/// True only if the statement is a clause as it is written. Then its literals are written over what the list had.
pub fn is_plain(statement: &Raw, lits: &mut Vec<Lit>) -> bool
    ensures { OnTrue result (IsPlain statement.now lits.new.items) }
{
    let Relation::AtLeast = statement.relation else {
        return false;
    };
    if statement.right != 1 {
        return false;
    }
    if !lits_of_ones(statement.terms.as_slice(), lits) {
        return false;
    }
    if lits.len() < 2 {
        return false;
    }
    put_in_order(lits)
}
