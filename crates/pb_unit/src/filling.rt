//! The index of the constraints that an engine begins with, filled for one range of literals after another.
//!
//! In one flat array, each literal has a section with the places of the constraints in which it has the coefficient 1, four bytes
//! each. Filled constraint by constraint, nearly each write would touch another part of many megabytes, and waiting for memory was
//! most of the time of a large CNF. So all constraints and their rooms are stored first. Then they are read once for each of at most
//! 16 ranges of literals, and what is written meanwhile lies within some megabytes.
//!
//! The sections have the lengths that a count of the literals gives. If a count were wrong, a section would be full, and further
//! occurrences would enter a list of the literal's own, as coefficients other than 1 do. So counts and ranges are hints, and no proof
//! needs them to be right. What is proved is that a literal's occurrences at a place add up to its coefficient there, in whatever
//! order and list they are.
ghost use Rattle.std.specs.Prelude.{◌≡◌, ◌<◌, ◌+◌, ◌*◌, [], map, length, All, IfOk};
ghost use Rattle.std.specs.Bool.{OnTrue};
ghost use Rattle.pb_base.specs.declared.literal.Lit.{Lit};
ghost use Rattle.pb_norm.specs.Constraints.{weights};
ghost use Rattle.pb_unit.specs.inner.Filling.{terms_in, AddsPlace, AddsTerm, AreNumbered, IsFilled, IsFilling, IsInRange};
ghost use Rattle.pb_unit.specs.Index.{code, list_at, size_of};
ghost use Rattle.pb_unit.specs.inner.Slots.{unit, slot_at, AreSlots, IsSlot};
ghost use Rattle.pb_unit.specs.States.{StandWithin};

use crate::index::{Index, code};
use crate::places::{Places, Slot, part};
use pb_base::{Lit, NoMemory, Term};
use std::alloc::Global;

// So many occurrences are written near each other, in so many ranges at most.
const RANGE: usize = 2_097_152;

const MOST_RANGES: usize = 16;

/// Numbers of literals, from one up to another, which is not among them.
#[derive(Clone, Copy)]
pub(crate) struct Codes {
    pub(crate) low: usize,
    pub(crate) high: usize,
}

// How many terms have each literal with the coefficient 1, by the literals' numbers.
fn counts_of(alloc: Global, vars: u32, places: &Places) -> Result<Vec<u32>, NoMemory>
    ensures { IfOk result (λ v. length v.items ≡ 2 * vars + 2) }
{
    let mut counts: Vec<u32> = vec![in alloc; 0; 2 * vars as usize + 2]?;
    places.count_units(&mut counts);
    Ok(counts)
}

// No occurrences yet, with room for those of what stands.
fn empty_index(alloc: Global, vars: u32, places: &Places) -> Result<Index, NoMemory>
    ensures size { IfOk result (λ lists. size_of lists ≡ 2 * vars + 2) }
    ensures empty { IfOk result (λ lists. (l : Lit) → list_at lists l ≡ []) }
{
    let counts = counts_of(alloc, vars, places)?;
    Index::new(alloc, &counts)
}

// Counts one more occurrence of a literal.
fn count_lit(lit: &Lit, counts: &mut [u32]) {
    if let Some(count) = counts.get_mut(code(lit)) {
        *count = count.saturating_add(1);
    }
}

// Counts literals.
pub(crate) fn count_lits(lits: &[Lit], counts: &mut [u32]) {
    for lit in lits {
        count_lit(lit, counts);
    }
}

// Counts the literals of the terms with the coefficient 1.
pub(crate) fn count_terms(terms: &[Term], counts: &mut [u32]) {
    for term in terms {
        if term.weight() == 1 {
            count_lit(&term.lit, counts);
        }
    }
}

// A term at a place, if its literal is in the range and there is memory.
fn enter_term(
    alloc: Global,
    lists: &mut Index,
    place: usize,
    lit: &Lit,
    coef: u128,
    codes: Codes,
) -> bool
    requires { code lit.now < size_of lists.old }
    ensures size { size_of lists.new ≡ size_of lists.old }
    ensures added { OnTrue result (AddsTerm codes.low codes.high place (record { coef = coef; lit = lit.now }) lists.old lists.new) }
{
    let number = code(lit);
    if number < codes.low || number >= codes.high {
        return true;
    }
    lists.push(alloc, lit, place, coef)
}

// The literals of a clause at a place, as far as they are in the range.
fn enter_clause(alloc: Global, lists: &mut Index, place: usize, lits: &[Lit], codes: Codes) -> bool
    requires { All (λ l. code l < size_of lists.old) lits.now }
    ensures size { size_of lists.new ≡ size_of lists.old }
    ensures added { OnTrue result (AddsPlace codes.low codes.high place (map unit lits.now) lists.old lists.new) }
{
    for lit in lits {
        if !enter_term(alloc, lists, place, lit, 1, codes) {
            return false;
        }
    }
    true
}

// The terms of a constraint at a place, as far as their literals are in the range.
fn enter_terms(alloc: Global, lists: &mut Index, place: usize, terms: &[Term], codes: Codes) -> bool
    requires { AreNumbered lists.old (weights terms.now) }
    ensures size { size_of lists.new ≡ size_of lists.old }
    ensures added { OnTrue result (AddsPlace codes.low codes.high place (weights terms.now) lists.old lists.new) }
{
    for term in terms {
        if !enter_term(alloc, lists, place, &term.lit, term.weight(), codes) {
            return false;
        }
    }
    true
}

// What stands at a place, as far as its literals are in the range.
fn enter_slot(
    alloc: Global,
    lists: &mut Index,
    place: usize,
    slot: &Slot,
    lits: &[Lit],
    codes: Codes,
) -> bool
    requires slot { IsSlot (length lits.now) slot.now }
    requires numbered { AreNumbered lists.old (terms_in (slot_at lits.now slot.now)) }
    ensures size { size_of lists.new ≡ size_of lists.old }
    ensures added { OnTrue result (AddsPlace codes.low codes.high place (terms_in (slot_at lits.now slot.now)) lists.old lists.new) }
{
    match slot {
        Slot::Clause { start, len } => {
            enter_clause(alloc, lists, place, part(lits, *start, *len), codes)
        }
        Slot::General(alone) => enter_terms(alloc, lists, place, alone.terms(), codes),
        Slot::Empty => true,
    }
}

// All that stands, as far as its literals are in the range.
pub(crate) fn fill_range(
    alloc: Global,
    lists: &mut Index,
    slots: &[Slot],
    lits: &[Lit],
    codes: Codes,
) -> bool
    requires slots { AreSlots (length lits.now) slots.now }
    requires numbered { All (λ s. AreNumbered lists.old (terms_in (slot_at lits.now s))) slots.now }
    requires empty { (l : Lit) → IsInRange codes.low codes.high l → list_at lists.old l ≡ [] }
    ensures { OnTrue result (IsFilling codes.low codes.high lists.old lists.new (map terms_in (map (slot_at lits.now) slots.now))) }
{
    for place in 0..slots.len() {
        if !enter_slot(alloc, lists, place, &slots[place], lits, codes) {
            return false;
        }
    }
    true
}

// All that stands, if there is memory.
fn fill(alloc: Global, places: &Places, lists: &mut Index, vars: u32) -> bool
    requires within { StandWithin vars places.now }
    requires width { size_of lists.old ≡ 2 * vars + 2 }
    requires empty { (l : Lit) → list_at lists.old l ≡ [] }
    ensures { OnTrue result (IsFilled vars places.now lists.new) }
{
    let size = 2 * vars as usize + 2;
    let step = size / (lists.room() / RANGE + 1).min(MOST_RANGES) + 1;
    let mut low = 0;
    while low < size {
        let high = low + step;
        if !places.fill(alloc, lists, vars, Codes { low, high }) {
            return false;
        }
        low = high;
    }
    true
}

// The index of all that stands.
pub(crate) fn index_of(alloc: Global, vars: u32, places: &Places) -> Result<Index, NoMemory>
    requires { StandWithin vars places.now }
    ensures { IfOk result (λ lists. IsFilled vars places.now lists) }
{
    let mut lists = empty_index(alloc, vars, places)?;
    if fill(alloc, places, &mut lists, vars) {
        Ok(lists)
    } else {
        Err(NoMemory)
    }
}
