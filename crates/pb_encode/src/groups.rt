//! The groups of a problem's constraints, one by one: each constraint of a product, and then each statement.
ghost use Rattle.std.specs.Prelude.{◌≡◌, ◌^◌, [], ◌∷◌, IfOk, IfSome, IsNone, OnErr};
ghost use Rattle.pb_base.specs.Problems.{IsWithinLimits, StaysBelow};
ghost use Rattle.pb_base.specs.declared.problem.Raw.{Raw as RawOf};
ghost use Rattle.pb_encode.specs.Groups.{group_of, groups_of};
ghost use Rattle.pb_encode.specs.inner.Found.{found_group};

use crate::plain::{PlainClause, is_plain};
use pb_base::{Lit, Lits, NoMemory, Problem, Raw, Relation, StatementsLeft};
use pb_norm::{Half, Linear, normalize, product_constraint, product_variable};
use std::alloc::Global;
use std::marker::Model;

/// Constraints that are encoded together.
pub enum Group {
    /// One by itself.
    Alone(Linear),
    /// The two halves of an equality, the lower one first.
    Paired(Linear, Linear),
}

// Written out, so that it is one call in the proofs of the functions that own a group.
impl Drop for Group {
    fn drop(self) {
        match self {
            Group::Alone(_) => {}
            Group::Paired(_, _) => {}
        }
    }
}

/// A group as it is found on a walk that looks for clauses.
pub enum Found {
    /// A constraint that plainly is a clause.
    Clause(PlainClause),
    Other(Group),
}

// Written out: one call in the proof of a function that owns it.
impl Drop for Found {
    fn drop(self) {
        match self {
            Found::Clause(_) => {}
            Found::Other(_) => {}
        }
    }
}

impl Found {
    // Returns the list of a clause, to be used again.
    fn into_list(self) -> Option<Vec<Lit>> {
        match self {
            Found::Clause(clause) => Some(clause.lits.into_vec()),
            Found::Other(_) => None,
        }
    }
}

// Returns the group of a statement: one constraint, or the two halves of an equality.
fn group_of(alloc: Global, statement: &Raw) -> Result<Group, NoMemory>
    requires { StaysBelow (2 ^ 126) statement.now }
    ensures { IfOk result (λ group. group ≡ group_of statement.now) }
{
    match statement.relation {
        Relation::AtLeast => Ok(Group::Alone(normalize(alloc, statement, Half::Lower)?)),
        Relation::AtMost => Ok(Group::Alone(normalize(alloc, statement, Half::Upper)?)),
        Relation::Equal => {
            let lower = normalize(alloc, statement, Half::Lower)?;
            let upper = normalize(alloc, statement, Half::Upper)?;
            Ok(Group::Paired(lower, upper))
        }
    }
}

// Reads the next of the unread statements over another one, whose memory is used again.
fn read_next(
    alloc: Global,
    statements: &mut StatementsLeft<'_>,
    last: Option<Raw>,
) -> Result<Option<Raw>, NoMemory>
    ensures some { IfOk result (λ next. IfSome next (λ s. statements.old ≡ s ∷ statements.new)) }
    ensures none { IfOk result (λ next. IsNone next → (statements.old ≡ []) × (statements.new ≡ [])) }
    ensures err { OnErr result ((s : RawOf) × (statements.old ≡ s ∷ statements.new)) }
{
    let mut statement = match last {
        Some(last) => last,
        None => Raw::empty(alloc),
    };
    if !statements.next_into(&mut statement)? {
        return Ok(None);
    }
    Ok(Some(statement))
}

/// The groups that are still to come, of which none is kept.
#[derive(Drop)]
pub struct Groups<'a> {
    vars: u32,
    products: &'a [Lits],
    place: usize,
    statements: StatementsLeft<'a>,
    // The statement that was read last, whose room serves the next one.
    last: Option<Raw>,
    // The list of the clause that was found last.
    room: Option<Vec<Lit>>,
}

impl<'a> Model for Groups<'a> {
    ghost use Rattle.std.specs.Prelude.{List};
    ghost use Rattle.pb_encode.specs.declared.groups.Group.{Group};
    ghost use Rattle.pb_encode.specs.inner.Walks.{groups_left, MayGoOn};

    ghost Value = { List Group };

    ghost view = { λ g. groups_left g.vars g.products.now g.place g.statements };

    ghost invariant = { λ g. MayGoOn g.vars g.products.now g.place g.statements };
}

impl<'a> Groups<'a> {
    /// Starts before the first group of a problem.
    pub fn of(problem: &'a Problem) -> Groups<'a>
        requires { IsWithinLimits problem.now }
        ensures { result ≡ groups_of problem.now }
    {
        Groups {
            vars: problem.vars,
            products: problem.products.as_slice(),
            place: 0,
            statements: problem.statements.iter(),
            last: None,
            room: None,
        }
    }

    /// Returns the next group, if there is one.
    pub fn next(&mut self, alloc: Global) -> Result<Option<Group>, NoMemory>
        ensures some { IfOk result (λ next. IfSome next (λ group. self.old ≡ group ∷ self.new)) }
        ensures none { IfOk result (λ next. IsNone next → self.old ≡ []) }
    {
        if let Some((literals, rest)) = self.products.split_first() {
            let product = product_variable(self.vars, 0);
            let constraint = product_constraint(alloc, &product, literals.as_slice(), self.place)?;
            if self.place < literals.len() {
                self.place += 1;
            } else {
                self.vars += 1;
                self.products = rest;
                self.place = 0;
            }
            return Ok(Some(Group::Alone(constraint)));
        }
        let Some(statement) = read_next(alloc, &mut self.statements, self.last.take())? else {
            return Ok(None);
        };
        let group = group_of(alloc, &statement)?;
        self.last = Some(statement);
        Ok(Some(group))
    }

    /// Returns the next group, if there is one: as a clause if it plainly is one as it is written.
    pub fn next_found(&mut self, alloc: Global) -> Result<Option<Found>, NoMemory>
        ensures some { IfOk result (λ next. IfSome next (λ found. self.old ≡ found_group found ∷ self.new)) }
        ensures none { IfOk result (λ next. IsNone next → self.old ≡ []) }
    {
        if !self.products.is_empty() {
            return match self.next(alloc)? {
                Some(group) => Ok(Some(Found::Other(group))),
                None => Ok(None),
            };
        }
        let Some(statement) = read_next(alloc, &mut self.statements, self.last.take())? else {
            return Ok(None);
        };
        let mut lits = match self.room.take() {
            Some(lits) => lits,
            None => Vec::new(alloc),
        };
        if is_plain(&statement, &mut lits) {
            self.last = Some(statement);
            return Ok(Some(Found::Clause(PlainClause {
                lits: Lits::from_vec(lits),
            })));
        }
        self.room = Some(lits);
        let group = group_of(alloc, &statement)?;
        self.last = Some(statement);
        Ok(Some(Found::Other(group)))
    }

    /// Takes the list of a clause back, so that it serves the next one.
    pub fn take_back(&mut self, found: Found)
        ensures { self.new ≡ self.old }
    {
        if let Some(list) = found.into_list() {
            self.room = Some(list);
        }
    }
}
