//! Statements in little room.
ghost use Rattle.std.specs.Prelude.{[], ◌∷◌, ◌++◌, ◌≡◌, ◌≤◌, IsTrue, OnOk, OnErr, IfOk, length, take};
ghost use Rattle.std.specs.Bool.{IsFalse};
ghost use Rattle.std.specs.Iterator.{YieldsFirstBy, item_count};
ghost use Rattle.pb_base.specs.Statements.{statements_in, term_count};

use crate::fault::NoMemory;
use crate::heads::{Head, Heads, HeadsLeft};
use crate::list::Terms;
use crate::literal::Term;
use crate::problem::{Raw, Relation};
use crate::term_column::{TermColumn, TermsLeft};
use std::alloc::Global;
use std::marker::Model;

// Their terms stand in one column, those of a statement behind those of the one before.
struct Columns {
    heads: Heads,
    terms: TermColumn,
}

// Written out: one call in the proof of a function that owns it.
impl Drop for Columns {
    fn drop(self) {
        let Columns { heads: _, terms: _ } = self;
    }
}

impl Model for Columns {
    ghost use Rattle.std.specs.Prelude.{List, ◌≡◌, length};
    ghost use Rattle.pb_base.specs.declared.problem.Raw.{Raw};
    ghost use Rattle.pb_base.specs.Statements.{statements_in, term_count};

    ghost Value = { List Raw };

    ghost view = { λ s. statements_in s.heads s.terms };

    ghost invariant = { λ s. length s.terms ≡ term_count s.heads };
}

/// Statements in order.
#[derive(Drop)]
pub struct Statements {
    columns: Columns,
}

impl Model for Statements {
    ghost use Rattle.std.specs.Prelude.{List};
    ghost use Rattle.pb_base.specs.declared.problem.Raw.{Raw};

    ghost Value = { List Raw };

    ghost view = { λ s. s.columns };
}

// Adds terms at the end, if there is memory for all of them.
fn push_terms(column: &mut TermColumn, terms: &[Term]) -> Result<(), NoMemory>
    ensures ok { OnOk result (column.new ≡ column.old ++ terms.now) }
    ensures before { take (length column.old) column.new ≡ column.old }
{
    for term in terms {
        column.push(term)?;
    }
    Ok(())
}

// Adds a statement's terms and its head at the end, if there is memory, and else perhaps some of its terms.
fn push_parts(
    heads: &mut Heads,
    column: &mut TermColumn,
    terms: &[Term],
    relation: Relation,
    right: i128,
) -> Result<(), NoMemory>
    ensures terms { OnOk result (column.new ≡ column.old ++ terms.now) }
    ensures head { OnOk result (heads.new ≡ heads.old ++ record { terms = length terms.now; relation = relation; right = right } ∷ []) }
    ensures before { take (length column.old) column.new ≡ column.old }
    ensures err { OnErr result (heads.new ≡ heads.old) }
{
    if terms.len() > u32::MAX as usize {
        return Err(NoMemory);
    }
    push_terms(column, terms)?;
    heads.push(Head {
        terms: terms.len() as u32,
        relation,
        right,
    })
}

impl Statements {
    /// No statement.
    pub fn new(alloc: Global) -> Statements
        ensures { result ≡ [] }
    {
        Statements::from_columns(Heads::new(alloc), TermColumn::new(alloc))
    }

    /// The statements of these heads, each with its number of the terms that follow.
    pub fn from_columns(heads: Heads, terms: TermColumn) -> Statements
        requires { length terms ≡ term_count heads }
        // The statements are those of the heads, each with its number of the terms that follow.
        ensures { result ≡ statements_in heads terms }
    {
        Statements {
            columns: Columns { heads, terms },
        }
    }

    /// How many statements there are.
    pub fn len(&self) -> usize
        // The number is that of the statements.
        ensures { result ≡ length self.now }
    {
        self.columns.heads.len()
    }

    /// Adds a statement at the end.
    pub fn push(&mut self, terms: &[Term], relation: Relation, right: i128) -> Result<(), NoMemory>
        // On success the statement is at the end.
        ensures ok { OnOk result (self.new ≡ self.old ++ record { terms = terms.now; relation = relation; right = right } ∷ []) }
        // On failure the list is as it was.
        ensures err { OnErr result (self.new ≡ self.old) }
    {
        let Columns {
            heads,
            terms: column,
        } = &mut self.columns;
        let count = column.len();
        let Ok(()) = push_parts(heads, column, terms, relation, right) else {
            column.truncate(count);
            return Err(NoMemory);
        };
        Ok(())
    }

    /// The statements, one after another.
    pub fn iter(&self) -> StatementsLeft<'_>
        // The iterator gives the statements in order.
        ensures { result ≡ self.now }
    {
        StatementsLeft {
            heads: self.columns.heads.iter(),
            terms: self.columns.terms.iter(),
        }
    }
}

/// A statement that is read where it is kept.
#[derive(Drop)]
pub struct Statement<'a> {
    pub terms: TermsLeft<'a>,
    pub relation: Relation,
    pub right: i128,
}

/// The statements that are left of a list.
#[derive(Drop)]
pub struct StatementsLeft<'a> {
    heads: HeadsLeft<'a>,
    terms: TermsLeft<'a>,
}

impl<'a> Model for StatementsLeft<'a> {
    ghost use Rattle.std.specs.Prelude.{List, ◌≤◌, length};
    ghost use Rattle.pb_base.specs.declared.problem.Raw.{Raw};
    ghost use Rattle.pb_base.specs.Statements.{statements_in, term_count};

    ghost Value = { List Raw };

    ghost view = { λ s. statements_in s.heads s.terms };

    ghost invariant = { λ s. term_count s.heads ≤ length s.terms };
}

impl<'a> Iterator for StatementsLeft<'a> {
    ghost use Rattle.pb_base.specs.Statements.{raw_of};

    type Item = Statement<'a>;

    ghost next_gives = { YieldsFirstBy raw_of (λ t. t) };

    ghost remaining = { item_count (λ t. t) };

    fn next(&mut self) -> Option<Statement<'a>> {
        let head = self.heads.next()?;
        Some(Statement {
            terms: self.terms.take_front(head.terms as usize),
            relation: head.relation,
            right: head.right,
        })
    }
}

// Writes terms over others, whose room is used again.
fn write_terms(terms: TermsLeft<'_>, list: &mut Terms) -> Result<(), NoMemory>
    ensures { OnOk result (list.new ≡ terms.entry) }
{
    list.clear();
    for term in terms {
        list.push(term)?;
    }
    Ok(())
}

impl<'a> StatementsLeft<'a> {
    ghost use Rattle.pb_base.specs.declared.problem.Raw.{Raw};

    /// Writes the next statement over another, whose room is used again. At the end nothing changes, and the answer is false. Where
    /// memory is wanting, the statement is passed over.
    pub fn next_into(&mut self, raw: &mut Raw) -> Result<bool, NoMemory>
        // If the answer is true, the statement is the next one.
        ensures more { IfOk result (λ more. IsTrue more → self.old ≡ raw.new ∷ self.new) }
        // If the answer is false, none was left, and nothing changed.
        ensures end { IfOk result (λ more. IsFalse more → (self.old ≡ []) × (self.new ≡ []) × (raw.new ≡ raw.old)) }
        // After `NoMemory` the next statement was passed over.
        ensures err { OnErr result ((s : Raw) × (self.old ≡ s ∷ self.new)) }
    {
        match self.next() {
            None => Ok(false),
            Some(statement) => {
                write_terms(statement.terms, &mut raw.terms)?;
                raw.relation = statement.relation;
                raw.right = statement.right;
                Ok(true)
            }
        }
    }
}
