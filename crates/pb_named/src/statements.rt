//! Named statements in little room.
ghost use Rattle.std.specs.Prelude.{[], ◌∷◌, ◌++◌, ◌≡◌, ◌≤◌, OnOk, OnErr, IfOk, IfErr, IfSome, length, map, take, drop};
ghost use Rattle.std.specs.Bool.{OnTrue, OnFalse};
ghost use Rattle.std.specs.Iterator.{YieldsFirstBy, item_count};
ghost use Rattle.pb_named.specs.inner.Columns.{listed, named_statement, free_count, StandsFor, AddsPlain};

use crate::named::{FreeName, Name, NamedLit, NamedTerm, NamedTerms, Parts};
use pb_base::{
    Head, Heads, HeadsLeft, Lit, MAX_VARIABLES, NoMemory, Relation, Statements, Term, TermColumn,
    TermsLeft, Var,
};
use std::alloc::{AllocError, Global};
use std::marker::Model;

/// Statements in order. Where each term of one has a single literal, they take little room: the greatest variable stands there for a
/// free name, which is kept beside them. The terms of any other statement are kept whole.
pub struct NamedStatements<'a> {
    heads: Heads,
    plain: TermColumn,
    names: Vec<FreeName<'a>>,
    whole: Vec<NamedTerms<'a>>,
}

// Written out: one call in the proof of a function that owns it.
impl Drop for NamedStatements<'_> {
    fn drop(self) {
        let NamedStatements {
            heads: _,
            plain: _,
            names: _,
            whole: _,
        } = self;
    }
}

impl<'a> Model for NamedStatements<'a> {
    ghost use Rattle.std.specs.Prelude.{List, ◌≡◌, length};
    ghost use Rattle.pb_named.specs.declared.named.NamedStatement.{NamedStatement};
    ghost use Rattle.pb_named.specs.inner.Columns.{named_terms, free_count, named_in, AreColumns};

    ghost Value = { List NamedStatement };

    ghost view = { λ s. named_in s.heads (named_terms s.plain s.names.items) s.whole.items };

    ghost invariant = { λ s. AreColumns s.heads (named_terms s.plain s.names.items) s.whole.items × (length s.names.items ≡ free_count s.plain) };
}

// What stands for a term of a single literal.
#[derive(Drop)]
struct Plain<'a> {
    term: Term,
    name: Option<FreeName<'a>>,
}

// What stands for the term, where it has a single literal.
fn plain_of<'a>(term: &NamedTerm<'a>) -> Option<Plain<'a>>
    ensures { IfSome result (λ p. StandsFor p.term p.name term.now) }
{
    if !term.more().is_empty() {
        return None;
    }
    let lit = term.lit();
    let (index, name) = match lit.name.parts() {
        Parts::Index(index) => {
            if index == MAX_VARIABLES {
                return None;
            }
            (index, None)
        }
        Parts::Free(text) => (MAX_VARIABLES, Some(FreeName::new(text))),
    };
    Some(Plain {
        term: Term {
            coef: term.coef(),
            lit: Lit {
                var: Var::new(index),
                positive: lit.positive,
            },
        },
        name,
    })
}

// Adds what stands for a term at the end, if there is memory.
fn push_one<'a>(
    plain: &mut TermColumn,
    names: &mut Vec<FreeName<'a>>,
    next: Plain<'a>,
) -> Result<(), NoMemory>
    ensures term { OnOk result (plain.new ≡ plain.old ++ next.entry.term ∷ []) }
    ensures name { OnOk result (names.new.items ≡ names.old.items ++ listed next.entry.name) }
    ensures before { take (length plain.old) plain.new ≡ plain.old }
    ensures names { take (length names.old.items) names.new.items ≡ names.old.items }
{
    plain.push(&next.term)?;
    match next.name {
        Some(name) => {
            names.push(name)?;
            Ok(())
        }
        None => Ok(()),
    }
}

// Adds terms at the end, if all can stand in little room.
fn push_plain_terms<'a>(
    plain: &mut TermColumn,
    names: &mut Vec<FreeName<'a>>,
    terms: &[NamedTerm<'a>],
) -> bool
    ensures before { take (length plain.old) plain.new ≡ plain.old }
    ensures names { take (length names.old.items) names.new.items ≡ names.old.items }
    ensures added { OnTrue result (AddsPlain plain.old plain.new names.old.items names.new.items terms.now) }
{
    for term in terms {
        let Some(next) = plain_of(term) else {
            return false;
        };
        let Ok(()) = push_one(plain, names, next) else {
            return false;
        };
    }
    true
}

// Adds a statement whose terms can stand in little room; of any other, or where memory is wanting, nothing is added.
fn push_plain<'a>(
    heads: &mut Heads,
    plain: &mut TermColumn,
    names: &mut Vec<FreeName<'a>>,
    terms: &[NamedTerm<'a>],
    relation: Relation,
    right: i128,
) -> bool
    ensures head { OnTrue result (heads.new ≡ heads.old ++ record { terms = length terms.now; relation = relation; right = right } ∷ []) }
    ensures some { OnTrue result (1 ≤ length terms.now) }
    ensures added { OnTrue result (AddsPlain plain.old plain.new names.old.items names.new.items terms.now) }
    ensures heads { OnFalse result (heads.new ≡ heads.old) }
    ensures plain { OnFalse result (plain.new ≡ plain.old) }
    ensures names { OnFalse result (names.new.items ≡ names.old.items) }
{
    let count = plain.len();
    let known = names.len();
    let len = terms.len();
    if len == 0 || len > u32::MAX as usize {
        return false;
    }
    if push_plain_terms(plain, names, terms) {
        let head = Head {
            terms: len as u32,
            relation,
            right,
        };
        if heads.push(head).is_ok() {
            return true;
        }
    }
    plain.truncate(count);
    names.truncate(known);
    false
}

// Adds a statement whose terms are kept whole, if there is memory.
fn push_whole<'a>(
    heads: &mut Heads,
    whole: &mut Vec<NamedTerms<'a>>,
    terms: NamedTerms<'a>,
    relation: Relation,
    right: i128,
) -> Result<(), NoMemory>
    ensures head { OnOk result (heads.new ≡ heads.old ++ record { terms = 0; relation = relation; right = right } ∷ []) }
    ensures whole { OnOk result (whole.new.items ≡ whole.old.items ++ terms.entry ∷ []) }
    ensures heads { OnErr result (heads.new ≡ heads.old) }
    ensures wholes { OnErr result (whole.new.items ≡ whole.old.items) }
{
    whole.push(terms)?;
    let head = Head {
        terms: 0,
        relation,
        right,
    };
    match heads.push(head) {
        Ok(()) => Ok(()),
        Err(NoMemory) => {
            whole.pop();
            Err(NoMemory)
        }
    }
}

// Terms that are moved out of their vector, in no more room than they need.
fn take_terms<'a>(
    alloc: Global,
    read: &mut Vec<NamedTerm<'a>>,
) -> Result<NamedTerms<'a>, AllocError>
    ensures terms { IfOk result (λ terms. terms ≡ read.old.items) }
    ensures rest { OnOk result (read.new.items ≡ []) }
{
    let mut terms = Vec::with_capacity(alloc, read.len())?;
    terms.append(read)?;
    Ok(NamedTerms::from_vec(terms))
}

impl<'a> NamedStatements<'a> {
    /// No statement.
    pub fn new(alloc: Global) -> Self
        ensures { result ≡ [] }
    {
        NamedStatements {
            heads: Heads::new(alloc),
            plain: TermColumn::new(alloc),
            names: Vec::new(alloc),
            whole: Vec::new(alloc),
        }
    }

    /// How many statements there are.
    pub fn len(&self) -> usize
        ensures { result ≡ length self.now }
    {
        self.heads.len()
    }

    /// Adds a statement at the end. Its terms are taken out of the vector, whose room stays.
    pub fn push(
        &mut self,
        alloc: Global,
        terms: &mut Vec<NamedTerm<'a>>,
        relation: Relation,
        right: i128,
    ) -> Result<(), NoMemory>
        ensures ok { OnOk result (self.new ≡ self.old ++ record { terms = terms.old.items; relation = relation; right = right } ∷ []) }
        ensures rest { OnOk result (terms.new.items ≡ []) }
        ensures err { OnErr result (self.new ≡ self.old) }
    {
        if push_plain(
            &mut self.heads,
            &mut self.plain,
            &mut self.names,
            terms.as_slice(),
            relation,
            right,
        ) {
            terms.clear();
            return Ok(());
        }
        let kept = take_terms(alloc, terms)?;
        push_whole(&mut self.heads, &mut self.whole, kept, relation, right)
    }

    /// The statements in numbers, where all terms have a single literal, of a numbered name.
    pub(crate) fn into_plain(self) -> Result<Statements, NamedStatements<'a>>
        ensures plain { IfOk result (λ ss. map named_statement ss ≡ self.entry) }
        ensures whole { IfErr result (λ rest. rest ≡ self.entry) }
    {
        if !self.whole.is_empty() || !self.names.is_empty() {
            return Err(self);
        }
        let NamedStatements {
            heads,
            plain,
            names: _,
            whole: _,
        } = self;
        Ok(Statements::from_columns(heads, plain))
    }

    /// The statements, one after another.
    pub(crate) fn iter(&self) -> NamedLeft<'_, 'a>
        ensures { result ≡ self.now }
    {
        NamedLeft {
            heads: self.heads.iter(),
            plain: self.plain.iter(),
            ahead: self.plain.iter(),
            names: self.names.as_slice(),
            whole: self.whole.as_slice(),
        }
    }
}

/// The statements that are left of some.
#[derive(Drop)]
pub(crate) struct NamedLeft<'b, 'a> {
    heads: HeadsLeft<'b>,
    plain: TermsLeft<'b>,
    // the same terms, which are read for their free names alone
    ahead: TermsLeft<'b>,
    names: &'b [FreeName<'a>],
    whole: &'b [NamedTerms<'a>],
}

impl<'b, 'a> Model for NamedLeft<'b, 'a> {
    ghost use Rattle.std.specs.Prelude.{List, ◌≡◌, ◌≤◌, length};
    ghost use Rattle.pb_named.specs.declared.named.NamedStatement.{NamedStatement};
    ghost use Rattle.pb_named.specs.inner.Columns.{named_terms, free_count, named_in, AreColumns};

    ghost Value = { List NamedStatement };

    ghost view = { λ s. named_in s.heads (named_terms s.plain s.names.now) s.whole.now };

    ghost invariant = { λ s. AreColumns s.heads (named_terms s.plain s.names.now) s.whole.now × (free_count s.plain ≤ length s.names.now) × (s.ahead ≡ s.plain) };
}

/// The terms that are left of some which stand in little room.
#[derive(Drop)]
pub(crate) struct PlainLeft<'b, 'a> {
    terms: TermsLeft<'b>,
    names: &'b [FreeName<'a>],
}

impl<'b, 'a> Model for PlainLeft<'b, 'a> {
    ghost use Rattle.std.specs.Prelude.{List, ◌≤◌, length};
    ghost use Rattle.pb_named.specs.NamedTerms.{NamedTerm as TermOf};
    ghost use Rattle.pb_named.specs.inner.Columns.{named_terms, free_count};

    ghost Value = { List TermOf };

    ghost view = { λ p. named_terms p.terms p.names.now };

    ghost invariant = { λ p. free_count p.terms ≤ length p.names.now };
}

impl<'b, 'a> Iterator for PlainLeft<'b, 'a> {
    type Item = NamedTerm<'a>;

    ghost next_gives = { YieldsFirstBy (λ n. n) (λ n. n) };

    ghost remaining = { item_count (λ n. n) };

    fn next(&mut self) -> Option<NamedTerm<'a>> {
        let term = self.terms.next()?;
        let name = if term.lit.index() == MAX_VARIABLES {
            let names = self.names;
            self.names = &names[1..];
            Name::of_free(&names[0])
        } else {
            Name::of_index(term.lit.index())
        };
        let positive = term.lit.positive;
        Some(NamedTerm::new(term.coef, NamedLit { name, positive }))
    }
}

// The names behind the first.
fn behind_first<'b, 'a>(names: &'b [FreeName<'a>]) -> &'b [FreeName<'a>]
    requires { 1 ≤ length names.now }
    ensures { result.now ≡ drop 1 names.now }
{
    &names[1..]
}

// The names behind those of these terms.
fn names_behind<'b, 'a>(terms: TermsLeft<'_>, names: &'b [FreeName<'a>]) -> &'b [FreeName<'a>]
    requires { free_count terms ≤ length names.now }
    ensures { result.now ≡ drop (free_count terms.entry) names.now }
{
    let mut left = names;
    for term in terms {
        if term.lit.index() == MAX_VARIABLES {
            left = behind_first(left);
        }
    }
    left
}

/// Writes terms over others.
pub(crate) fn write_named<'a>(
    terms: PlainLeft<'_, 'a>,
    list: &mut Vec<NamedTerm<'a>>,
) -> Result<(), NoMemory>
    ensures { OnOk result (list.new.items ≡ terms.entry) }
{
    list.clear();
    for term in terms {
        list.push(term)?;
    }
    Ok(())
}

/// The terms of a statement, as they are kept.
#[derive(Drop)]
pub(crate) enum Body<'b, 'a> {
    Plain(PlainLeft<'b, 'a>),
    Whole(&'b [NamedTerm<'a>]),
}

/// A statement that is read where it is kept.
#[derive(Drop)]
pub(crate) struct NamedNext<'b, 'a> {
    pub body: Body<'b, 'a>,
    pub relation: Relation,
    pub right: i128,
}

impl<'b, 'a> Iterator for NamedLeft<'b, 'a> {
    ghost use Rattle.pb_named.specs.inner.Kept.{statement_in};

    type Item = NamedNext<'b, 'a>;

    ghost next_gives = { YieldsFirstBy statement_in (λ s. s) };

    ghost remaining = { item_count (λ s. s) };

    fn next(&mut self) -> Option<NamedNext<'b, 'a>> {
        let Head {
            terms,
            relation,
            right,
        } = self.heads.next()?;
        if terms > 0 {
            let names = self.names;
            let front = self.plain.take_front(terms as usize);
            self.names = names_behind(self.ahead.take_front(terms as usize), names);
            let body = Body::Plain(PlainLeft {
                terms: front,
                names,
            });
            return Some(NamedNext {
                body,
                relation,
                right,
            });
        }
        let whole = self.whole;
        self.whole = &whole[1..];
        let body = Body::Whole(whole[0].as_slice());
        Some(NamedNext {
            body,
            relation,
            right,
        })
    }
}
