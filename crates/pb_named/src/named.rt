//! Problems whose variables are named as in their text.
ghost use Rattle.std.specs.Prelude.{◌≡◌, length, ◌≤◌, ◌<◌, ◌^◌};
ghost use Rattle.pb_named.specs.Names.Name.{index, free};

use crate::statements::NamedStatements;
use pb_base::{Relation, Seq};
use std::alloc::{AllocError, Global};
use std::marker::Model;

/// The bytes of a free name.
#[derive(Drop)]
pub(crate) struct FreeName<'a> {
    text: &'a [u8],
}

impl<'a> Model for FreeName<'a> {
    ghost use Rattle.std.specs.Prelude.{ℕ, List, ◌≤◌, length};

    ghost Value = { List ℕ };

    ghost view = { λ n. n.text.now };

    ghost invariant = { λ n. length n.text.now ≤ 255 };
}

impl<'a> FreeName<'a> {
    /// Of these bytes.
    pub fn new(text: &'a [u8]) -> Self
        requires { length text.now ≤ 255 }
        ensures { result ≡ text.now }
    {
        FreeName { text }
    }
}

/// What a word names: a variable by its number behind `x`, or by a free name.
#[derive(Drop)]
pub struct Name<'a> {
    // 0 for a free name
    index: u32,
    text: &'a [u8],
}

impl<'a> Model for Name<'a> {
    ghost use Rattle.std.specs.Prelude.{◌<◌, ◌≤◌, ◌^◌, length};
    ghost use Rattle.pb_named.specs.Names.{Name as NameOf};
    ghost use Rattle.pb_named.specs.Kept.{kept_name};

    ghost Value = { NameOf };

    ghost view = { λ n. kept_name n.index n.text.now };

    ghost invariant = { λ n. (n.index < 2 ^ 31) × (length n.text.now ≤ 255) };
}

impl<'a> Name<'a> {
    ghost use Rattle.pb_named.specs.inner.Numbering.{of_parts, IsInReach};

    /// The name `x` and a number from 1 on.
    pub fn of_index(number: u32) -> Self
        requires low { 1 ≤ number }
        requires high { number < 2 ^ 31 }
        // The name is `x` and the number.
        ensures { result ≡ index number }
    {
        Name {
            index: number,
            text: &[],
        }
    }

    /// A free name.
    pub fn of_text(text: &'a [u8]) -> Self
        requires { length text.now ≤ 255 }
        // The name is the free name of these bytes.
        ensures { result ≡ free text.now }
    {
        Name { index: 0, text }
    }

    /// A free name again.
    pub(crate) fn of_free(name: &FreeName<'a>) -> Self
        ensures { result ≡ free name.now }
    {
        Name {
            index: 0,
            text: name.text,
        }
    }

    /// What stands in it.
    pub fn parts(&self) -> Parts<'a>
        // The parts are those of the name.
        ensures value { of_parts result ≡ self.now }
        ensures index { IsInReach result }
    {
        if self.index == 0 {
            Parts::Free(self.text)
        } else {
            Parts::Index(self.index)
        }
    }
}

/// What stands in a name.
#[derive(Clone, Copy)]
pub enum Parts<'a> {
    /// The number behind `x`.
    Index(u32),
    /// The bytes of a free name.
    Free(&'a [u8]),
}

/// A name or its negation.
#[derive(Drop)]
pub struct NamedLit<'a> {
    pub name: Name<'a>,
    pub positive: bool,
}

// Literals in memory of their own, so that a term of one literal takes little.
#[derive(Drop)]
struct Further<'a> {
    lits: Box<Seq<NamedLit<'a>>>,
}

impl<'a> Model for Further<'a> {
    ghost use Rattle.std.specs.Prelude.{List};
    ghost use Rattle.pb_named.specs.declared.named.NamedLit.{NamedLit};

    ghost Value = { List NamedLit };

    ghost view = { λ f. f.lits.value };
}

/// A coefficient and one or more literals: the coefficient counts where all of them are true.
pub struct NamedTerm<'a> {
    coef: i128,
    lit: NamedLit<'a>,
    more: Option<Further<'a>>,
}

// Written out: one call in the proof of a function that owns it.
impl Drop for NamedTerm<'_> {
    fn drop(self) {
        let NamedTerm {
            coef: _,
            lit: _,
            more: _,
        } = self;
    }
}

impl<'a> Model for NamedTerm<'a> {
    ghost use Rattle.std.specs.Prelude.{[], unwrap_or};
    ghost use Rattle.pb_named.specs.NamedTerms.{NamedTerm as TermOf};

    ghost Value = { TermOf };

    ghost view = { λ t. record { coef = t.coef; lit = t.lit; more = unwrap_or t.more [] } };
}

impl<'a> NamedTerm<'a> {
    ghost use Rattle.std.specs.Prelude.{[], OnOk};
    ghost use Rattle.pb_named.specs.NamedTerms.{with_literal};

    /// A coefficient and one literal.
    pub fn new(coef: i128, lit: NamedLit<'a>) -> Self
        ensures { result ≡ record { coef = coef; lit = lit.entry; more = [] } }
    {
        NamedTerm {
            coef,
            lit,
            more: None,
        }
    }

    /// The coefficient.
    pub fn coef(&self) -> i128
        ensures { result ≡ self.now.coef }
    {
        self.coef
    }

    /// The first literal.
    pub fn lit(&self) -> &NamedLit<'a>
        ensures { result.now ≡ self.now.lit }
    {
        &self.lit
    }

    /// The literals behind the first one.
    pub fn more(&self) -> &[NamedLit<'a>]
        ensures { result.now ≡ self.now.more }
    {
        match &self.more {
            Some(further) => further.lits.as_slice(),
            None => &[],
        }
    }

    /// One literal more.
    pub fn push(&mut self, alloc: Global, lit: NamedLit<'a>) -> Result<(), AllocError>
        ensures { OnOk result (self.new ≡ with_literal self.old lit.entry) }
    {
        match &mut self.more {
            Some(further) => further.lits.push(lit),
            None => {
                let mut lits = Seq::new(alloc);
                lits.push(lit)?;
                self.more = Some(Further {
                    lits: Box::new(alloc, lits)?,
                });
                Ok(())
            }
        }
    }
}

pub type NamedTerms<'a> = Seq<NamedTerm<'a>>;

/// A statement as it is written.
pub struct NamedStatement<'a> {
    pub terms: NamedTerms<'a>,
    pub relation: Relation,
    pub right: i128,
}

// Written out: one call in the proof of a function that owns it.
impl Drop for NamedStatement<'_> {
    fn drop(self) {
        let NamedStatement {
            terms: _,
            relation: _,
            right: _,
        } = self;
    }
}

/// What a text says, in its own names.
#[derive(Drop)]
pub struct NamedProblem<'a> {
    pub objective: Option<NamedTerms<'a>>,
    pub statements: NamedStatements<'a>,
}
