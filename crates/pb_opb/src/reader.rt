//! What was read of a text so far.
ghost use Rattle.std.specs.Prelude.{◌≡◌, ◌<◌, ◌≤◌, ◌^◌, [], None, OnOk, IfOk, IfErr, length, ℤ, unsigned_abs};
ghost use Rattle.pb_base.specs.inner.Scans.{BeginsToken};
ghost use Rattle.pb_named.specs.declared.named.NamedLit.{NamedLit};
ghost use Rattle.pb_opb.specs.Grammar.{Kind, kind_of};
ghost use Rattle.pb_opb.specs.Grammar.Kind.{integer, literal, semicolon, end};
ghost use Rattle.pb_opb.specs.Limits.{IsNear, IsModest};
ghost use Rattle.pb_opb.specs.reader.Front.{Ends, IsRead, read_kinds};
ghost use Rattle.pb_opb.specs.reader.Heads.{IsInReach, behind, short_kind, token_at};
ghost use Rattle.pb_opb.specs.reader.Steps.{MayLead};
ghost use Rattle.pb_opb.specs.reader.Takes.{Refuses, Took, Finishes, PassesAt, PassesBy};
ghost use Rattle.pb_opb.specs.reader.Moves.{IsStopped, IsFull, IsLonger, HasFurther, first_passed, moved, with_term, with_statement, with_objective};

use crate::fault::Refusal;
use crate::head::{Short, first_token, head_of};
use crate::stage::{Ending, Part, Spot, Stage, WEIGHT};
use crate::symbol::{Symbol, symbol_of};
use pb_base::{LimitKind, MAX_TERMS, NoMemory, Relation};
use pb_named::{Name, NamedLit, NamedProblem, NamedStatements, NamedTerm, NamedTerms};
use std::alloc::{AllocError, Global};
use std::mem;

// Adds a literal to the last term.
fn with_further<'a>(
    alloc: Global,
    terms: NamedTerms<'a>,
    lit: NamedLit<'a>,
) -> Result<NamedTerms<'a>, AllocError>
    requires { Ends terms }
    ensures { IfOk result (IsLonger terms.entry lit.entry) }
{
    let mut items = terms.into_vec();
    let Some(mut last) = items.pop() else {
        return Ok(NamedTerms::from_vec(items));
    };
    last.push(alloc, lit)?;
    items.push(last)?;
    Ok(NamedTerms::from_vec(items))
}

/// The part of a problem that was read so far, and the open sum.
#[derive(Drop)]
pub struct Reader<'a> {
    pub objective: Option<NamedTerms<'a>>,
    pub statements: NamedStatements<'a>,
    pub stage: Stage,
    /// The terms of the open sum.
    pub terms: NamedTerms<'a>,
    /// How many literals they have.
    pub literals: usize,
    /// The absolute values of the open sum's numbers.
    pub weight: u128,
}

impl<'a> Reader<'a> {
    /// Starts before the first token.
    pub fn new(alloc: Global) -> Self
        ensures read { IsRead result }
        ensures kinds { read_kinds result ≡ [] }
    {
        Reader {
            objective: None,
            statements: NamedStatements::new(alloc),
            stage: Stage::Start,
            terms: NamedTerms::new(alloc),
            literals: 0,
            weight: 0,
        }
    }

    /// Reads the token at the front of a text, and returns the text after it, or why it is refused.
    pub fn take(&mut self, alloc: Global, text: &'a [u8]) -> Result<&'a [u8], Refusal>
        requires read { IsRead self.old }
        requires some { 1 ≤ length text.now }
        requires front { BeginsToken text.now }
        ensures ok { OnOk result (Took self.old self.new (kind_of (token_at text.now))) }
        ensures rest { IfOk result (λ rest. rest.now ≡ behind text.now) }
        ensures err { IfErr result (Refuses (read_kinds self.old) (kind_of (token_at text.now))) }
    {
        match head_of(text) {
            Some(head) => {
                self.take_short(alloc, head.short)?;
                Ok(head.rest)
            }
            None => {
                let word = first_token(text);
                self.take_word(alloc, word)?;
                let (_, rest) = text.split_at(word.len());
                Ok(rest)
            }
        }
    }

    // Reads a token in the usual form.
    fn take_short(&mut self, alloc: Global, short: Short) -> Result<(), Refusal>
        requires read { IsRead self.old }
        requires reach { IsInReach short }
        ensures ok { OnOk result (Took self.old self.new (short_kind short)) }
        ensures err { IfErr result (Refuses (read_kinds self.old) (short_kind short)) }
    {
        match short {
            Short::Integer(n) => self.go(self.stage.integer(n as i128)),
            Short::Opposite(n) => self.go(self.stage.integer(-(n as i128))),
            Short::Literal(index, positive) => {
                let name = Name::of_index(index);
                self.take_literal(alloc, NamedLit { name, positive })
            }
            Short::Relation(sign) => self.go(self.stage.relation(sign)),
            Short::Semicolon => self.take_semicolon(alloc),
        }
    }

    // Reads a token in any form.
    fn take_word(&mut self, alloc: Global, word: &'a [u8]) -> Result<(), Refusal>
        requires { IsRead self.old }
        ensures ok { OnOk result (Took self.old self.new (kind_of word.now)) }
        ensures err { IfErr result (Refuses (read_kinds self.old) (kind_of word.now)) }
    {
        match symbol_of(word) {
            Symbol::Minimise => self.go(self.stage.minimise()),
            Symbol::Integer(n) => self.go(self.stage.integer(n)),
            Symbol::Wide => self.take_wide(),
            Symbol::Literal(lit) => self.take_literal(alloc, lit),
            Symbol::Far => self.refuse_literal(LimitKind::Variables),
            Symbol::Long => self.refuse_literal(LimitKind::Name),
            Symbol::Relation(sign) => self.go(self.stage.relation(sign)),
            Symbol::Semicolon => self.take_semicolon(alloc),
            Symbol::Other => Err(Refusal::Unexpected(self.stage.expected())),
        }
    }

    // Moves to the stage that a token leads to; `None` refuses the token.
    fn go(&mut self, next: Option<Stage>) -> Result<(), Refusal>
        requires { IsRead self.old }
        ensures ok { (k : Kind) → MayLead self.old.stage k next → OnOk result (Took self.old self.new k) }
        ensures err { (k : Kind) → MayLead self.old.stage k next → IfErr result (Refuses (read_kinds self.old) k) }
    {
        match next {
            Some(next) => self.go_on(next, self.weight + next.stage_weight()),
            None => Err(Refusal::Unexpected(self.stage.expected())),
        }
    }

    // Reads an integer of absolute value 2^126 or more, which passes the limit of weights wherever an integer may come.
    fn take_wide(&mut self) -> Result<(), Refusal>
        requires { IsRead self.old }
        ensures ok { (n : ℤ) → 2 ^ 126 ≤ unsigned_abs n → OnOk result (Took self.old self.new (integer n)) }
        ensures err { (n : ℤ) → 2 ^ 126 ≤ unsigned_abs n → IfErr result (Refuses (read_kinds self.old) (integer n)) }
    {
        match self.stage.wide() {
            Some(next) => self.go_on(next, WEIGHT),
            None => Err(Refusal::Unexpected(self.stage.expected())),
        }
    }

    // Reads a literal within the limits of indices and names.
    fn take_literal(&mut self, alloc: Global, lit: NamedLit<'a>) -> Result<(), Refusal>
        requires read { IsRead self.old }
        requires near { IsNear lit }
        requires modest { IsModest lit }
        ensures ok { OnOk result (Took self.old self.new (literal lit.entry)) }
        ensures err { IfErr result (Refuses (read_kinds self.old) (literal lit.entry)) }
    {
        match self.stage.spot() {
            Spot::First(part, coef) => {
                self.add_term(part, NamedTerm::new(coef, lit))?;
                Ok(())
            }
            Spot::Further(part) => self.add_further(alloc, part, lit),
            Spot::Elsewhere => Err(Refusal::Unexpected(self.stage.expected())),
        }
    }

    // Refuses a literal that passes this limit, or that may not come here.
    fn refuse_literal(&mut self, which: LimitKind) -> Result<(), Refusal>
        requires { IsRead self.old }
        ensures ok { OnOk result ⊥ }
        ensures err { (l : NamedLit) → PassesBy which l → IfErr result (Refuses (read_kinds self.old) (literal l)) }
    {
        match self.stage.spot() {
            Spot::Elsewhere => Err(Refusal::Unexpected(self.stage.expected())),
            _ => Err(Refusal::Limit(self.first_passed(which))),
        }
    }

    // Ends the open statement or objective; refused anywhere else.
    fn take_semicolon(&mut self, alloc: Global) -> Result<(), Refusal>
        requires { IsRead self.old }
        ensures ok { OnOk result (Took self.old self.new semicolon) }
        ensures err { IfErr result (Refuses (read_kinds self.old) semicolon) }
    {
        match self.stage.ending() {
            Ending::Objective => {
                self.end_objective(alloc);
                Ok(())
            }
            Ending::Statement(relation, right) => {
                self.end_statement(alloc, relation, right)?;
                Ok(())
            }
            Ending::Nothing => Err(Refusal::Unexpected(self.stage.expected())),
        }
    }

    // Moves to a stage with a new weight, if that passes no limit.
    fn go_on(&mut self, next: Stage, weight: u128) -> Result<(), Refusal>
        requires statements { length self.old.statements ≤ 2 ^ 24 }
        requires literals { self.old.literals ≤ 2 ^ 20 }
        ensures ok { OnOk result (PassesAt None self.old next weight) }
        ensures moved { OnOk result (self.new ≡ moved self.old next weight) }
        ensures err { IfErr result (IsStopped self.old next weight) }
    {
        match next.passed_limit(self.statements.len(), self.literals, weight) {
            Some(which) => Err(Refusal::Limit(which)),
            None => {
                self.weight = weight;
                self.stage = next;
                Ok(())
            }
        }
    }

    // Adds a term of one literal to the open sum.
    fn add_term(&mut self, part: Part, term: NamedTerm<'a>) -> Result<(), AllocError>
        requires { self.old.literals < 2 ^ 20 }
        ensures { OnOk result (self.new ≡ with_term self.old part term.entry) }
    {
        self.terms.push(term)?;
        self.literals += 1;
        self.stage = Stage::Literals(part);
        Ok(())
    }

    // Adds a literal to the last term, if that passes no limit.
    fn add_further(&mut self, alloc: Global, part: Part, lit: NamedLit<'a>) -> Result<(), Refusal>
        requires { Ends self.old.terms }
        ensures ok { OnOk result (HasFurther self.old self.new part lit.entry) }
        ensures err { IfErr result (IsFull self.old) }
    {
        if self.literals >= MAX_TERMS {
            return Err(Refusal::Limit(LimitKind::Terms));
        }
        let terms = mem::replace(&mut self.terms, NamedTerms::new(alloc));
        let longer = with_further(alloc, terms, lit)?;
        mem::replace(&mut self.terms, longer);
        self.literals += 1;
        self.stage = Stage::Literals(part);
        Ok(())
    }

    // Returns the limit to report for a literal that passes this one: that of the number of literals comes first.
    fn first_passed(&self, which: LimitKind) -> LimitKind
        ensures { result ≡ first_passed self.now.literals which }
    {
        if self.literals < MAX_TERMS {
            which
        } else {
            LimitKind::Terms
        }
    }

    // Adds the open sum to the statements.
    fn end_statement(
        &mut self,
        alloc: Global,
        relation: Relation,
        right: i128,
    ) -> Result<(), NoMemory>
        ensures { OnOk result (self.new ≡ with_statement self.old relation right) }
    {
        // The room in which they were read is kept for the next sum.
        let mut read = mem::replace(&mut self.terms, NamedTerms::new(alloc)).into_vec();
        self.statements.push(alloc, &mut read, relation, right)?;
        mem::replace(&mut self.terms, NamedTerms::from_vec(read));
        self.literals = 0;
        self.weight = 0;
        self.stage = Stage::Next;
        Ok(())
    }

    // Makes the open sum the objective.
    fn end_objective(&mut self, alloc: Global)
        ensures { self.new ≡ with_objective self.old }
    {
        self.objective = Some(mem::replace(&mut self.terms, NamedTerms::new(alloc)));
        self.literals = 0;
        self.weight = 0;
        self.stage = Stage::Next;
    }

    /// Ends the text, and returns what was read; refused within a statement or an objective.
    pub fn finish(self) -> Result<NamedProblem<'a>, Refusal>
        requires { IsRead self }
        ensures ok { IfOk result (Finishes (read_kinds self.entry)) }
        ensures err { IfErr result (Refuses (read_kinds self.entry) end) }
    {
        match self.stage {
            Stage::Start | Stage::Next => Ok(NamedProblem {
                objective: self.objective,
                statements: self.statements,
            }),
            stage => Err(Refusal::Unexpected(stage.expected())),
        }
    }
}
