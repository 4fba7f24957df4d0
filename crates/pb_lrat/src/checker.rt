//! A checker of LRAT refutations.
ghost use Rattle.std.specs.Prelude.{◌≡◌, ◌<◌, ◌+◌, ◌^◌, length, Ok, IfOk, IfErr, OnOk, OnErr};
ghost use Rattle.std.specs.List.{list_any};
ghost use Rattle.pb_lrat.specs.LratStates.{numbered, started, denied, after_said, after_line, IsDueFault};
ghost use Rattle.pb_lrat.specs.Hints.{is_nothing};

use crate::denied::LratDenied;
use crate::fault::LratFault;
use crate::judge;
use crate::read::read_line;
use crate::said::Said;
use crate::store::Store;
use crate::trail::Trail;
use pb_base::{Clause, Clauses, Lit, NoMemory};
use std::alloc::Global;
use std::marker::Model;

/// A checker of an LRAT refutation, line by line.
pub struct LratChecker {
    alloc: Global,
    vars: u32,
    store: Store,
    trail: Trail,
    refuted: bool,
}

// Written out: one call in the proof of a function that owns it.
impl Drop for LratChecker {
    fn drop(self) {
        let LratChecker {
            alloc: _,
            vars: _,
            store: _,
            trail: _,
            refuted: _,
        } = self;
    }
}

impl Model for LratChecker {
    ghost use Rattle.std.specs.Prelude.{◌≡◌, ◌<◌, ◌^◌, []};
    ghost use Rattle.pb_lrat.specs.LratStates.{LratState};

    ghost Value = { LratState };

    ghost view = { λ c. record { vars = c.vars; last = c.store.last; live = c.store.live; refuted = c.refuted } };

    ghost invariant = { λ c. (c.vars < 2 ^ 31) × (c.trail ≡ []) };
}

// True if the clause has no literal.
fn is_nothing(clause: &[Lit]) -> bool
    ensures { result ≡ is_nothing clause.now }
{
    clause.is_empty()
}

// Stores the clauses of a CNF under their ids, from 1 on, and returns whether one of them has no literal. Each clause is given up once it
// is stored.
fn store_with_ids(alloc: Global, clauses: Clauses) -> Result<(Store, bool), NoMemory>
    ensures store { IfOk result (λ p. p.0 ≡ record { last = length clauses; live = numbered 1 clauses }) }
    ensures empty { IfOk result (λ p. p.1 ≡ list_any is_nothing clauses) }
{
    let mut store = Store::new(alloc);
    let mut refuted = false;
    for clause in clauses.into_vec() {
        let id = store.last() + 1;
        store.push(id, clause.as_slice())?;
        refuted = refuted || is_nothing(clause.as_slice());
    }
    Ok((store, refuted))
}

impl LratChecker {
    /// Makes a checker over the clauses of a CNF, whose ids are 1 and on, in order. Literals of lines have to be of the first `vars`
    /// variables.
    pub fn new(alloc: Global, vars: u32, clauses: Clauses) -> Result<LratChecker, NoMemory>
        requires { vars < 2 ^ 31 }
        // The checker has the clauses under the ids from 1 on, and knows whether one is empty.
        ensures { IfOk result (λ checker. checker ≡ started vars clauses) }
    {
        let (store, refuted) = store_with_ids(alloc, clauses)?;
        Ok(LratChecker {
            alloc,
            vars,
            store,
            trail: Trail::new(alloc),
            refuted,
        })
    }

    // Returns why a clause may not be added, if so.
    fn denial_of(
        &mut self,
        id: u64,
        clause: &[Lit],
        hints: &[u64],
    ) -> Result<Option<LratDenied>, NoMemory>
        ensures denied { IfOk result (λ why. why ≡ denied self.old id clause.now hints.now) }
        ensures same { self.new ≡ self.old }
    {
        if id <= self.store.last() {
            return Ok(Some(LratDenied::OldId { id }));
        }
        let answer = judge::denial_of(clause, hints, &self.store, &mut self.trail);
        self.trail.clear();
        answer
    }

    // Adds a clause, unless it is denied.
    fn add(&mut self, id: u64, clause: &[Lit], hints: &[u64]) -> Result<(), LratFault>
        ensures ok { OnOk result (after_said self.old (Said.Adds id clause.now hints.now) ≡ Ok self.new) }
        ensures fault { IfErr result (IsDueFault (after_said self.old (Said.Adds id clause.now hints.now))) }
        ensures same { OnErr result (self.new ≡ self.old) }
    {
        if let Some(why) = self.denial_of(id, clause, hints)? {
            return Err(LratFault::Denied(why));
        }
        self.store.push(id, clause)?;
        self.refuted = self.refuted || is_nothing(clause);
        Ok(())
    }

    /// Reads the next line, without its LF, and adds or deletes clauses; or answers its first fault, or why its clause may not be added.
    /// After a fault nothing has changed.
    pub fn line(&mut self, bytes: &[u8]) -> Result<(), LratFault>
        // After `Ok` the state is the one that the line makes.
        ensures ok { OnOk result (after_line self.old bytes.now ≡ Ok self.new) }
        // A fault is `NoMemory` or the specified one: the first word that may not be there, with its column, a limit, or why the clause
        // may not be added.
        ensures fault { IfErr result (IsDueFault (after_line self.old bytes.now)) }
        // A fault changes nothing.
        ensures same { OnErr result (self.new ≡ self.old) }
    {
        match read_line(self.alloc, self.vars, bytes)? {
            Said::Nothing => Ok(()),
            Said::Adds { id, clause, hints } => self.add(id, clause.as_slice(), hints.as_slice()),
            Said::Deletes(ids) => {
                self.store.remove_all(ids.as_slice());
                Ok(())
            }
        }
    }

    /// True if the CNF had an empty clause or a line added one.
    pub fn finish(&self) -> bool
        // The answer is true iff the CNF had an empty clause or a line added one.
        ensures { result ≡ self.now.refuted }
    {
        self.refuted
    }
}
