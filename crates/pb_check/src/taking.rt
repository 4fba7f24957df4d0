//! A line among the steps.
ghost use Rattle.std.specs.Prelude.{IfOk};
ghost use Rattle.std.specs.Option.{option_copied};
ghost use Rattle.pb_steps.specs.Steps.{IsRule, IsSpelled};
ghost use Rattle.pb_check.specs.inner.Judging.{IsJudged};

use crate::fault::{misplaced, of_cnf};
use crate::kept::CollectedClauses;
use crate::verdict::CheckFault;
use pb_base::{Clause, Expected, NoMemory};
use pb_database::Database;
use pb_desk::{Desk, LineReader};
use pb_dimacs::ClauseReader;
use pb_rules::{RuleFault, apply};
use pb_steps::{Denied, Step};

/// The effect of a line among the steps.
#[derive(Clone, Copy)]
pub enum Taken {
    /// The steps go on.
    On,
    /// The steps end.
    Last,
    /// The step is not allowed.
    Denied(Denied),
}

// Applies a step of a rule, if it is allowed.
fn judge(db: &mut Database, step: &Step, next: Option<&Clause>) -> Result<Taken, NoMemory>
    requires rule { IsRule step.now }
    requires spelled { IsSpelled step.now }
    ensures { IfOk result (IsJudged db.old step.now (option_copied next.entry) db.new) }
{
    match apply(db, step, next) {
        Ok(_) => Ok(Taken::On),
        Err(fault) => match fault {
            RuleFault::Denied(denied) => Ok(Taken::Denied(denied)),
            RuleFault::NoMemory => Err(NoMemory),
        },
    }
}

/// The CNF whose clauses a derivation has to put out, read clause by clause, and those that are collected of it.
#[derive(Drop)]
pub struct Outputs {
    pub cnf: ClauseReader,
    pub kept: CollectedClauses,
}

impl Outputs {
    ghost use Rattle.std.specs.Prelude.{◌≤◌, IfOk, IfErr, OnOk};
    ghost use Rattle.pb_steps.specs.Steps.{IsSpelled};
    ghost use Rattle.pb_check.specs.inner.Calls.{EndsSteps, PutsOut, StopsEnd, StopsOut, StopsStep, TakesStep};
    ghost use Rattle.pb_check.specs.inner.Keeping.{KeepsNext};
    ghost use Rattle.pb_check.specs.inner.Readers.{IsFaultOf, IsSameCnf, ReadsClauses};

    // Puts a constraint out as the next clause, which is kept if that is wanted.
    fn put_out<D: Desk>(
        &mut self,
        desk: &mut D,
        db: &mut Database,
        id: u64,
    ) -> Result<Taken, CheckFault>
        requires ready { ReadsClauses self.old.cnf (D.state desk.old) }
        requires spelled { 1 ≤ id }
        ensures ready { OnOk result (ReadsClauses self.new.cnf (D.state desk.new)) }
        ensures same { IsSameCnf self.old.cnf self.new.cnf }
        ensures gives { IfOk result (λ got. PutsOut got id self.old.cnf db.old self.new.cnf db.new (D.state desk.old) (D.state desk.new)) }
        ensures keeps { IfOk result (λ got. KeepsNext got self.old.kept self.old.cnf self.new.kept self.new.cnf (D.state desk.old) (D.state desk.new)) }
        ensures stopped { IfErr result (λ fault. StopsOut fault id self.old.cnf db.old self.new.cnf (D.state desk.old) (D.state desk.new)) }
        ensures faults { IfErr result (IsFaultOf (D.state desk.old)) }
    {
        let next = match self.cnf.next_clause(desk) {
            Ok(next) => next,
            Err(fault) => return Err(of_cnf(fault)),
        };
        let taken = match judge(db, &Step::Out { id }, next.as_ref()) {
            Ok(taken) => taken,
            Err(_) => return Err(CheckFault::NoMemory),
        };
        match self.kept.keep(next) {
            Ok(()) => Ok(taken),
            Err(_) => Err(CheckFault::NoMemory),
        }
    }

    // Ends the steps, if the CNF has no clause left.
    fn end_steps<D: Desk>(&mut self, desk: &mut D) -> Result<Taken, CheckFault>
        requires ready { ReadsClauses self.old.cnf (D.state desk.old) }
        ensures ready { OnOk result (ReadsClauses self.new.cnf (D.state desk.new)) }
        ensures same { IsSameCnf self.old.cnf self.new.cnf }
        ensures gives { IfOk result (λ got. EndsSteps got self.old.cnf self.new.cnf (D.state desk.old) (D.state desk.new)) }
        ensures keeps { IfOk result (λ got. KeepsNext got self.old.kept self.old.cnf self.new.kept self.new.cnf (D.state desk.old) (D.state desk.new)) }
        ensures stopped { IfErr result (λ fault. StopsEnd fault self.old.cnf self.new.cnf (D.state desk.old) (D.state desk.new)) }
        ensures faults { IfErr result (IsFaultOf (D.state desk.old)) }
    {
        match self.cnf.next_clause(desk) {
            Ok(None) => Ok(Taken::Last),
            Ok(Some(_)) => Ok(Taken::Denied(Denied::ClausesLeft)),
            Err(fault) => Err(of_cnf(fault)),
        }
    }

    /// Applies what the last line of the derivation says, as a line among the steps.
    pub fn take_step<D: Desk>(
        &mut self,
        desk: &mut D,
        db: &mut Database,
        lines: &LineReader,
        step: &Step,
    ) -> Result<Taken, CheckFault>
        requires ready { ReadsClauses self.old.cnf (D.state desk.old) }
        requires spelled { IsSpelled step.now }
        ensures ready { OnOk result (ReadsClauses self.new.cnf (D.state desk.new)) }
        ensures same { IsSameCnf self.old.cnf self.new.cnf }
        ensures gives { IfOk result (λ got. TakesStep got step.now lines.now self.old.cnf db.old self.new.cnf db.new (D.state desk.old) (D.state desk.new)) }
        ensures keeps { IfOk result (λ got. KeepsNext got self.old.kept self.old.cnf self.new.kept self.new.cnf (D.state desk.old) (D.state desk.new)) }
        ensures stopped { IfErr result (λ fault. StopsStep fault step.now lines.now self.old.cnf db.old self.new.cnf (D.state desk.old) (D.state desk.new)) }
        ensures faults { IfErr result (IsFaultOf (D.state desk.old)) }
    {
        match step {
            Step::Blank => Ok(Taken::On),
            Step::Head => Err(misplaced(lines, Expected::StepWord)),
            Step::Loaded { .. } => Err(misplaced(lines, Expected::StepWord)),
            Step::Out { id } => self.put_out(desk, db, *id),
            Step::End => self.end_steps(desk),
            _ => match judge(db, step, None) {
                Ok(taken) => Ok(taken),
                Err(_) => Err(CheckFault::NoMemory),
            },
        }
    }
}
