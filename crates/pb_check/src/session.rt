//! A derivation and its CNF, side by side.
//!
//! The database is that of the loaded constraints over the variables of the CNF's p line, and no line before the steps can change it.
//! So it is made before the first line, and no state says what is to come.
ghost use Rattle.std.specs.Prelude.{◌≢◌};

use crate::derivation::Derivation;
use crate::kept::CollectedClauses;
use crate::taking::{Outputs, Taken};
use crate::verdict::{CheckFault, Verdict};
use pb_base::{Clauses, NoMemory};
use pb_database::Database;
use pb_desk::Desk;
use pb_dimacs::ClauseReader;
use std::alloc::Global;

/// The lines of a derivation, and the clauses that it has to put out, each read from a slot of its own.
#[derive(Drop)]
pub struct Session {
    pub outputs: Outputs,
    pub derivation: Derivation,
    ghost apart: { outputs.cnf.lines.slot ≢ derivation.lines.slot },
}

impl Session {
    ghost use Rattle.std.specs.Prelude.{◌≡◌, ◌≢◌, ◌<◌, IfOk, IfErr, OnOk};
    ghost use Rattle.pb_check.specs.inner.Readers.{IsFaultOf, IsLater};
    ghost use Rattle.pb_check.specs.inner.Sessions.{GivesLine, GivesSteps, GivesVerdict, IsNew, IsReady, KeepsAll, KeepsOne, KeepsSome, StopsAmong, StopsChecking};

    /// Returns a session over two slots, with a CNF and a derivation. Both are opened before anything is read.
    pub fn new(
        alloc: Global,
        cnf: u8,
        proof: u8,
        kept: CollectedClauses,
    ) -> Result<Session, NoMemory>
        requires cnf_kind { cnf < 5 }
        requires proof_kind { proof < 5 }
        requires apart { cnf ≢ proof }
        ensures { IfOk result (IsNew cnf proof kept) }
    {
        Ok(Session {
            outputs: Outputs {
                cnf: ClauseReader::new(alloc, cnf)?,
                kept,
            },
            derivation: Derivation::new(alloc, proof)?,
        })
    }

    /// Returns the clauses that were collected.
    pub fn into_clauses(self) -> Clauses
        ensures { result ≡ self.outputs.kept.clauses }
    {
        self.outputs.kept.clauses
    }

    // Reads the next line that is neither blank nor a comment, as a line among the steps, and applies it.
    fn take_line<D: Desk>(&mut self, desk: &mut D, db: &mut Database) -> Result<Taken, CheckFault>
        requires ready { IsReady self.old (D.state desk.old) }
        ensures ready { OnOk result (IsReady self.new (D.state desk.new)) }
        ensures vars { self.new.outputs.cnf.vars ≡ self.old.outputs.cnf.vars }
        ensures later { OnOk result (IsLater self.old.derivation.lines self.new.derivation.lines) }
        ensures gives { IfOk result (λ got. GivesLine got db.old self.old db.new self.new (D.state desk.old) (D.state desk.new)) }
        ensures keeps { IfOk result (λ got. KeepsOne got self.old self.new (D.state desk.old) (D.state desk.new)) }
        ensures stopped { IfErr result (λ fault. StopsAmong fault db.old self.old self.new (D.state desk.old) (D.state desk.new)) }
        ensures faults { IfErr result (IsFaultOf (D.state desk.old)) }
    {
        let step = match self.derivation.due_step(desk) {
            Ok(step) => step,
            Err(fault) => return Err(fault),
        };
        self.outputs
            .take_step(desk, db, &self.derivation.lines, &step)
    }

    // Applies steps up to the line that ends them, or to the first that is not allowed, which gives a verdict.
    fn run_steps<D: Desk>(
        &mut self,
        desk: &mut D,
        db: &mut Database,
    ) -> Result<Option<Verdict>, CheckFault>
        requires ready { IsReady self.old (D.state desk.old) }
        ensures ready { OnOk result (IsReady self.new (D.state desk.new)) }
        ensures steps { IfOk result (λ verdict. GivesSteps verdict db.old self.old self.new (D.state desk.old) (D.state desk.new)) }
        ensures keeps { IfOk result (λ verdict. KeepsSome verdict self.old self.new (D.state desk.old) (D.state desk.new)) }
        ensures stopped { IfErr result (λ fault. StopsAmong fault db.old self.old self.new (D.state desk.old) (D.state desk.new)) }
        ensures faults { IfErr result (IsFaultOf (D.state desk.old)) }
    {
        'steps: loop {
            match self.take_line(desk, db) {
                Ok(Taken::On) => {}
                Ok(Taken::Last) => return Ok(None),
                Ok(Taken::Denied(denied)) => {
                    return Ok(Some(Verdict::Rejected {
                        line: self.derivation.lines.number(),
                        denied,
                    }));
                }
                Err(fault) => return Err(fault),
            }
        }
    }

    /// Checks line after line, over the database of so many loaded constraints.
    pub fn check_lines<D: Desk>(
        &mut self,
        desk: &mut D,
        db: &mut Database,
        loaded: u64,
    ) -> Result<Verdict, CheckFault>
        requires ready { IsReady self.old (D.state desk.old) }
        ensures verdict { IfOk result (λ v. GivesVerdict v loaded db.old self.old self.new (D.state desk.old) (D.state desk.new)) }
        ensures keeps { IfOk result (λ v. KeepsAll v self.old self.new (D.state desk.old) (D.state desk.new)) }
        ensures stopped { IfErr result (λ fault. StopsChecking fault loaded db.old self.old self.new (D.state desk.old) (D.state desk.new)) }
        ensures faults { IfErr result (IsFaultOf (D.state desk.old)) }
    {
        match self.derivation.take_head(desk) {
            Ok(()) => {}
            Err(fault) => return Err(fault),
        }
        match self.derivation.take_count(desk, loaded) {
            Ok(()) => {}
            Err(fault) => return Err(fault),
        }
        let stopped = match self.run_steps(desk, db) {
            Ok(stopped) => stopped,
            Err(fault) => return Err(fault),
        };
        if let Some(verdict) = stopped {
            return Ok(verdict);
        }
        match self.derivation.take_rest(desk) {
            Ok(()) => Ok(Verdict::Accepted),
            Err(fault) => Err(fault),
        }
    }
}
