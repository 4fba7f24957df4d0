//! The lines of a derivation.
//!
//! There is a method for each position in the text, one loop over lines without content, and, in `Session`, one over steps.
ghost use Rattle.std.specs.Prelude.{◌≡◌};
ghost use Rattle.pb_dimacs.specs.CnfRows.{cnf_limits};
ghost use Rattle.pb_check.specs.inner.Phases.{says_nothing};

use crate::fault::{end_fault, miscounted, misplaced, of_line, of_step};
use crate::verdict::CheckFault;
use pb_base::{Expected, MAX_FILE, MAX_LINE, MAX_LINES, NoMemory};
use pb_desk::{Desk, LineLimits, LineReader};
use pb_steps::{Step, read_step};
use std::alloc::Global;

const LIMITS: LineLimits = LineLimits {
    text: MAX_FILE,
    line: MAX_LINE,
    lines: MAX_LINES,
};

/// Reads a derivation from a slot, a step a line.
#[derive(Drop)]
pub struct Derivation {
    pub alloc: Global,
    pub lines: LineReader,
    ghost limits: { lines.limits ≡ cnf_limits },
}

// True if the line is blank or a comment.
fn says_nothing(step: &Step) -> bool
    ensures { result ≡ says_nothing step.now }
{
    match step {
        Step::Blank => true,
        _ => false,
    }
}

impl Derivation {
    ghost use Rattle.std.specs.Prelude.{◌≡◌, ◌≢◌, ◌≤◌, ◌<◌, ◌^◌, Some, IfOk, IfErr, OnOk, IfSome};
    ghost use Rattle.pb_dimacs.specs.CnfReaders.{new_reader};
    ghost use Rattle.pb_check.specs.Turns.Stage.{head_wanted, ended};
    ghost use Rattle.pb_check.specs.inner.Calls.{MissesDue, MissesStep, ReadsStep, StopsCount, StopsStage, TakesCount, TakesHead, TakesRest};
    ghost use Rattle.pb_check.specs.inner.Readers.{IsFaultOf, IsLater, IsSaid, ReadsLines};

    /// Returns a reader of the slot, which is opened before the first line is read.
    pub fn new(alloc: Global, slot: u8) -> Result<Derivation, NoMemory>
        requires { slot < 5 }
        ensures { IfOk result (λ derivation. derivation.lines ≡ (new_reader slot).lines) }
    {
        Ok(Derivation {
            alloc,
            lines: LineReader::new(alloc, slot, LIMITS)?,
        })
    }

    // Reads the next line that is neither blank nor a comment, as a step; `None` at the end of the text.
    fn next_step<D: Desk>(&mut self, desk: &mut D) -> Result<Option<Step>, CheckFault>
        requires ready { ReadsLines self.old.lines (D.state desk.old) }
        ensures ready { OnOk result (ReadsLines self.new.lines (D.state desk.new)) }
        ensures slot { self.new.lines.slot ≡ self.old.lines.slot }
        ensures few { OnOk result (self.new.lines.number ≤ 2 ^ 40) }
        ensures further { IfOk result (λ next. IfSome next (λ _. self.old.lines.number < self.new.lines.number)) }
        ensures said { IfOk result (λ next. IfSome next IsSaid) }
        ensures next { IfOk result (λ next. ReadsStep next self.old.lines self.new.lines (D.state desk.old) (D.state desk.new)) }
        ensures stopped { IfErr result (λ fault. MissesStep fault self.old.lines self.new.lines (D.state desk.old) (D.state desk.new)) }
        ensures faults { IfErr result (IsFaultOf (D.state desk.old)) }
    {
        'rows: loop {
            match self.lines.next_line(desk) {
                Ok(more) => {
                    if !more {
                        return Ok(None);
                    }
                }
                Err(fault) => return Err(of_line(fault)),
            }
            let step = match read_step(self.alloc, self.lines.line()) {
                Ok(step) => step,
                Err(fault) => return Err(of_step(self.lines.number(), fault)),
            };
            if !says_nothing(&step) {
                return Ok(Some(step));
            }
        }
    }

    /// Reads the next line that is neither blank nor a comment, as a step; the end of the text is a fault.
    pub fn due_step<D: Desk>(&mut self, desk: &mut D) -> Result<Step, CheckFault>
        requires ready { ReadsLines self.old.lines (D.state desk.old) }
        ensures ready { OnOk result (ReadsLines self.new.lines (D.state desk.new)) }
        ensures slot { self.new.lines.slot ≡ self.old.lines.slot }
        ensures later { OnOk result (IsLater self.old.lines self.new.lines) }
        ensures said { IfOk result IsSaid }
        ensures next { IfOk result (λ step. ReadsStep (Some step) self.old.lines self.new.lines (D.state desk.old) (D.state desk.new)) }
        ensures stopped { IfErr result (λ fault. MissesDue fault self.old.lines self.new.lines (D.state desk.old) (D.state desk.new)) }
        ensures faults { IfErr result (IsFaultOf (D.state desk.old)) }
    {
        match self.next_step(desk) {
            Ok(Some(step)) => Ok(step),
            Ok(None) => Err(end_fault(&self.lines)),
            Err(fault) => Err(fault),
        }
    }

    /// Reads the head line, and refuses any other.
    pub fn take_head<D: Desk>(&mut self, desk: &mut D) -> Result<(), CheckFault>
        requires ready { ReadsLines self.old.lines (D.state desk.old) }
        ensures ready { OnOk result (ReadsLines self.new.lines (D.state desk.new)) }
        ensures slot { self.new.lines.slot ≡ self.old.lines.slot }
        ensures leads { OnOk result (TakesHead self.old.lines self.new.lines (D.state desk.old) (D.state desk.new)) }
        ensures stopped { IfErr result (λ fault. StopsStage head_wanted fault self.old.lines self.new.lines (D.state desk.old) (D.state desk.new)) }
        ensures faults { IfErr result (IsFaultOf (D.state desk.old)) }
    {
        let step = match self.due_step(desk) {
            Ok(step) => step,
            Err(fault) => return Err(fault),
        };
        match &step {
            Step::Head => Ok(()),
            _ => Err(misplaced(&self.lines, Expected::Head)),
        }
    }

    /// Reads the line that states the number of loaded constraints, and refuses another number.
    pub fn take_count<D: Desk>(&mut self, desk: &mut D, loaded: u64) -> Result<(), CheckFault>
        requires ready { ReadsLines self.old.lines (D.state desk.old) }
        ensures ready { OnOk result (ReadsLines self.new.lines (D.state desk.new)) }
        ensures slot { self.new.lines.slot ≡ self.old.lines.slot }
        ensures leads { OnOk result (TakesCount loaded self.old.lines self.new.lines (D.state desk.old) (D.state desk.new)) }
        ensures stopped { IfErr result (λ fault. StopsCount loaded fault self.old.lines self.new.lines (D.state desk.old) (D.state desk.new)) }
        ensures faults { IfErr result (IsFaultOf (D.state desk.old)) }
    {
        let step = match self.due_step(desk) {
            Ok(step) => step,
            Err(fault) => return Err(fault),
        };
        match &step {
            Step::Loaded { count } => {
                if *count == loaded {
                    Ok(())
                } else {
                    Err(miscounted(&self.lines))
                }
            }
            _ => Err(misplaced(&self.lines, Expected::Loaded)),
        }
    }

    /// Reads on to the end of the text, where only blank lines and comments may come.
    pub fn take_rest<D: Desk>(&mut self, desk: &mut D) -> Result<(), CheckFault>
        requires ready { ReadsLines self.old.lines (D.state desk.old) }
        ensures slot { self.new.lines.slot ≡ self.old.lines.slot }
        ensures ends { OnOk result (TakesRest self.old.lines self.new.lines (D.state desk.old) (D.state desk.new)) }
        ensures stopped { IfErr result (λ fault. StopsStage ended fault self.old.lines self.new.lines (D.state desk.old) (D.state desk.new)) }
        ensures faults { IfErr result (IsFaultOf (D.state desk.old)) }
    {
        match self.next_step(desk) {
            Ok(None) => Ok(()),
            Ok(Some(_)) => Err(misplaced(&self.lines, Expected::DerivationEnd)),
            Err(fault) => Err(fault),
        }
    }
}
