//! An engine for listed constraints, which is made when it is first needed: its tables take 18 bytes a variable.
//!
//! Reverse unit propagation from listed ids alone adds their constraints to it, and removes them again, the newest first, so that
//! nothing of them remains in its index. The engine of all constraints is left alone.
ghost use Rattle.std.specs.Prelude.{◌≡◌, ◌∷◌, [], IfOk};
ghost use Rattle.pb_norm.specs.Constraints.{HasVarsWithin};
ghost use Rattle.pb_unit.specs.States.{started};
ghost use Rattle.pb_database.specs.inner.Slots.{listed_slots};
ghost use Rattle.pb_database.specs.inner.Mirrors.{AreWithin, IsIdle};
ghost use Rattle.pb_database.specs.Refutations.{TellsConflict};

use crate::listed::is_refuted_by;
use crate::slots::Slot;
use pb_base::NoMemory;
use pb_norm::Linear;
use pb_unit::Engine;
use std::alloc::Global;
use std::marker::Model;

/// An engine over so many variables that is empty between calls, made when it is first needed.
#[derive(Drop)]
pub(crate) struct Idle {
    vars: u32,
    engine: Option<Engine>,
}

impl Model for Idle {
    ghost use Rattle.std.specs.Prelude.{ℕ, IfSome};
    ghost use Rattle.pb_database.specs.inner.Mirrors.{IsIdle};

    ghost Value = { ℕ };

    ghost view = { λ i. i.vars };

    ghost invariant = { λ i. IfSome i.engine (IsIdle i.vars) };
}

/// Makes an engine without constraints.
pub(crate) fn idle_engine(alloc: Global, vars: u32) -> Result<Engine, NoMemory>
    ensures { IfOk result (λ engine. engine ≡ started vars []) }
{
    Engine::new(alloc, vars, Vec::new(alloc))
}

impl Idle {
    /// Starts without an engine.
    pub(crate) fn new(vars: u32) -> Idle
        ensures { result ≡ vars }
    {
        Idle { vars, engine: None }
    }

    // Returns the engine, or a new one if there is none.
    fn take(&mut self, alloc: Global) -> Result<Engine, NoMemory>
        ensures same { self.new ≡ self.old }
        ensures idle { IfOk result (IsIdle self.old) }
    {
        match self.engine.take() {
            Some(engine) => Ok(engine),
            None => idle_engine(alloc, self.vars),
        }
    }

    /// True if propagation over a constraint and those with the ids reaches a conflict. The engine is empty again afterwards.
    pub(crate) fn refutes(
        &mut self,
        alloc: Global,
        slots: &[Slot],
        more: &Linear,
        ids: &[u64],
    ) -> Result<bool, NoMemory>
        requires more { HasVarsWithin self.old more.now.terms }
        requires within { AreWithin self.old slots.now }
        ensures same { self.new ≡ self.old }
        ensures answer { IfOk result (TellsConflict (more.now ∷ listed_slots slots.now ids.now)) }
    {
        let mut engine = self.take(alloc)?;
        let found = is_refuted_by(alloc, &mut engine, slots, more, ids);
        self.engine = Some(engine);
        found
    }
}
