//! The constraints that are live.
ghost use Rattle.std.specs.Prelude.{◌≡◌, ◌≤◌, ◌<◌, ◌∷◌, ◌++◌, [], IfOk, IfSome, OnOk, OnErr, All, filter_map, length, take};
ghost use Rattle.std.specs.Option.{option_copied, option_to_list};
ghost use Rattle.pb_norm.specs.Constraints.{HasVarsWithin, AreVarsWithin};
ghost use Rattle.pb_steps.specs.Operations.{IsNarrow};
ghost use Rattle.pb_steps.specs.Database.{live_constraints, constraint_at, is_live, is_out, grown, reduced, marked, loaded_database};
ghost use Rattle.pb_unit.specs.States.{started};
ghost use Rattle.pb_database.specs.inner.Slots.{placed_from};
ghost use Rattle.pb_database.specs.Ordered.{IsOrdered};
ghost use Rattle.pb_database.specs.Sound.{IsDatabase};
ghost use Rattle.pb_database.specs.inner.Indexed.{IsIndexed};
ghost use Rattle.pb_database.specs.Naming.{HasNaming};
ghost use Rattle.pb_database.specs.Refutations.{TellsConflict};
ghost use Rattle.pb_database.specs.inner.Mirrors.{IsMirrored};

use crate::apart::{self, is_refuted_with_all, is_refuted_with_listed};
use crate::entering::{enter_rest, leave};
use crate::idle::{Idle, idle_engine};
use crate::index::{self, Named};
use crate::packed::Packed;
use crate::refutation::is_refuted_with;
use crate::rounds::is_refuted_by_few;
use crate::slots::{self, Slot};
use pb_base::{NoMemory, Var};
use pb_norm::Linear;
use pb_unit::{Constraints, Engine, Rounds};
use std::alloc::Global;
use std::marker::Model;

/// The constraints that are live while a derivation is checked, by their ids. The sum of the coefficients and the degree of each are
/// below 2^126.
pub struct Database {
    original: u32,
    vars: u32,
    // Engines and rounds are over so many variables. Where there are more, propagation goes over those that occur, apart.
    most: u32,
    slots: Vec<Slot>,
    // The constraints of so many of the first slots are live in the engine. The others join them before all live ones are propagated over.
    entered: usize,
    engine: Engine,
    // For listed constraints alone.
    idle: Idle,
    // For few constraints no engine is worth its while.
    rounds: Rounds,
    // By fresh variables, ids of constraints that have them.
    named: Vec<Named>,
    // So many ids of deleted constraints are listed there; past the limit a sweep pays for itself. No contract depends on these counts.
    left: usize,
    limit: usize,
    alloc: Global,
}

// Written out: one call in the proof of a function that owns it.
impl Drop for Database {
    fn drop(self) {
        let Database {
            original: _,
            vars: _,
            most: _,
            slots: _,
            entered: _,
            engine: _,
            idle: _,
            rounds: _,
            named: _,
            left: _,
            limit: _,
            alloc: _,
        } = self;
    }
}

impl Model for Database {
    ghost use Rattle.pb_steps.specs.Database.{Database};
    ghost use Rattle.pb_database.specs.inner.Slots.{database_of};
    ghost use Rattle.pb_database.specs.inner.Mirrors.{IsKept};

    ghost Value = { Database };

    ghost view = { λ d. database_of d.original d.vars d.slots.items };

    ghost invariant = { λ d. IsKept d.original d.vars d.most d.slots.items d.entered d.engine d.idle d.rounds d.named.items };
}

// Makes the slots of constraints that are loaded.
fn loaded_slots(alloc: Global, loaded: &[Linear]) -> Result<Vec<Slot>, NoMemory>
    ensures { IfOk result (λ v. v.items ≡ placed_from 0 loaded.now) }
{
    let mut slots = Vec::with_capacity(alloc, loaded.len())?;
    for (place, constraint) in loaded.iter().enumerate() {
        let copy = constraint.copy(alloc)?;
        slots::push(&mut slots, alloc, copy, place as u64)?;
    }
    Ok(slots)
}

// Makes the index of constraints that are loaded, with lists for so many variables.
fn loaded_index(
    alloc: Global,
    size: u32,
    original: u32,
    loaded: &[Linear],
) -> Result<Vec<Named>, NoMemory>
    ensures { IfOk result (λ lists. IsIndexed original (placed_from 0 loaded.now) lists.items) }
{
    let mut lists = index::empty(alloc, size)?;
    for (place, constraint) in loaded.iter().enumerate() {
        if !index::enter(&mut lists, original, constraint.terms(), place as u64 + 1) {
            return Err(NoMemory);
        }
    }
    Ok(lists)
}

// Copies the constraints.
fn copies(alloc: Global, loaded: &[Linear]) -> Result<Vec<Linear>, NoMemory>
    ensures { IfOk result (λ v. v.items ≡ loaded.now) }
{
    let mut list = Vec::with_capacity(alloc, loaded.len())?;
    for constraint in loaded {
        list.push(constraint.copy(alloc)?)?;
    }
    Ok(list)
}

// Makes an engine over constraints that are loaded.
fn loaded_engine(alloc: Global, vars: u32, loaded: &[Linear]) -> Result<Engine, NoMemory>
    requires { AreVarsWithin vars loaded.now }
    ensures { IfOk result (λ engine. engine ≡ started vars loaded.now) }
{
    Engine::new(alloc, vars, copies(alloc, loaded)?)
}

// Up to so many variables have tables, however few occur, and so many more for each term that is loaded.
const FEW_VARS: usize = 1 << 22;

const VARS_A_TERM: usize = 256;

// So many lists have the ids where variables share them.
const SHARED_LISTS: u32 = 1 << 18;

// Returns the number of variables that engines are over: all, unless that is far more than can occur; then none.
fn most_of(vars: u32, loaded: &[Linear]) -> u32 {
    let mut terms: usize = 0;
    for constraint in loaded {
        terms = terms.saturating_add(constraint.len());
    }
    let limit = terms.saturating_mul(VARS_A_TERM).saturating_add(FEW_VARS);
    if vars as usize <= limit { vars } else { 0 }
}

// Makes an engine over loaded constraints, and returns how many of these are live in it: all, or none if there are variables beyond its
// own.
fn first_engine(
    alloc: Global,
    vars: u32,
    most: u32,
    loaded: &[Linear],
) -> Result<(Engine, usize), NoMemory>
    requires { AreVarsWithin vars loaded.now }
    ensures few { IfOk result (λ r. r.1 ≤ length loaded.now) }
    ensures mirrored { IfOk result (λ r. IsMirrored most (take r.1 (placed_from 0 loaded.now)) r.0) }
{
    if most < vars {
        let engine = idle_engine(alloc, most)?;
        return Ok((engine, 0));
    }
    let engine = loaded_engine(alloc, most, loaded)?;
    Ok((engine, loaded.len()))
}

impl Database {
    /// Makes the database of loaded constraints, whose ids are 1, 2, .., over `original` variables of a problem and fresh ones up to
    /// `vars`.
    pub fn new(
        alloc: Global,
        original: u32,
        vars: u32,
        loaded: &[Linear],
    ) -> Result<Database, NoMemory>
        requires within { AreVarsWithin vars loaded.now }
        requires narrow { All IsNarrow loaded.now }
        // The loaded constraints are live under the ids 1, 2, ..
        ensures { IfOk result (λ db. db ≡ loaded_database original vars loaded.now) }
    {
        let slots = loaded_slots(alloc, loaded)?;
        let most = most_of(vars, loaded);
        let lists = if most < vars { SHARED_LISTS } else { vars };
        let named = loaded_index(alloc, lists, original, loaded)?;
        let (engine, entered) = first_engine(alloc, vars, most, loaded)?;
        let idle = Idle::new(most);
        let rounds = Rounds::new(alloc, most)?;
        Ok(Database {
            original,
            vars,
            most,
            slots,
            entered,
            engine,
            idle,
            rounds,
            named,
            left: 0,
            limit: lists as usize,
            alloc,
        })
    }

    /// Returns the constraint with an id, if it is live.
    pub fn constraint_at(&self, id: u64) -> Option<&Packed>
        // The constraint is the live one with the id, if there is one.
        ensures found { option_copied result ≡ constraint_at self.now.live id }
        ensures sound { IsDatabase self.now }
    {
        slots::constraint_at(&self.slots, id)
    }

    /// True if a constraint is live under the id.
    pub fn is_live(&self, id: u64) -> bool
        // The answer is true iff a constraint is live under the id.
        ensures { result ≡ is_live self.now.live id }
    {
        self.constraint_at(id).is_some()
    }

    /// True if the constraint with the id is live and was put out.
    pub fn is_out(&self, id: u64) -> bool
        // The answer is true iff the constraint with the id was put out.
        ensures { result ≡ is_out self.now.live id }
    {
        slots::is_out(&self.slots, id)
    }

    /// Returns the number of variables, fresh ones among them.
    pub fn vars(&self) -> u32
        ensures value { result ≡ self.now.vars }
        ensures sound { IsDatabase self.now }
    {
        self.vars
    }

    /// Returns the id that the next constraint gets.
    pub fn next(&self) -> u64
        ensures value { result ≡ self.now.next }
        ensures ordered { IsOrdered self.now }
    {
        self.slots.len() as u64 + 1
    }

    /// Returns the number of the problem's variables.
    pub fn original(&self) -> u32
        ensures { result ≡ self.now.original }
    {
        self.original
    }

    // True if propagation over the constraints of a list and all live ones reaches a conflict, by an engine that is made for this call.
    fn refutes_apart(&self, front: Constraints) -> Result<bool, NoMemory>
        ensures { IfOk result (TellsConflict (front ++ live_constraints self.now.live)) }
    {
        let found = is_refuted_with_all(self.alloc, front, &self.slots)?;
        Ok(found)
    }

    /// True if propagation over one constraint or two and all live ones reaches a conflict.
    pub fn refutes(&mut self, more: &Linear, second: Option<&Linear>) -> Result<bool, NoMemory>
        requires more { HasVarsWithin self.old.vars more.now.terms }
        requires second { IfSome (option_copied second) (λ c. HasVarsWithin self.old.vars c.terms) }
        // The database is the same.
        ensures same { self.new ≡ self.old }
        // The answer is true iff propagation over the given constraints and all live ones reaches a conflict.
        ensures answer { IfOk result (TellsConflict (more.now ∷ option_to_list (option_copied second.entry) ++ live_constraints self.old.live)) }
    {
        if self.most < self.vars {
            let front = apart::front(self.alloc, more, second)?;
            let found = self.refutes_apart(front)?;
            return Ok(found);
        }
        if !enter_rest(
            self.alloc,
            &mut self.engine,
            &mut self.slots,
            &mut self.entered,
        ) {
            return Err(NoMemory);
        }
        is_refuted_with(&mut self.engine, more, second)
    }

    /// True if propagation over one constraint and those with the ids reaches a conflict.
    pub fn refutes_listed(&mut self, more: &Linear, ids: &[u64]) -> Result<bool, NoMemory>
        requires { HasVarsWithin self.old.vars more.now.terms }
        // The database is the same.
        ensures same { self.new ≡ self.old }
        // The answer is true iff propagation over the given constraint and those with the ids reaches a conflict.
        ensures answer { IfOk result (TellsConflict (more.now ∷ filter_map (constraint_at self.old.live) ids.now)) }
    {
        if self.most < self.vars {
            let front = apart::one(self.alloc, more)?;
            let found = is_refuted_with_listed(self.alloc, front, &self.slots, ids)?;
            return Ok(found);
        }
        if let Some(found) = is_refuted_by_few(
            self.alloc,
            &mut self.rounds,
            &self.slots,
            more,
            ids,
        ) {
            return Ok(found);
        }
        self.idle.refutes(self.alloc, &self.slots, more, ids)
    }

    /// Returns ids, among them those of all live constraints that have the variable, which is a fresh one.
    pub fn ids_of(&self, var: Var) -> &[u32]
        requires { self.now.original < var }
        // The ids include those of all live constraints that have the fresh variable.
        ensures { HasNaming self.now.live var result.now }
    {
        index::ids_of(&self.named, var)
    }

    /// Adds a constraint under the next id, and returns the id.
    pub fn grow(&mut self, constraint: Linear) -> Result<u64, NoMemory>
        requires narrow { IsNarrow constraint }
        requires within { HasVarsWithin self.old.vars constraint.terms }
        // The id is the next one.
        ensures id { IfOk result (λ id. id ≡ self.old.next) }
        // On success the constraint is live under it.
        ensures ok { OnOk result (self.new ≡ grown self.old constraint) }
        // After `NoMemory` the database is as it was.
        ensures err { OnErr result (self.new ≡ self.old) }
    {
        let id = self.slots.len() as u64 + 1;
        if !index::enter(&mut self.named, self.original, constraint.terms(), id) {
            return Err(NoMemory);
        }
        slots::push(&mut self.slots, self.alloc, constraint, 0)?;
        Ok(id)
    }

    // Deletes the constraint with an id, and frees its place in the engine.
    fn remove_one(&mut self, id: u64)
        ensures { self.new ≡ reduced self.old (id ∷ []) }
    {
        let gone = slots::take(&mut self.slots, id);
        let place = gone.place as u64;
        match gone.constraint {
            Some(packed) => {
                leave(&mut self.engine, self.entered, id, place);
                let left = packed.unlist(&mut self.named, self.original, id);
                self.left = self.left.saturating_add(left);
            }
            None => {}
        }
    }

    // Drops the ids of deleted constraints from the index, once these are too many.
    fn tidy(&mut self)
        ensures { self.new ≡ self.old }
    {
        let due = self.left > self.limit;
        index::sweep_if(due, &mut self.named, &self.slots);
        if due {
            self.left = 0;
            self.limit = index::len(&self.named);
        }
    }

    /// Deletes the constraints with the ids.
    pub fn remove(&mut self, ids: &[u64])
        // The constraints with the ids are not live any more.
        ensures { self.new ≡ reduced self.old ids.now }
    {
        for id in ids {
            self.remove_one(*id);
            self.tidy();
        }
    }

    /// Marks the constraint with an id as put out.
    pub fn mark(&mut self, id: u64)
        // The constraint with the id is marked as put out.
        ensures { self.new ≡ marked self.old id }
    {
        slots::mark(&mut self.slots, id);
    }

    /// Returns the allocator that the database was made with.
    pub fn alloc(&self) -> Global {
        self.alloc
    }
}
