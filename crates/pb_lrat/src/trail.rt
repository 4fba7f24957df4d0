//! Literals that are true while a line is judged.
ghost use Rattle.std.specs.Prelude.{◌≡◌, ◌<◌, [], ◌∷◌, ◌++◌, vec_len, vec_capacity, Ok, IfOk, OnOk, true, false, not};
ghost use Rattle.pb_base.specs.Literals.{negated, is_among};
ghost use Rattle.pb_lrat.specs.Hints.{with_true};

use crate::marks::Marks;
use pb_base::{Lit, NoMemory};
use std::alloc::Global;
use std::marker::Model;

/// Literals that are true, of different variables.
#[derive(Drop)]
pub(crate) struct Trail {
    marks: Marks,
    order: Vec<Lit>,
}

impl Model for Trail {
    ghost use Rattle.std.specs.Prelude.{List, reverse};
    ghost use Rattle.pb_base.specs.declared.literal.Lit.{Lit};
    ghost use Rattle.pb_lrat.specs.inner.Marks.{value_at};
    ghost use Rattle.pb_lrat.specs.inner.Trails.{IsTrail};

    ghost Value = { List Lit };

    ghost view = { λ t. reverse t.order.items };

    ghost invariant = { λ t. IsTrail (value_at t.marks) (reverse t.order.items) };
}

// Appends a literal, for which there is room.
fn append(order: &mut Vec<Lit>, lit: Lit)
    requires { vec_len order.old < vec_capacity order.old }
    ensures { order.new.items ≡ order.old.items ++ lit ∷ [] }
{
    match order.push(lit) {
        Ok(()) => {}
        Err(_) => {}
    }
}

impl Trail {
    // Starts without a true literal.
    pub(crate) fn new(alloc: Global) -> Trail
        ensures { result ≡ [] }
    {
        Trail {
            marks: Marks::new(alloc),
            order: Vec::new(alloc),
        }
    }

    // True if the literal is true.
    pub(crate) fn holds(&self, lit: &Lit) -> bool
        ensures { result ≡ is_among self.now lit.now }
    {
        match self.marks.get(lit.index()) {
            Some(value) => value == lit.positive,
            None => false,
        }
    }

    // Makes a literal true that is not.
    fn push(&mut self, lit: &Lit) -> Result<(), NoMemory>
        requires absent { is_among self.old lit.now ≡ false }
        requires undecided { is_among self.old (negated lit.now) ≡ false }
        ensures { OnOk result (self.new ≡ lit.now ∷ self.old) }
    {
        self.order.reserve(1)?;
        self.marks.set(lit.index(), lit.positive)?;
        append(&mut self.order, *lit);
        Ok(())
    }

    // Makes a literal true, if it is not.
    pub(crate) fn add(&mut self, lit: &Lit) -> Result<(), NoMemory>
        requires undecided { is_among self.old (negated lit.now) ≡ false }
        ensures { OnOk result (self.new ≡ with_true lit.now self.old) }
    {
        if self.holds(lit) {
            return Ok(());
        }
        self.push(lit)
    }

    // Makes a literal false, unless it is true, and returns whether it is false then.
    pub(crate) fn deny(&mut self, lit: &Lit) -> Result<bool, NoMemory>
        ensures free { IfOk result (λ free. free ≡ not (is_among self.old lit.now)) }
        ensures denied { result ≡ Ok true → self.new ≡ with_true (negated lit.now) self.old }
    {
        match self.marks.get(lit.index()) {
            Some(value) => Ok(value != lit.positive),
            None => {
                self.push(&lit.not())?;
                Ok(true)
            }
        }
    }

    // Makes no literal true, in as many steps as there are true ones.
    pub(crate) fn clear(&mut self)
        ensures { self.new ≡ [] }
    {
        'newest: while let Some(lit) = self.order.pop() {
            self.marks.forget(lit.index());
        }
    }
}
