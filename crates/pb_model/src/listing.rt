//! Which literals are listed.
ghost use Rattle.std.specs.Prelude.{◌≡◌, ◌<◌, ◌^◌, length};

use pb_base::{Bits, Lit, NoMemory};
use std::alloc::Global;

/// The literals that are listed so far: for each variable one truth value for it, and one for its negation.
#[derive(Drop)]
pub struct Listing {
    pub vars: u32,
    pub listed: Vec<bool>,
    pub denied: Vec<bool>,
    pub ghost few: { vars < 2 ^ 31 },
    pub ghost each_listed: { length listed.items ≡ vars },
    pub ghost each_denied: { length denied.items ≡ vars },
}

impl Listing {
    ghost use Rattle.std.specs.Prelude.{◌≤◌, ◌++◌, ◌∷◌, [], List, true, not, IfOk};
    ghost use Rattle.pb_base.specs.Literals.{negated};
    ghost use Rattle.pb_base.specs.declared.place.Place.{Place};
    ghost use Rattle.pb_model.specs.declared.meaning.Meaning.TheVariants as meaning;
    ghost use Rattle.pb_model.specs.ModelLines.{Symbol};
    ghost use Rattle.pb_model.specs.ModelLines.Symbol.{word};
    ghost use Rattle.pb_model.specs.ModelReading.{is_listed};
    ghost use Rattle.pb_model.specs.inner.Reading.{Lists};

    /// Makes a list over so many variables, without a literal.
    pub fn new(alloc: Global, vars: u32) -> Result<Listing, NoMemory>
        requires { vars < 2 ^ 31 }
        ensures vars { IfOk result (λ l. l.vars ≡ vars) }
        ensures none { IfOk result (Lists []) }
    {
        Ok(Listing {
            vars,
            listed: vec![in alloc; false; vars as usize]?,
            denied: vec![in alloc; false; vars as usize]?,
        })
    }

    // True if the literal is listed.
    fn has(&self, lit: Lit) -> bool
        requires { lit.var ≤ self.now.vars }
        ensures { (ss : List Symbol) → Lists ss self.now → result ≡ is_listed ss lit }
    {
        let place = lit.index() as usize - 1;
        if lit.positive {
            self.listed[place]
        } else {
            self.denied[place]
        }
    }

    // Lists a literal.
    fn add(&mut self, lit: Lit)
        requires { lit.var ≤ self.old.vars }
        ensures vars { self.new.vars ≡ self.old.vars }
        ensures lists { (ss : List Symbol) (place : Place) → Lists ss self.old → Lists (ss ++ word place (meaning.Literal lit) ∷ []) self.new }
    {
        let place = lit.index() as usize - 1;
        if lit.positive {
            self.listed[place] = true;
        } else {
            self.denied[place] = true;
        }
    }

    /// Lists a literal unless its negation is listed, and returns whether it did.
    pub fn take(&mut self, lit: Lit) -> bool
        requires { lit.var ≤ self.old.vars }
        ensures vars { self.new.vars ≡ self.old.vars }
        ensures tells { (ss : List Symbol) → Lists ss self.old → result ≡ not (is_listed ss (negated lit)) }
        ensures lists { result ≡ true → (ss : List Symbol) (place : Place) → Lists ss self.old → Lists (ss ++ word place (meaning.Literal lit) ∷ []) self.new }
    {
        if self.has(lit.not()) {
            return false;
        }
        self.add(lit);
        true
    }

    /// Returns the values of the variables: those that are listed are true.
    pub fn values(self) -> Bits
        ensures { result ≡ self.listed.items }
    {
        Bits::from_vec(self.listed)
    }
}
