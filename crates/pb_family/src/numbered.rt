//! Clauses by their numbers.
ghost use Rattle.std.specs.Prelude.{◌≡◌, ◌<◌, ◌∷◌, [], ℕ, List, map};
ghost use Rattle.std.specs.List.{range_with_len};
ghost use Rattle.pb_base.specs.declared.literal.Lit.{Lit};
ghost use Rattle.pb_family.specs.Handing.{Hands};

use crate::sink::ClauseSink;
use pb_base::Failed;

/// Clauses that are given by their numbers, from 0 on.
pub trait NumberedClauses {
    /// How many clauses there are.
    ghost clause_count: { Self → ℕ };

    /// The clause with a number.
    ghost clause: { Self → ℕ → List Lit };

    /// How many clauses there are.
    fn clauses(&self) -> usize
        ensures { result ≡ clause_count self.now };

    /// Hands over the clause with a number.
    fn emit_one<S: ClauseSink>(&self, number: usize, sink: &mut S) -> Result<(), Failed>
        requires { number < clause_count self.now }
        ensures { Hands (clause self.now number ∷ []) result (S.state sink.old) (S.state sink.new) };
}

/// Hands over all clauses, in the order of their numbers.
pub fn emit_all<C: NumberedClauses, S: ClauseSink>(of: &C, sink: &mut S) -> Result<(), Failed>
    // All clauses were emitted, in the order of their numbers, or a first part until the sink failed.
    ensures { Hands (map (C.clause of.now) (range_with_len 0 (C.clause_count of.now))) result (S.state sink.old) (S.state sink.new) }
{
    for number in 0..of.clauses() {
        of.emit_one(number, sink)?;
    }
    Ok(())
}
