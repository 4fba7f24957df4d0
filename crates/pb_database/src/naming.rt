//! Constraints by the variables that they have.
ghost use Rattle.std.specs.Prelude.{◌≡◌, ◌∷◌, ◌++◌, [], ℕ, List, MatchOption};
ghost use Rattle.pb_database.specs.Naming.{names_at, IsUnnamed, IsFirstNaming};
ghost use Rattle.pb_database.specs.inner.Indexed.{IsLeast, IsNaming, lesser};

use crate::database::Database;
use pb_base::Var;

// Returns the lesser of two ids, of which the first may be missing.
fn lesser_id(best: Option<u64>, id: u64) -> Option<u64>
    ensures { result ≡ lesser best id }
{
    match best {
        Some(found) => { if found <= id { Some(found) } else { Some(id) } }
        None => Some(id),
    }
}

impl Database {
    // True if the constraint with an id is live and has the variable.
    fn names(&self, id: u64, var: Var) -> bool
        ensures { result ≡ names_at self.now.live var id }
    {
        match self.constraint_at(id) {
            Some(constraint) => constraint.names(var),
            None => false,
        }
    }

    // Returns the least id from `from` on whose constraint has the variable, of those seen so far and one more.
    fn earlier_naming(&self, best: Option<u64>, id: u64, var: Var, from: u64) -> Option<u64>
        ensures { (ids : List ℕ) → IsLeast (IsNaming self.now.live var from) ids best → IsLeast (IsNaming self.now.live var from) (ids ++ id ∷ []) result }
    {
        if id < from {
            return best;
        }
        if !self.names(id, var) {
            return best;
        }
        lesser_id(best, id)
    }

    // Returns the least id from `from` on whose constraint has the variable, by a walk over all ids.
    fn walked_naming(&self, var: Var, from: u64) -> Option<u64>
        ensures { MatchOption result (IsUnnamed self.now var from) (IsFirstNaming self.now.live var from) }
    {
        for id in from..self.next() {
            if self.names(id, var) {
                return Some(id);
            }
        }
        None
    }

    /// Returns the least id from `from` on whose constraint has the variable, or None if none has it. Only fresh variables have lists of
    /// ids.
    pub fn naming(&self, var: Var, from: u64) -> Option<u64>
        // The id is the least one, from the number on, whose constraint has the variable; there is none iff none has it.
        ensures { MatchOption result (IsUnnamed self.now var from) (IsFirstNaming self.now.live var from) }
    {
        if var.index() <= self.original() {
            return self.walked_naming(var, from);
        }
        let mut best = None;
        for id in self.ids_of(var) {
            best = self.earlier_naming(best, *id as u64, var, from);
        }
        best
    }
}
