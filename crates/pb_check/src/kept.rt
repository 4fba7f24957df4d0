//! The clauses of a CNF that are kept while its derivation is checked.
ghost use Rattle.std.specs.Prelude.{◌≡◌, [], true, false, OnOk};
ghost use Rattle.pb_check.specs.inner.Keeping.{with_next};

use pb_base::{Clause, Clauses, NoMemory};
use std::alloc::Global;

/// The clauses that were read, or none where they are not wanted.
#[derive(Drop)]
pub struct CollectedClauses {
    pub wanted: bool,
    pub clauses: Clauses,
}

impl CollectedClauses {
    /// Starts without collecting anything.
    pub fn nothing(alloc: Global) -> CollectedClauses
        ensures { result ≡ record { wanted = false; clauses = [] } }
    {
        CollectedClauses {
            wanted: false,
            clauses: Clauses::new(alloc),
        }
    }

    /// Starts to collect all clauses, before the first.
    pub fn all(alloc: Global) -> CollectedClauses
        ensures { result ≡ record { wanted = true; clauses = [] } }
    {
        CollectedClauses {
            wanted: true,
            clauses: Clauses::new(alloc),
        }
    }

    /// Keeps a clause, if there is one and it is wanted.
    pub fn keep(&mut self, next: Option<Clause>) -> Result<(), NoMemory>
        ensures { OnOk result (self.new ≡ with_next self.old next) }
    {
        match next {
            Some(clause) => {
                if self.wanted {
                    self.clauses.push(clause)?;
                }
                Ok(())
            }
            None => Ok(()),
        }
    }
}
