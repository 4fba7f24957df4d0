//! A sink in memory that fails.
use pb_base::{Failed, FaultCount, Lit};
use pb_family::{ClauseSink, push_clause};
use std::alloc::{AllocError, Global};

/// Takes so many clauses as text in memory, and fails at the next.
#[derive(Drop)]
pub struct ShortSink {
    text: Vec<u8>,
    faults: FaultCount,
    left: u32,
}

impl ClauseSink for ShortSink {
    ghost use Rattle.pb_family.specs.TextSinks.{in_memory};

    ghost Rest = { Unit {0} };

    ghost state = { λ sink. in_memory sink.text.items sink.faults };

    fn clause(&mut self, clause: &[Lit]) -> Result<(), Failed> {
        if self.left == 0 {
            return Err(self.faults.rise());
        }
        self.left -= 1;
        match push_clause(&mut self.text, clause) {
            Ok(()) => Ok(()),
            Err(AllocError) => Err(self.faults.rise()),
        }
    }
}

impl ShortSink {
    /// Holds nothing yet, and will take so many clauses.
    pub fn new(alloc: Global, left: u32) -> Self {
        ShortSink {
            text: Vec::new(alloc),
            faults: FaultCount::new(),
            left,
        }
    }

    /// The clauses that it holds, a line each.
    pub fn text(&self) -> &[u8] {
        self.text.as_slice()
    }
}
