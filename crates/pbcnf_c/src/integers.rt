//! A sink of integers in memory.
ghost use Rattle.std.specs.Prelude.{◌≡◌, ◌∷◌, ◌++◌, [], Some, OnOk, length, take};
ghost use Rattle.pb_dimacs.specs.CnfReading.{literal_number};
ghost use Rattle.pb_family.specs.ClauseText.{clause_text, literal_text};
ghost use Rattle.std.specs.Prelude.{codes};
ghost use Rattle.pb_family.specs.Handing.{Hands};
ghost use Rattle.pb_family.specs.TextSinks.{in_memory};
ghost use Rattle.pbcnf_c.specs.Integers.{integer_text, integers_text, IsSmall};
ghost use Rattle.std.specs.Prelude.{All};

use pb_base::{Failed, FaultCount, Lit};
use pb_family::ClauseSink;
use std::alloc::{AllocError, Global};

/// Returns the integer of a literal: the variable's number, negative if the literal is negated.
pub fn integer_of(lit: &Lit) -> i32
    ensures text { integer_text result ≡ literal_text lit.now ++ codes " " }
    ensures number { result ≡ literal_number lit.now }
{
    let number = lit.index() as i32;
    if lit.positive { number } else { -number }
}

// Appends the integers of a clause, or a part of them.
fn push_integers(out: &mut Vec<i32>, clause: &[Lit]) -> Result<(), AllocError>
    ensures ok { OnOk result (integers_text out.new.items ≡ integers_text out.old.items ++ clause_text clause.now) }
    ensures before { take (length out.old.items) out.new.items ≡ out.old.items }
    ensures small { All IsSmall out.old.items → All IsSmall out.new.items }
{
    for lit in clause {
        out.push(integer_of(lit))?;
    }
    out.push(0)?;
    Ok(())
}

/// Collects clauses as integers in memory. It writes to no desk, and fails if memory runs out.
#[derive(Drop)]
pub struct IntegerSink {
    integers: Vec<i32>,
    faults: FaultCount,
    ghost small: { All IsSmall integers.items },
}

impl ClauseSink for IntegerSink {
    ghost use Rattle.pb_family.specs.TextSinks.{in_memory};
    ghost use Rattle.pbcnf_c.specs.Integers.{integers_text};

    ghost Rest = { Unit {0} };

    ghost state = { λ sink. in_memory (integers_text sink.integers.items) sink.faults };

    /// Appends the integers of the clause and a 0. If memory runs out, the list is as it was.
    fn clause(&mut self, clause: &[Lit]) -> Result<(), Failed>
        ensures hands { Hands (clause.now ∷ []) result (⟦<IntegerSink as ClauseSink>⟧.state self.old) (⟦<IntegerSink as ClauseSink>⟧.state self.new) }
    {
        let length = self.integers.len();
        match push_integers(&mut self.integers, clause) {
            Ok(()) => Ok(()),
            Err(AllocError) => {
                self.integers.truncate(length);
                Err(self.faults.rise())
            }
        }
    }
}

impl IntegerSink {
    /// Starts with no integers.
    pub fn new(alloc: Global) -> Self
        ensures { ⟦<IntegerSink as ClauseSink>⟧.state result ≡ in_memory [] 0 }
    {
        IntegerSink {
            integers: Vec::new(alloc),
            faults: FaultCount::new(),
        }
    }

    /// Returns the integers that were collected.
    pub fn integers(&self) -> &[i32]
        ensures text { (⟦<IntegerSink as ClauseSink>⟧.state self.now).lines ≡ Some (integers_text result.now) }
        ensures small { All IsSmall result.now }
    {
        self.integers.as_slice()
    }
}
