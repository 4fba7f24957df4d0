//! A sink of lines of text in memory.
ghost use Rattle.std.specs.Prelude.{◌≡◌, ◌∷◌, ◌++◌, [], Some, OnOk, length, take};
ghost use Rattle.pb_family.specs.ClauseText.{clause_text};
ghost use Rattle.pb_family.specs.Handing.{Hands};
ghost use Rattle.pbcnf_c.specs.Lines.{led_in_memory};

use pb_base::{Failed, FaultCount, Lit};
use pb_family::{ClauseSink, push_clause};
use std::alloc::AllocError;

// Appends the line of a clause after its lead, or a part of the line if memory runs out.
fn push_led(out: &mut Vec<u8>, lead: &[u8], clause: &[Lit]) -> Result<(), AllocError>
    ensures ok { OnOk result (out.new.items ≡ out.old.items ++ (lead.now ++ clause_text clause.now)) }
    ensures before { take (length out.old.items) out.new.items ≡ out.old.items }
{
    out.extend_from_slice(lead)?;
    push_clause(out, clause)
}

/// Collects clauses as text in memory, a line each, every line after the same lead. It writes to no desk, and fails if memory runs out.
#[derive(Drop)]
pub struct LineSink {
    lead: &'static [u8],
    text: Vec<u8>,
    faults: FaultCount,
}

impl ClauseSink for LineSink {
    ghost use Rattle.pbcnf_c.specs.Lines.{led_in_memory};

    ghost Rest = { Unit {0} };

    ghost state = { λ sink. led_in_memory sink.lead.now sink.text.items sink.faults };

    /// Appends the line of the clause. If memory runs out, the text is as it was.
    fn clause(&mut self, clause: &[Lit]) -> Result<(), Failed>
        ensures hands { Hands (clause.now ∷ []) result (⟦<LineSink as ClauseSink>⟧.state self.old) (⟦<LineSink as ClauseSink>⟧.state self.new) }
    {
        let length = self.text.len();
        match push_led(&mut self.text, self.lead, clause) {
            Ok(()) => Ok(()),
            Err(AllocError) => {
                self.text.truncate(length);
                Err(self.faults.rise())
            }
        }
    }
}

impl LineSink {
    /// Starts with this text, and puts `lead` before each line.
    pub fn new(lead: &'static [u8], head: Vec<u8>) -> Self
        ensures { ⟦<LineSink as ClauseSink>⟧.state result ≡ led_in_memory lead.now head.items 0 }
    {
        LineSink {
            lead,
            text: head,
            faults: FaultCount::new(),
        }
    }

    /// Returns the text that was collected.
    pub fn into_text(self) -> Vec<u8>
        ensures { (⟦<LineSink as ClauseSink>⟧.state self).lines ≡ Some result.items }
    {
        self.text
    }
}
