//! A slot of a desk that takes a weighted CNF.
//!
//! The lines with the offset and the soft literals are calls of the writer too, so that all lines of the file go through one buffer
//! in their order.
ghost use Rattle.std.specs.Prelude.{◌≡◌, ◌<◌, false, IsTrue};
ghost use Rattle.std.specs.Fmt.{signed_decimal};
ghost use Rattle.pb_family.specs.Handing.{HandsText};

use crate::outbox::WriteBuffer;
use crate::writing::{put_clause, put_text};
use itoa::Buffer;
use pb_base::{Failed, Lit};
use pb_desk::Desk;
use pb_family::ClauseSink;

/// Writes the lines of a weighted CNF to a slot, by pieces of up to 64 KiB: clauses as hard ones, behind `h`, and soft lines where
/// they are asked for. What was taken is written once `finish` was called, when the writer is gone.
#[derive(Drop)]
pub struct HardWriter<'a, D: Desk> {
    desk: &'a mut D,
    slot: u8,
    outbox: &'a mut WriteBuffer,
    ghost is_slot: { slot < 2 },
    ghost is_open: { IsTrue ((D.state desk.now).view.writing slot) },
    ghost not_finished: { (D.state desk.now).finished slot ≡ false },
}

impl<'a, D: Desk> ClauseSink for HardWriter<'a, D> {
    ghost use base.Fml.{GName};
    ghost use Rattle.pb_dimacs.specs.Outboxes.{SlotRest, held_in, hard_sink};

    ghost Rest = { SlotRest (GName × GName) };

    ghost state = { λ w. hard_sink (w.desk.ghost_name, w.outbox.ghost_name) w.slot (held_in w.outbox.now) (D.state w.desk.now) };

    fn clause(&mut self, clause: &[Lit]) -> Result<(), Failed> {
        self.put(b"h ")?;
        self.put_line(clause)
    }
}

impl<'a, D: Desk> HardWriter<'a, D> {
    ghost use Rattle.pb_family.specs.ClauseText.{clause_text};
    ghost use Rattle.pb_dimacs.specs.WcnfText.{offset_text, soft_text};
    ghost use Rattle.pb_dimacs.specs.Outboxes.{held_in, hard_sink};

    /// Takes lines for an open slot, behind what the outbox holds.
    pub fn new(desk: &'a mut D, slot: u8, outbox: &'a mut WriteBuffer) -> HardWriter<'a, D>
        requires kind { slot < 2 }
        requires open { IsTrue ((D.state desk.old).view.writing slot) }
        requires not_finished { (D.state desk.old).finished slot ≡ false }
        // The writer's text begins with what its buffer holds, and each clause has `h ` before it.
        ensures { ⟦<HardWriter<'a, D> as ClauseSink>⟧.state result ≡ hard_sink (desk.entry.ghost_name, outbox.entry.ghost_name) slot (held_in outbox.old) (D.state desk.old) }
    {
        HardWriter { desk, slot, outbox }
    }

    // Takes bytes.
    fn put(&mut self, text: &[u8]) -> Result<(), Failed>
        ensures { let seen = ⟦<HardWriter<'a, D> as ClauseSink>⟧.state in HandsText text.now result (seen self.old) (seen self.new) }
    {
        put_text(self.desk, self.slot, self.outbox, text)
    }

    // Takes a number.
    fn put_number(&mut self, number: i128) -> Result<(), Failed>
        ensures { let seen = ⟦<HardWriter<'a, D> as ClauseSink>⟧.state in HandsText (signed_decimal number) result (seen self.old) (seen self.new) }
    {
        self.put(Buffer::new().format(number).as_bytes())
    }

    // Takes the line of a clause, with nothing before it.
    fn put_line(&mut self, clause: &[Lit]) -> Result<(), Failed>
        ensures { let seen = ⟦<HardWriter<'a, D> as ClauseSink>⟧.state in HandsText (clause_text clause.now) result (seen self.old) (seen self.new) }
    {
        put_clause(self.desk, self.slot, self.outbox, clause)
    }

    /// Takes the comment with the offset, to which the costs of soft lines are added.
    pub fn offset(&mut self, offset: i128) -> Result<(), Failed>
        // The comment with the offset was written, or a first part of it until the desk failed.
        ensures { let seen = ⟦<HardWriter<'a, D> as ClauseSink>⟧.state in HandsText (offset_text offset) result (seen self.old) (seen self.new) }
    {
        self.put(b"c offset ")?;
        self.put_number(offset)?;
        self.put(b"\n")
    }

    /// Takes a soft line: that the literal costs the weight where it is false.
    pub fn soft(&mut self, weight: i128, lit: Lit) -> Result<(), Failed>
        // The soft line was written, or a first part of it until the desk failed.
        ensures { let seen = ⟦<HardWriter<'a, D> as ClauseSink>⟧.state in HandsText (soft_text weight lit) result (seen self.old) (seen self.new) }
    {
        self.put_number(weight)?;
        self.put(b" ")?;
        self.put_line(&[lit])
    }
}
