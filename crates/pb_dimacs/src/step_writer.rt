//! A slot of a desk that takes steps of a derivation.
//!
//! Each line is made in a vector that is used again, and then copied to the buffer by small pieces. So `NoMemory` comes before any of
//! a line is accepted. The caller lends the vector: a writer with one of its own would be dropped by code that gives memory back,
//! after which nothing would be known of the desk.
ghost use Rattle.std.specs.Prelude.{◌≡◌, ◌<◌, false, IsTrue};

use crate::outbox::WriteBuffer;
use crate::writing::put_text;
use pb_desk::Desk;
use pb_family::{SinkResult, StepSink, next_after};
use pb_steps::{Step, write_step};
use std::alloc::Global;

/// Writes steps to a slot, a line each, by pieces of up to 64 KiB. What was taken is written once `finish` was called, when the
/// writer is gone.
#[derive(Drop)]
pub struct StepWriter<'a, D: Desk> {
    desk: &'a mut D,
    slot: u8,
    outbox: &'a mut WriteBuffer,
    alloc: Global,
    line: &'a mut Vec<u8>,
    next: u64,
    ghost is_slot: { slot < 2 },
    ghost is_open: { IsTrue ((D.state desk.now).view.writing slot) },
    ghost not_finished: { (D.state desk.now).finished slot ≡ false },
}

impl<'a, D: Desk> StepSink for StepWriter<'a, D> {
    ghost use Rattle.std.specs.Prelude.{◌≡◌, ◌<◌, ◌^◌, ◌∷◌, [], Err, OnErr};
    ghost use Rattle.pb_family.specs.StepSinks.{HandsSteps};
    ghost use Rattle.pb_family.specs.declared.sink.SinkFault.TheVariants as fault;
    ghost use base.Fml.{GName};
    ghost use Rattle.pb_dimacs.specs.Outboxes.{SlotRest, held_in, slot_sink};

    ghost Rest = { SlotRest (GName × GName) };

    ghost state = { λ w. record { sink = slot_sink (w.desk.ghost_name, w.outbox.ghost_name) w.slot (held_in w.outbox.now) (D.state w.desk.now); next = w.next } };

    /// Where memory is wanting, nothing of the line was taken.
    fn step(&mut self, step: &Step) -> SinkResult
        requires few { (⟦<StepWriter<'a, D> as StepSink>⟧.state self.old).next < 2 ^ 62 }
        ensures hands { let seen = ⟦<StepWriter<'a, D> as StepSink>⟧.state in HandsSteps (step.now ∷ []) result (seen self.old) (seen self.new) }
        ensures no_id { let seen = ⟦<StepWriter<'a, D> as StepSink>⟧.state in OnErr result ((seen self.new).next ≡ (seen self.old).next) }
        ensures lacking { result ≡ Err fault.NoMemory → ⟦<StepWriter<'a, D> as StepSink>⟧.state self.new ≡ ⟦<StepWriter<'a, D> as StepSink>⟧.state self.old }
    {
        self.line.clear();
        write_step(self.alloc, step, self.line)?;
        put_text(self.desk, self.slot, self.outbox, self.line.as_slice())?;
        self.next = next_after(step, self.next);
        Ok(())
    }

    fn next_id(&self) -> u64 {
        self.next
    }
}

impl<'a, D: Desk> StepWriter<'a, D> {
    ghost use Rattle.pb_dimacs.specs.Outboxes.{held_in, slot_sink};

    /// Takes steps for an open slot, behind what the outbox holds. Each line is put together in the vector that is lent. The first
    /// step that takes an id gets this one.
    pub fn new(
        alloc: Global,
        desk: &'a mut D,
        slot: u8,
        outbox: &'a mut WriteBuffer,
        line: &'a mut Vec<u8>,
        next: u64,
    ) -> StepWriter<'a, D>
        requires kind { slot < 2 }
        requires open { IsTrue ((D.state desk.old).view.writing slot) }
        requires not_finished { (D.state desk.old).finished slot ≡ false }
        // The writer's text begins with what its buffer holds.
        ensures sink { (⟦<StepWriter<'a, D> as StepSink>⟧.state result).sink ≡ slot_sink (desk.entry.ghost_name, outbox.entry.ghost_name) slot (held_in outbox.old) (D.state desk.old) }
        // The first step that takes an id gets the given one.
        ensures next { (⟦<StepWriter<'a, D> as StepSink>⟧.state result).next ≡ next }
    {
        StepWriter {
            desk,
            slot,
            outbox,
            alloc,
            line,
            next,
        }
    }
}
