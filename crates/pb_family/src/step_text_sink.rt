//! A sink of steps in memory.
ghost use Rattle.std.specs.Prelude.{◌≡◌, ◌<◌, ◌^◌, ◌∷◌, [], Some, OnErr};
ghost use Rattle.pb_family.specs.StepSinks.{HandsSteps, steps_in_memory};

use crate::sink::SinkResult;
use crate::step_sink::{StepSink, next_after};
use pb_steps::{Step, write_step};
use std::alloc::Global;

/// Takes steps as text in memory. It stands over no desk, and answers nothing but want of memory.
#[derive(Drop)]
pub struct StepTextSink {
    alloc: Global,
    text: Vec<u8>,
    next: u64,
}

impl StepSink for StepTextSink {
    ghost use Rattle.pb_family.specs.StepSinks.{steps_in_memory};

    ghost Rest = { Unit {0} };

    ghost state = { λ sink. steps_in_memory sink.text.items sink.next };

    /// Where memory is wanting, it holds what it held.
    fn step(&mut self, step: &Step) -> SinkResult
        requires few { (⟦<StepTextSink as StepSink>⟧.state self.old).next < 2 ^ 62 }
        ensures hands { HandsSteps (step.now ∷ []) result (⟦<StepTextSink as StepSink>⟧.state self.old) (⟦<StepTextSink as StepSink>⟧.state self.new) }
        ensures no_id { let seen = ⟦<StepTextSink as StepSink>⟧.state in OnErr result ((seen self.new).next ≡ (seen self.old).next) }
        ensures failed { OnErr result (⟦<StepTextSink as StepSink>⟧.state self.new ≡ ⟦<StepTextSink as StepSink>⟧.state self.old) }
    {
        write_step(self.alloc, step, &mut self.text)?;
        self.next = next_after(step, self.next);
        Ok(())
    }

    fn next_id(&self) -> u64 {
        self.next
    }
}

impl StepTextSink {
    /// Holds nothing yet. The first step that takes an id gets this one.
    pub fn new(alloc: Global, next: u64) -> Self
        ensures { ⟦<StepTextSink as StepSink>⟧.state result ≡ steps_in_memory [] next }
    {
        StepTextSink {
            alloc,
            text: Vec::new(alloc),
            next,
        }
    }

    /// The text that it holds: a line for each step.
    pub fn text(&self) -> &[u8]
        // The text is the lines of the steps that were accepted.
        ensures { (⟦<StepTextSink as StepSink>⟧.state self.now).sink.lines ≡ Some result.now }
    {
        self.text.as_slice()
    }
}
