//! What takes steps of a derivation.
ghost use Rattle.std.specs.Prelude.{◌≡◌, ◌<◌, ◌+◌, ◌^◌, ◌∷◌, [], count_by, OnErr};
ghost use Rattle.pb_steps.specs.Steps.{takes_id};
ghost use Rattle.pb_family.specs.StepSinks.{StepState, HandsSteps};

use crate::sink::SinkResult;
use pb_steps::Step;

/// Takes steps, each as its line, and counts the ids that they take.
pub trait StepSink {
    /// What it stands over beside its text.
    ghost Rest: { Type 0 };

    /// The sink, as contracts see it.
    ghost state: { Self → StepState Rest };

    /// Takes a step. Where that fails, a first part of its line was taken, and no id.
    fn step(&mut self, step: &Step) -> SinkResult
        requires few { (state self.old).next < 2 ^ 62 }
        // On success the step's line comes after those accepted before, and the next id rose by one if the step takes an id. On failure a
        // first part of the line does.
        ensures hands { HandsSteps (step.now ∷ []) result (state self.old) (state self.new) }
        // On failure the next id is as it was.
        ensures no_id { OnErr result ((state self.new).next ≡ (state self.old).next) };

    /// The id of the next step that takes one.
    fn next_id(&self) -> u64
        // The answer is the id of the next step that takes one.
        ensures { result ≡ (state self.now).next };
}

/// The next id after a step, where it was the given one before.
pub fn next_after(step: &Step, next: u64) -> u64
    requires few { next < 2 ^ 62 }
    // The answer is the next id after the step.
    ensures { result ≡ next + count_by takes_id (step.now ∷ []) }
{
    match step {
        Step::Pol(_) | Step::Rup { .. } | Step::Red { .. } => next + 1,
        _ => next,
    }
}

/// Hands over two steps.
pub fn derive_steps<T: StepSink>(one: &Step, other: &Step, sink: &mut T) -> SinkResult
    requires few { (T.state sink.old).next + 1 < 2 ^ 62 }
    // Both steps were emitted, or the first ones until the sink failed or memory ran out.
    ensures { HandsSteps (one.now ∷ other.now ∷ []) result (T.state sink.old) (T.state sink.new) }
{
    sink.step(one)?;
    sink.step(other)
}
