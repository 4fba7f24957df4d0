//! What holds of every generated text.
ghost use Rattle.std.specs.Prelude.{ℕ, ◌≤◌, ◌^◌};
ghost use Rattle.pb_opb.specs.Faults.{Reads};
ghost use Rattle.pb_gen.specs.Generated.{generated, generated_problem};

/// The law that with up to 2^24 statements the generated text says exactly the generated problem, and passes no limit.
pub fn generated_text_reads()
    ensures { (n seed : ℕ) → n ≤ 2 ^ 24 → Reads (generated n seed) (generated_problem n seed) }
{}
