//! Laws about the definitions.
ghost use Rattle.pb_model.specs.ModelLaws.{ToldExactly};

/// The law that the words of a text say a model iff each may follow those before it, and else their fault is the first that may not.
pub fn told_exactly()
    ensures { ToldExactly }
{}
