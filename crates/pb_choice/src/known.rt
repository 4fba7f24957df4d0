//! What is known of how a constraint is encoded before it is planned.
use crate::chosen::Chosen;

/// Prior knowledge of how a residual constraint is encoded, from an earlier plan of the same constraint.
#[derive(Clone, Copy)]
pub enum Known<'a> {
    /// Nothing.
    Nothing,
    /// That it goes to the adder.
    Adder,
    /// The family that was built for it.
    Kept(&'a Chosen),
}
