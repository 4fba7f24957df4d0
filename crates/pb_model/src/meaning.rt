//! What a number means among the values.
ghost use Rattle.std.specs.Prelude.{◌≡◌, ◌<◌, ◌^◌};
ghost use Rattle.pb_model.specs.ModelLines.{meaning_of, meant, IsWithin};

use pb_base::{Lit, MAX_VARIABLES, Number, Var};

/// The meaning of a word in a line of values.
#[derive(Clone, Copy)]
pub enum Meaning {
    /// The end of the values.
    End,
    /// The value of one of the variables.
    Literal(Lit),
    /// The value of a variable that does not count.
    Beyond,
    /// A variable past the limit.
    TooGreat,
    /// No integer.
    Nothing,
}

// Returns the meaning of an integer of this sign and size: 0 ends the values.
fn literal_of_size(positive: bool, size: u128, vars: u32) -> Meaning
    requires { vars < 2 ^ 31 }
    ensures value { result ≡ meaning_of vars positive size }
    ensures within { IsWithin vars result }
{
    if size == 0 {
        return Meaning::End;
    }
    if size <= u128::from(vars) {
        return Meaning::Literal(Lit {
            var: Var::new(size as u32),
            positive,
        });
    }
    if size <= u128::from(MAX_VARIABLES) {
        return Meaning::Beyond;
    }
    Meaning::TooGreat
}

/// Returns the meaning of a number in a line of values, for a problem of so many variables.
pub fn meant(number: Number, vars: u32) -> Meaning
    requires { vars < 2 ^ 31 }
    ensures value { result ≡ meant vars number }
    ensures within { IsWithin vars result }
{
    match number {
        Number::Value(n) => literal_of_size(n.is_positive(), n.unsigned_abs(), vars),
        Number::TooWide => Meaning::TooGreat,
        Number::NotANumber => Meaning::Nothing,
    }
}
