//! What an equality asks of its literals, by its lower half.
ghost use Rattle.std.specs.Prelude.{◌≡◌};
ghost use Rattle.pb_choice.specs.Equals.{asks_for_number, asks_for_some, is_counting, number_asked};

use pb_norm::{Linear, all_weigh, first_coef};

/// Returns the degree divided by the first coefficient, rounded down: how many literals the equality asks to be true, if all coefficients
/// are alike.
pub fn number_asked(lower: &Linear) -> u128
    ensures { result ≡ number_asked lower.now }
{
    lower.degree() / first_coef(lower.terms())
}

// True if all coefficients are equal and the degree is a whole multiple of them, so that the sum counts literals.
fn is_counting(lower: &Linear) -> bool
    ensures { result ≡ is_counting lower.now }
{
    let coef = first_coef(lower.terms());
    let whole = coef * number_asked(lower);
    all_weigh(lower.terms(), coef) && lower.degree() == whole
}

// True if there are at least three literals, of which at least one is to be true, but not all.
fn asks_for_some(lower: &Linear) -> bool
    ensures { result ≡ asks_for_some lower.now }
{
    let count = lower.len() as u128;
    let number = number_asked(lower);
    3 <= count && (1 <= number && number < count)
}

/// True if the equality says that exactly so many of at least three literals are true, neither none nor all.
pub fn asks_for_number(lower: &Linear) -> bool
    ensures { result ≡ asks_for_number lower.now }
{
    is_counting(lower) && asks_for_some(lower)
}
