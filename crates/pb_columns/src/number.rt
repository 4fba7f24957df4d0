//! Numbers in two's complement, as words of 64 bits.
ghost use Rattle.std.specs.Prelude.{◌≡◌};
ghost use Rattle.pb_columns.specs.Words.{signed, wide};

// How many numbers a word has.
const WORD: u128 = 1 << 64;

// The word of a sign alone.
const SIGN: u64 = 1 << 63;

/// Returns the number that one word means in two's complement.
pub(crate) fn signed(word: u64) -> i128
    ensures { result ≡ signed word }
{
    let number = word as i128;
    if word < 0x8000_0000_0000_0000 {
        number
    } else {
        number - 0x1_0000_0000_0000_0000
    }
}

/// Returns the number that two words mean in two's complement, the low one first.
pub fn wide(low: u64, high: u64) -> i128
    // The number is the one of the two words, of which the high one has the sign.
    ensures { result ≡ wide low high }
{
    signed(high) * 0x1_0000_0000_0000_0000 + low as i128
}

/// Returns the two words of a number in two's complement, the low one first.
pub fn halves(number: i128) -> (u64, u64)
    // The two words are those of the number.
    ensures { wide result.0 result.1 ≡ number }
{
    if number < 0 {
        let above = (number + i128::MAX + 1) as u128;
        ((above % WORD) as u64, SIGN + (above / WORD) as u64)
    } else {
        let number = number as u128;
        ((number % WORD) as u64, (number / WORD) as u64)
    }
}
