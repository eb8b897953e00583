// Decimal numbers of 32 and of 64 bits.
ghost use Rattle.std.specs.Prelude.{◌≡◌};
ghost use Rattle.texts.specs.Numerals.{number_of, long_of, with_digit, DecimalsRead, LongDecimalsRead};

/// The number that a word writes: decimal digits and nothing else, a value below 2^32. Zeros may lead.
/// Every such number in decimal reads as itself.
#[tactic(auto, using(crate::proofs::Digits::digits), unfolding(crate::specs::Numerals::number_of, crate::specs::Numerals::long_of))]
pub fn read_number(word: &[u8]) -> Option<u32>
    ensures value { result ≡ number_of word.now }
    ensures decimals { DecimalsRead }
{
    u32::try_from(read_long(word)?).ok()
}

/// The long number that a word writes: the same, with a value below 2^64.
#[tactic(auto, using(crate::proofs::Digits::digits), unfolding(crate::specs::Numerals::long_of))]
pub fn read_long(word: &[u8]) -> Option<u64>
    ensures value { result ≡ long_of word.now }
    ensures decimals { LongDecimalsRead }
{
    if word.is_empty() {
        return None;
    }
    let mut number = 0;
    for byte in word {
        number = with_digit(number, *byte)?;
    }
    Some(number)
}

// A number with one more digit behind it.
fn with_digit(number: u64, byte: u8) -> Option<u64>
    ensures { result ≡ with_digit number byte }
{
    let digit = char::from(byte).to_digit(10)?;
    number.checked_mul(10)?.checked_add(u64::from(digit))
}
