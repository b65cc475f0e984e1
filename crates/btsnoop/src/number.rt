// A word that is a number.
ghost use Rattle.std.specs.Prelude.{◌≤◌, IfOk};

use thiserror::Error;

#[derive(Clone, Copy, Debug, Error)]
pub enum NumberError {
    #[error("not digits")]
    NotDigits,
    #[error("too large")]
    TooLarge,
    #[error("not of 64 bits")]
    NotOf64Bits,
}

// Decimal digits and nothing else; above `most` the error that is given.
fn up_to(word: &[u8], most: u64, above: NumberError) -> Result<u64, NumberError>
    ensures { IfOk result (λ value. value ≤ most) }
{
    match text_read::number_at(word, 0) {
        Ok(number) if number.next != word.len() => Err(NumberError::NotDigits),
        Ok(number) if number.value <= most => Ok(number.value),
        Err(text_read::NumberError::NoDigit) => Err(NumberError::NotDigits),
        Ok(_) | Err(text_read::NumberError::TooLarge) => Err(above),
    }
}

pub fn unsigned(word: &[u8], most: u64) -> Result<u64, NumberError>
    ensures { IfOk result (λ value. value ≤ most) }
{
    up_to(word, most, NumberError::TooLarge)
}

// The 64 bits of a number with a sign, or without.
pub fn signed(word: &[u8]) -> Result<u64, NumberError> {
    let above = NumberError::NotOf64Bits;
    match word {
        [b'-', digits @ ..] => Ok(up_to(digits, 0x8000_0000_0000_0000, above)?.wrapping_neg()),
        _ => up_to(word, 0x7FFF_FFFF_FFFF_FFFF, above),
    }
}
