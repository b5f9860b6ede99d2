// Decimal numbers.
use super::failures::Failure;

// The number that a word writes by digits alone: the largest where it does not fit, and 0 where there is
// no digit.
pub(super) fn number_of(word: &[u8]) -> Result<u32, Failure> {
    let mut number: u32 = 0;
    for c in word {
        let Some(digit) = (*c as char).to_digit(10) else {
            return Err(Failure::NoCase);
        };
        number = number.saturating_mul(10).saturating_add(digit);
    }
    Ok(number)
}
