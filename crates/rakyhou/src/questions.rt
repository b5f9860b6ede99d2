// A question in hex digits, two to a byte.
use super::failures::Failure;
use std::alloc::Global;

// The word that stands for a question of no bytes.
const NONE: &str = "-";

// The program of cases has the same of a byte, with an error of its own; neither line is plainer shared.
fn digit_of(c: char) -> Result<u8, Failure> {
    match c.to_digit(16) {
        Some(digit) => Ok(digit as u8),
        None => Err(Failure::NoHexDigit(c)),
    }
}

// Adds the bytes of digits with no blank among them.
fn add_bytes(bytes: &mut Vec<u8>, digits: &str) -> Result<(), Failure> {
    let mut high = None;
    for c in digits.chars() {
        let digit = digit_of(c)?;
        match high.take() {
            None => high = Some(digit),
            Some(high) => bytes.push(high << 4 | digit)?,
        }
    }
    match high {
        None => Ok(()),
        Some(_) => Err(Failure::HalfByte),
    }
}

// The bytes of a question. Blanks may stand between bytes.
pub(super) fn question_of(heap: Global, text: &str) -> Result<Vec<u8>, Failure> {
    let mut bytes = Vec::new(heap);
    if text == NONE {
        return Ok(bytes);
    }
    for digits in text.split_ascii_whitespace() {
        add_bytes(&mut bytes, digits)?;
    }
    if bytes.is_empty() {
        return Err(Failure::NoDigits);
    }
    Ok(bytes)
}
