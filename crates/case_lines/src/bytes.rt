// Bytes as words with single blanks between them.
//
// `76` is a byte in two hex digits, `74*2000` the same byte 2,000 times, `'tt&` the characters behind
// the quote, and `-` no byte.
use super::digits::number_of;
use super::failures::Failure;
use std::alloc::Global;

// The other program has the same of a character, with an error that names it; neither line is plainer shared.
// Hex digits are small letters.
fn digit_of(c: u8) -> Result<u8, Failure> {
    if let b'A'..=b'F' = c {
        return Err(Failure::NoCase);
    }
    match (c as char).to_digit(16) {
        Some(digit) => Ok(digit as u8),
        None => Err(Failure::NoCase),
    }
}

fn byte_of(high: u8, low: u8) -> Result<u8, Failure> {
    Ok(digit_of(high)? << 4 | digit_of(low)?)
}

fn add_repeated(bytes: &mut Vec<u8>, byte: u8, times: u32) -> Result<(), Failure> {
    bytes.resize(bytes.len().saturating_add(times as usize), byte)?;
    Ok(())
}

// Adds what a word without a quote says. It is told by its length and its bytes, with no search for a star.
fn add_plain(bytes: &mut Vec<u8>, word: &[u8]) -> Result<(), Failure> {
    match word {
        b"-" => Ok(()),
        [high, low] => Ok(bytes.push(byte_of(*high, *low)?)?),
        [high, low, b'*', times @ ..] => {
            add_repeated(bytes, byte_of(*high, *low)?, number_of(times)?)
        }
        _ => Err(Failure::NoCase),
    }
}

fn add_word(bytes: &mut Vec<u8>, word: &[u8]) -> Result<(), Failure> {
    match word {
        [b'\'', characters @ ..] => Ok(bytes.extend_from_slice(characters)?),
        _ => add_plain(bytes, word),
    }
}

// The bytes of a text. A quoted word can be long, and the end of it is searched for. With no quote all words
// are short, and their ends are found sooner by looking at each byte.
pub(super) fn bytes_of(heap: Global, text: &str) -> Result<Vec<u8>, Failure> {
    let mut bytes = Vec::new(heap);
    if text.contains('\'') {
        for word in text.split(' ') {
            add_word(&mut bytes, word.as_bytes())?;
        }
    } else {
        for word in text.as_bytes().split(|c| *c == b' ') {
            add_plain(&mut bytes, word)?;
        }
    }
    Ok(bytes)
}
