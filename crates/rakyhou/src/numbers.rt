// Decimal numbers, apart by blanks, a few to a line.
use std::fmt;

// What is wrong with a line.
#[derive(Clone, Copy, Debug)]
pub enum Flaw {
    // it has this many words
    Words(usize),
    // the word at this place, from 1, is no number that fits
    Number(usize),
    // what a number is, and how large it may be
    Above(&'static str, u32),
}

impl fmt::Display for Flaw {
    fn fmt<W: fmt::Write>(&self, f: &mut fmt::Formatter<W>) -> fmt::Result {
        match *self {
            Flaw::Words(count) => write!(f, "the number of words is {count}"),
            Flaw::Number(place) => {
                write!(
                    f,
                    "word {place} is not a decimal number from 0 to 4294967295"
                )
            }
            Flaw::Above(what, most) => write!(f, "{what} is above {most}"),
        }
    }
}

// A decimal number. A sign is none of its digits.
fn number_of(word: &str) -> Option<u32> {
    if word.starts_with('+') {
        return None;
    }
    word.parse::<u32>().ok()
}

// The numbers of a line that has just so many words. This loop is in each crate that reads numbers:
// they differ in what they say is wrong, this one in signs too, and a shared one, with a contract of words
// and decimals, is no plainer.
pub(super) fn numbers_of<const N: usize>(line: &str) -> Result<[u32; N], Flaw> {
    let mut numbers = [0; N];
    let words = line.split_ascii_whitespace();
    for (index, (number, word)) in numbers.iter_mut().zip(words).enumerate() {
        *number = number_of(word).ok_or(Flaw::Number(index.saturating_add(1)))?;
    }
    match line.split_ascii_whitespace().count() {
        count if count == N => Ok(numbers),
        count => Err(Flaw::Words(count)),
    }
}
